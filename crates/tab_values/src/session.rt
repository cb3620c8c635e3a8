ghost use Rattle.std.specs.Prelude.{◌≡◌, ◌<◌, if◌then◌else◌, Some, None, ◌==◌, bit_and, IfErr};
ghost use Rattle.tab_spec.specs.Session.{session_of, session_bytes, kind_number, kind_of};
ghost use Rattle.tab_spec.specs.Session.{is_kind_number, needed_of, needed_flags, flags_of};
ghost use Rattle.tab_spec.specs.Session.{are_flags, or_0, unless_0, is_nonce, is_set_to_another};
ghost use Rattle.tab_spec.specs.Session.{restarted, updates_fit};
ghost use Rattle.tab_spec.specs.Values.{fixed_bytes, sized, require};
ghost use Rattle.tab_fields.specs.Taking.{Took, TookValue};
ghost use Rattle.tab_values.specs.Views as shown;

use crate::fields::{number8, number32};
use tab_bytes::Reader;
use tab_fields::{SmallBytes, add_sized, read_sized};
use tab_spec::{AuthNeeded, RC_SIZE, SessionKind};

/// A session as a device holds it (Part 1, "Session-Based Authorizations").
#[derive(Drop)]
pub struct Session {
    pub kind: SessionKind,
    /// nonceTPM, of 16 to 32 bytes.
    pub nonce: SmallBytes<32>,
    /// The policyDigest.
    pub digest: [u8; 32],
    /// The command that the policy is for, where it is for one alone.
    pub command_code: Option<u32>,
    pub needed: AuthNeeded,
    /// The PCR update count that has to be the present one, where the policy asks for that.
    pub pcr_updates: Option<u32>,
}

impl Session {
    /// The same session once more.
    pub fn copied(&self) -> Session
        ensures { shown.session_of result ≡ shown.session_of self.now }
    {
        Session {
            kind: self.kind,
            nonce: self.nonce.copied(),
            digest: self.digest,
            command_code: self.command_code,
            needed: self.needed,
            pcr_updates: self.pcr_updates,
        }
    }

    /// Begins the session again, as PolicyRestart does (Part 3, "TPM2_PolicyRestart"): it is as it
    /// began, but for its nonceTPM.
    pub fn restart(&mut self)
        ensures { shown.session_of self.new ≡ restarted (shown.session_of self.old) }
    {
        self.digest = [0; 32];
        self.command_code = None;
        self.needed = AuthNeeded::Nothing;
        self.pcr_updates = None;
    }
}

/// Whether a command code or a PCR update count that a session keeps is another than the present
/// one; false where it keeps none.
pub fn is_set_to_another(kept: Option<u32>, present: u32) -> bool
    ensures { result ≡ is_set_to_another kept present }
{
    match kept {
        Some(kept) => kept != present,
        None => false,
    }
}

// The flags of a session: the policy asks for the auth value in the hmac's key, or for the auth
// value itself; and an update count is kept.
const AUTH_VALUE: u8 = 1;

const PASSWORD: u8 = 2;

const COUNTED: u8 = 4;

/// Reads a session from the bytes of [`session_octets`]. The error is the bare code SIZE. After an
/// error the reader stands anywhere.
pub fn read_session(r: &mut Reader) -> Result<Session, u32>
    ensures took { TookValue shown.session_of result r.new (session_of r.old) }
    ensures bare { IfErr result (λ code. code < 256) }
{
    let kind = number8(r, RC_SIZE)?;
    if !is_kind_number(kind) {
        return Err(RC_SIZE);
    }
    let nonce = nonce(r)?;
    let digest = digest(r)?;
    let code = number32(r, RC_SIZE)?;
    let flags = number8(r, RC_SIZE)?;
    if !are_flags(flags) {
        return Err(RC_SIZE);
    }
    let updates = number32(r, RC_SIZE)?;
    if !updates_fit(flags, updates) {
        return Err(RC_SIZE);
    }
    Ok(Session {
        kind: kind_of(kind),
        nonce,
        digest,
        command_code: unless_0(code),
        needed: needed_of(flags),
        pcr_updates: updates_of(flags, updates),
    })
}

// The number of a kind (Part 2, "TPM_SE").
fn kind_number(kind: SessionKind) -> u8
    ensures { result ≡ kind_number kind }
{
    match kind {
        SessionKind::Hmac => 0,
        SessionKind::Policy => 1,
        SessionKind::Trial => 3,
    }
}

fn is_kind_number(number: u8) -> bool
    ensures { result ≡ is_kind_number number }
{
    number == 0 || number == 1 || number == 3
}

// The kind of a kind's number.
fn kind_of(number: u8) -> SessionKind
    ensures { result ≡ kind_of number }
{
    match number {
        0 => SessionKind::Hmac,
        1 => SessionKind::Policy,
        _ => SessionKind::Trial,
    }
}

// A nonceTPM in a TPM2B.
fn nonce(r: &mut Reader) -> Result<SmallBytes<32>, u32>
    ensures took { Took result r.new (require is_nonce RC_SIZE (sized RC_SIZE r.old)) }
    ensures bare { IfErr result (λ code. code < 256) }
{
    let bytes = read_sized(r, RC_SIZE)?;
    if bytes.len() < 16 || bytes.len() > 32 {
        return Err(RC_SIZE);
    }
    Ok(SmallBytes::of(bytes).unwrap())
}

fn digest(r: &mut Reader) -> Result<[u8; 32], u32>
    ensures took { Took result r.new (fixed_bytes 32 RC_SIZE r.old) }
    ensures bare { IfErr result (λ code. code < 256) }
{
    let Some(bytes) = r.take_bytes(32) else {
        return Err(RC_SIZE);
    };
    let mut digest = [0; 32];
    digest.copy_from_slice(bytes);
    Ok(digest)
}

// A number that may be none, as 0.
fn or_0(number: Option<u32>) -> u32
    ensures { result ≡ or_0 number }
{
    number.unwrap_or(0)
}

fn unless_0(number: u32) -> Option<u32>
    ensures { result ≡ unless_0 number }
{
    if number == 0 { None } else { Some(number) }
}

fn needed_flags(needed: AuthNeeded) -> u8
    ensures value { result ≡ needed_flags needed }
    ensures small { result < 4 }
{
    match needed {
        AuthNeeded::Nothing => 0,
        AuthNeeded::AuthValue => AUTH_VALUE,
        AuthNeeded::Password => PASSWORD,
    }
}

fn flags_of(v: &Session) -> u8
    ensures { result ≡ flags_of (shown.session_of v.now) }
{
    let flags = needed_flags(v.needed);
    if v.pcr_updates.is_some() {
        return flags + COUNTED;
    }
    flags
}

fn are_flags(flags: u8) -> bool
    ensures { result ≡ are_flags flags }
{
    flags < 8 && (AUTH_VALUE | PASSWORD) & flags != AUTH_VALUE | PASSWORD
}

fn needed_of(flags: u8) -> AuthNeeded
    ensures { result ≡ needed_of flags }
{
    if AUTH_VALUE & flags == AUTH_VALUE {
        return AuthNeeded::AuthValue;
    }
    if PASSWORD & flags == PASSWORD {
        return AuthNeeded::Password;
    }
    AuthNeeded::Nothing
}

// An update count is 0 where none is kept.
fn updates_fit(flags: u8, updates: u32) -> bool
    ensures { result ≡ updates_fit flags updates }
{
    COUNTED & flags == COUNTED || updates == 0
}

fn updates_of(flags: u8, updates: u32) -> Option<u32>
    ensures { result ≡ (if bit_and 4 flags == 4 then Some updates else None) }
{
    if COUNTED & flags == COUNTED {
        return Some(updates);
    }
    None
}

/// The bytes of a session, in place: its kind (1), its nonceTPM (TPM2B), its policyDigest (32), the
/// command code or 0 (4), flags (1) and the PCR update count or 0 (4); that order is this project's
/// own.
pub fn session_octets(v: &Session) -> SmallBytes<76>
    ensures { result ≡ session_bytes (shown.session_of v.now) }
{
    let mut bytes = SmallBytes::new();
    bytes.add(&[kind_number(v.kind)]);
    add_sized(v.nonce.as_slice(), &mut bytes);
    bytes.add(&v.digest);
    bytes.add(&or_0(v.command_code).to_be_bytes());
    bytes.add(&[flags_of(v)]);
    bytes.add(&or_0(v.pcr_updates).to_be_bytes());
    bytes
}
