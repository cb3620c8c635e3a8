ghost use Rattle.std.specs.Prelude.{◌≡◌, ◌≤◌, ◌+◌, ◌++◌, nat_le, length, is_ok, IfOk, OnOk};
ghost use Rattle.std.specs.Prelude.{MatchResult};
ghost use Rattle.tab_spec.specs.Parameters.{in_parameter, when_read};
ghost use Rattle.effect_spec.specs.declared.TheConstants.{MOST_PARAMETER_BYTES};
ghost use Rattle.effect_spec.specs.Rows.{HasResponseRoom, IsRefusedAs};
ghost use Rattle.effect_spec.specs.Sessions.{start_parameters_of, start_parameters_fault};
ghost use Rattle.effect_spec.specs.Sessions.{start_check, start_session_row};
ghost use Rattle.tab_spec.specs.Persist.{drawn};
ghost use Rattle.tab_spec.specs.Session as sessions;
ghost use Rattle.tab_spec.specs.Values.{require, sized};
ghost use Rattle.tab_values.specs.Views.{TookValue};
ghost use Rattle.fx_sessions.specs.Views.{Starts, start_parameters_of as shown};

use tab_bytes::{Buffer, Reader};
use tab_spec::{
    ALG_NULL, ALG_SHA256, AuthNeeded, RC_1, RC_HASH, RC_INSUFFICIENT, RC_P, RC_SIZE, RC_VALUE,
    SessionKind,
};
use tab_values::{Persist, Session, SmallBytes, draw, end_parameters, in_parameter, put_sized};

// The most bytes of the parameters nonceCaller and encryptedSalt, as they are read.
const MOST_NONCE_PARAMETER_BYTES: usize = 64;

const MOST_SALT_PARAMETER_BYTES: usize = 256;

// The parameters of StartAuthSession.
#[derive(Drop)]
struct StartParameters<'a> {
    nonce: &'a [u8],
    salt: &'a [u8],
    kind: u8,
    symmetric: u16,
    hash: u16,
}

/// Tests the parameters of StartAuthSession (Part 3, "TPM2_StartAuthSession"): what is asked before
/// anything of the device is looked at. The error is the response code of their first fault: too
/// few bytes, a size out of range, bytes after the last, a nonceCaller that isn't of 16 to 32
/// bytes, a salt, another session type than HMAC, policy or trial, another symmetric algorithm than
/// none, another hash than SHA-256.
pub fn check_start(params: &[u8]) -> Result<(), u32>
    ensures { IsRefusedAs result (start_check params.now) }
{
    checked(params)?;
    Ok(())
}

/// Whether StartAuthSession would start a session, where there is room for one: its parameters have
/// no fault, and its nonceTPM can be drawn.
pub fn can_start(p: &Persist, params: &[u8]) -> bool
    ensures { result ≡ is_ok (start_session_row p.now params.now) }
{
    match checked(params) {
        Ok(parameters) => p.can_draw(parameters.nonce.len()),
        Err(_) => false,
    }
}

/// StartAuthSession (Part 3, "TPM2_StartAuthSession"), where there is room for a session: draws its
/// nonceTPM, of as many bytes as the nonceCaller, and appends it as a TPM2B. An error is the
/// response code of [`check_start`] or of the draw, `TPM_RC_FAILURE`, and changes nothing.
pub fn start_session(p: &mut Persist, params: &[u8], reply: &mut Buffer) -> Result<Session, u32>
    requires room { HasResponseRoom reply.old }
    ensures row { Starts result p.old p.new params.now reply.old reply.new }
    ensures most { OnOk result (length reply.new ≤ length reply.old + MOST_PARAMETER_BYTES) }
{
    let parameters = checked(params)?;
    let nonce = draw_nonce(p, parameters.nonce.len())?;
    put_sized(nonce.as_slice(), reply).unwrap();
    Ok(Session {
        kind: kind_of(parameters.kind),
        nonce,
        digest: [0; 32],
        command_code: None,
        needed: AuthNeeded::Nothing,
        pcr_updates: None,
    })
}

// The parameters, where they have no fault.
fn checked<'a>(params: &'a [u8]) -> Result<StartParameters<'a>, u32>
    ensures row { MatchResult result
        (λ b. start_check params.now ≡ Ok (shown b))
        (λ code. start_check params.now ≡ Err code) }
    ensures few { IfOk result (λ b. length b.nonce.now ≤ 32) }
{
    let mut reader = Reader::new(params);
    let parameters = read_start_parameters(&mut reader)?;
    end_parameters(&reader)?;
    match start_parameters_fault(&parameters) {
        Some(code) => Err(code),
        None => Ok(parameters),
    }
}

fn read_start_parameters<'a>(r: &mut Reader<'a>) -> Result<StartParameters<'a>, u32>
    ensures { TookValue shown result r.new (start_parameters_of r.old) }
{
    let nonce = read_within(r, 1, MOST_NONCE_PARAMETER_BYTES)?;
    let salt = read_within(r, 2, MOST_SALT_PARAMETER_BYTES)?;
    let kind = r.take_u8().ok_or(in_parameter(3, RC_INSUFFICIENT))?;
    let symmetric = r.take_u16().ok_or(in_parameter(4, RC_INSUFFICIENT))?;
    let hash = r.take_u16().ok_or(in_parameter(5, RC_INSUFFICIENT))?;
    Ok(StartParameters {
        nonce,
        salt,
        kind,
        symmetric,
        hash,
    })
}

// The parameter with this number, a TPM2B of at most so many bytes.
fn read_within<'a>(r: &mut Reader<'a>, number: u32, most: usize) -> Result<&'a [u8], u32>
    requires { number ≤ 7 }
    ensures { TookValue (λ bytes. bytes.now) result r.new (in_parameter number
        (require (λ bytes. nat_le (length bytes) most) RC_SIZE (sized RC_INSUFFICIENT r.old))) }
{
    let bytes = r.tpm2b().ok_or(in_parameter(number, RC_INSUFFICIENT))?;
    if bytes.len() > most {
        return Err(in_parameter(number, RC_SIZE));
    }
    Ok(bytes)
}

// The response code of the first fault of what was read.
fn start_parameters_fault(b: &StartParameters) -> Option<u32>
    ensures { result ≡ start_parameters_fault (shown b.now) }
{
    if b.nonce.len() < 16 || b.nonce.len() > 32 {
        return Some(RC_SIZE + RC_P + RC_1);
    }
    if !b.salt.is_empty() {
        return Some(RC_VALUE + RC_P + RC_1 * 2);
    }
    if !is_kind_number(b.kind) {
        return Some(RC_VALUE + RC_P + RC_1 * 3);
    }
    if b.symmetric != ALG_NULL {
        return Some(RC_VALUE + RC_P + RC_1 * 4);
    }
    if b.hash != ALG_SHA256 {
        return Some(RC_HASH + RC_P + RC_1 * 5);
    }
    None
}

// Whether a session may have this type (Part 2, "TPM_SE").
fn is_kind_number(number: u8) -> bool
    ensures { result ≡ sessions.is_kind_number number }
{
    number == 0 || number == 1 || number == 3
}

fn kind_of(number: u8) -> SessionKind
    ensures { result ≡ sessions.kind_of number }
{
    match number {
        0 => SessionKind::Hmac,
        1 => SessionKind::Policy,
        _ => SessionKind::Trial,
    }
}

// Draws a nonceTPM of so many bytes. The error is the response code of the draw, and changes
// nothing.
pub(crate) fn draw_nonce(p: &mut Persist, size: usize) -> Result<SmallBytes<32>, u32>
    requires { size ≤ 32 }
    ensures drawn { MatchResult result
        (λ nonce. drawn p.old size ≡ Ok (nonce, p.new))
        (λ code. (drawn p.old size ≡ Err code) × (p.new ≡ p.old)) }
    ensures size { IfOk result (λ nonce. length nonce ≡ size) }
{
    let mut bytes = [0; 32];
    draw(p, &mut bytes[..size])?;
    Ok(SmallBytes::of(&bytes[..size]).unwrap())
}
