ghost use Rattle.std.specs.Prelude.{◌≡◌, ◌≤◌, ◌++◌, length};
ghost use Rattle.effect_spec.specs.Policies.{policy_pcr_row, pcr_policed, with_pcrs};
ghost use Rattle.effect_spec.specs.Rows.{Changes};
ghost use Rattle.tab_spec.specs.Values.{selection_bytes};
ghost use Rattle.tab_values.specs.Views.{session_of, selection_of};

use crate::digest::{extended_digest, is_trial};
use tab_spec::{CC_POLICY_PCR, RC_PCR_CHANGED, RC_VALUE};
use tab_values::{
    Parameters, PcrSelection, Persist, Session, SmallBytes, in_parameter, is_set_to_another,
    selected_digest, selection_octets,
};

/// PolicyPCR (Part 3, "TPM2_PolicyPCR"): the selected PCRs have the values whose hash is given; an
/// empty one stands for the hash of those that they have. It has no response parameters. An error
/// is the response code of the first fault: of the parameters, PCR_CHANGED where a PCR was updated
/// since the session's last PolicyPCR, VALUE where the hash is another; and changes nothing.
pub fn policy_pcr(p: &Persist, s: &mut Session, params: &[u8]) -> Result<(), u32>
    ensures { Changes result (policy_pcr_row p.now (session_of s.old) params.now)
        (session_of s.old) (session_of s.new) }
{
    let mut given = Parameters::new(params);
    let digest = given.digest()?;
    let selection = given.selection()?;
    given.end()?;
    if is_set_to_another(s.pcr_updates, p.updates()) {
        return Err(RC_PCR_CHANGED);
    }
    check_and_extend(p, s, digest, selection)
}

// Tests the digest that is given, and extends the session's.
fn check_and_extend(
    p: &Persist,
    s: &mut Session,
    given: &[u8],
    selection: PcrSelection,
) -> Result<(), u32>
    requires { length given.now ≤ 32 }
    ensures { Changes result
        (pcr_policed p.now (session_of s.old) given.now (selection_of selection))
        (session_of s.old) (session_of s.new) }
{
    let present = selected_digest(p, selection);
    if given.is_empty() {
        extend_by_pcrs(p, s, selection, &present);
        return Ok(());
    }
    if !is_trial(s) && given != present.as_slice() {
        return Err(in_parameter(1, RC_VALUE));
    }
    extend_by_pcrs(p, s, selection, given);
    Ok(())
}

// The session asks for these PCRs from now on, and that none is updated until it is used.
fn extend_by_pcrs(p: &Persist, s: &mut Session, selection: PcrSelection, digest: &[u8])
    requires { length digest.now ≤ 32 }
    ensures { session_of s.new
        ≡ with_pcrs p.now (session_of s.old) (selection_of selection) digest.now }
{
    s.digest = extended_digest(
        &s.digest,
        CC_POLICY_PCR,
        selection_and_digest(selection, digest).as_slice(),
    );
    if is_trial(s) {
        return;
    }
    s.pcr_updates = Some(p.updates());
}

// A selection (Part 2, "TPML_PCR_SELECTION") and a digest, as bytes.
fn selection_and_digest(selection: PcrSelection, digest: &[u8]) -> SmallBytes<42>
    requires { length digest.now ≤ 32 }
    ensures { result ≡ selection_bytes (selection_of selection) ++ digest.now }
{
    let mut all = SmallBytes::new();
    all.add(selection_octets(&selection).as_slice());
    all.add(digest);
    all
}
