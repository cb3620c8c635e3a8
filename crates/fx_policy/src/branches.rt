ghost use Rattle.std.specs.Prelude.{◌≡◌, ◌==◌, ◌<◌, ◌≤◌, length, IfErr, IfOk};
ghost use Rattle.effect_spec.specs.Policies.{policy_or_row, branches_of, digests_of};
ghost use Rattle.effect_spec.specs.Rows.{Changes};
ghost use Rattle.tab_spec.specs.Values.{require, sized};
ghost use Rattle.tab_spec.specs.declared.TheConstants.{RC_INSUFFICIENT, RC_SIZE};
ghost use Rattle.tab_values.specs.Views.{TookValue, session_of};
ghost use Rattle.fx_policy.specs.Views.{TookBranches};

use crate::digest::{extended_digest, is_trial};
use tab_bytes::Reader;
use tab_spec::{CC_POLICY_OR, RC_INSUFFICIENT, RC_SIZE, RC_VALUE};
use tab_values::{Parameters, Session, SmallBytes, in_parameter};

// The digests of a list, one after the other, and whether the session's is among them.
#[derive(Drop)]
struct Branches {
    joined: SmallBytes<256>,
    found: bool,
}

/// PolicyOR (Part 3, "TPM2_PolicyOR"): the session's digest is one of two to eight, and becomes
/// that of their list. It has no response parameters. An error is the response code of the first
/// fault of the parameters, VALUE where the session's digest isn't among them, and changes nothing.
pub fn policy_or(s: &mut Session, params: &[u8]) -> Result<(), u32>
    ensures { Changes result (policy_or_row (session_of s.old) params.now)
        (session_of s.old) (session_of s.new) }
{
    let mut given = Parameters::new(params);
    let mut reader = given.reader();
    let branches = read_branches(&mut reader, &s.digest);
    let branches = given.close(reader, branches)?;
    given.end()?;
    if !is_trial(s) && !branches.found {
        return Err(in_parameter(1, RC_VALUE));
    }
    s.digest = extended_digest(&[0; 32], CC_POLICY_OR, branches.joined.as_slice());
    Ok(())
}

// A list of two to eight digests (Part 2, "TPML_DIGEST"), among which this one is looked for.
fn read_branches(r: &mut Reader, digest: &[u8; 32]) -> Result<Branches, u32>
    ensures took { TookBranches digest.now result r.new (branches_of r.old) }
    ensures bare { IfErr result (λ code. code < 256) }
{
    let count = r.take_u32().ok_or(RC_INSUFFICIENT)?;
    if count < 2 || count > 8 {
        return Err(RC_SIZE);
    }
    read_digests(r, count, digest)
}

fn read_digests(r: &mut Reader, count: u32, digest: &[u8; 32]) -> Result<Branches, u32>
    requires { count ≤ 8 }
    ensures took { TookBranches digest.now result r.new (digests_of count r.old) }
    ensures bare { IfErr result (λ code. code < 256) }
{
    let mut joined = SmallBytes::new();
    let mut found = false;
    for _ in 0..count {
        let branch = read_digest(r)?;
        joined.add(branch);
        let same = branch == digest.as_slice();
        found = found || same;
    }
    Ok(Branches { joined, found })
}

// One digest.
fn read_digest<'a>(r: &mut Reader<'a>) -> Result<&'a [u8], u32>
    ensures took { TookValue (λ branch. branch.now) result r.new
        (require (λ digest. length digest == 32) RC_SIZE (sized RC_INSUFFICIENT r.old)) }
    ensures size { IfOk result (λ branch. length branch.now ≡ 32) }
    ensures bare { IfErr result (λ code. code < 256) }
{
    let branch = r.tpm2b().ok_or(RC_INSUFFICIENT)?;
    if branch.len() != 32 {
        return Err(RC_SIZE);
    }
    Ok(branch)
}
