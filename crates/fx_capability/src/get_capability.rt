ghost use Rattle.std.specs.Prelude.{◌≡◌, ◌↔◌, ◌+◌, ◌≤◌, ◌++◌, [], true, false, length, OnOk};
ghost use Rattle.tab_spec.specs.Commands.{all_commands};
ghost use Rattle.effect_spec.specs.declared.TheConstants.{MOST_PARAMETER_BYTES};
ghost use Rattle.tab_spec.specs.Numbers.{profile_numbers};
ghost use Rattle.effect_spec.specs.Capabilities.{capability_of, client_limits, device_limits};
ghost use Rattle.effect_spec.specs.Capabilities.{is_own_list, is_of_device, list_of, pcr_list};
ghost use Rattle.effect_spec.specs.Rows.{HasResponseRoom, Appends};
ghost use Rattle.fx_capability.specs.declared.viewed.Viewed.TheVariants.{Device};
ghost use Rattle.fx_capability.specs.Views.{asked_of, limits_of};
ghost use Rattle.fx_capability.specs.Viewed.{AppendsWhere, IsViewed};

use crate::asked::{Asked, read_whole};
use crate::commands::Commands;
use crate::handles::{put_other_handles, put_own_handles};
use crate::holdings::Holdings;
use crate::limits::Limits;
use crate::listing::{MOST_LIST_BYTES, put_list};
use crate::properties::Properties;
use crate::viewed::Viewed;
use tab_bytes::Buffer;
use tab_spec::RC_VALUE;
use tab_values::{Persist, in_parameter};

// The capabilities that there are (Part 2, "TPM_CAP").
const CAP_HANDLES: u32 = 1;

const CAP_COMMANDS: u32 = 2;

const CAP_PCRS: u32 = 5;

const CAP_TPM_PROPERTIES: u32 = 6;

// moreData, CAP_PCRS, one selection: SHA256, and three bytes with every bit set.
const PCR_LIST: [u8; 15] = [0, 0, 0, 0, 5, 0, 0, 0, 1, 0, 0x0b, 3, 0xff, 0xff, 0xff];

/// GetCapability (Part 3, "TPM2_GetCapability"): appends moreData, the capability and its list.
/// `active` is how many sessions are active over all callers. An error is the response code of the
/// first fault, and appends nothing.
pub fn capability<H: Holdings>(
    limits: &Limits,
    p: &Persist,
    held: &H,
    active: u32,
    params: &[u8],
    reply: &mut Buffer,
) -> Result<(), u32>
    requires room { HasResponseRoom reply.old }
    ensures row { Appends result
        (capability_of (limits_of limits.now) all_commands p.now
        (H.objects held.now) (H.sessions held.now) active params.now)
        reply.old reply.new }
    ensures most { OnOk result (length reply.new ≤ length reply.old + MOST_PARAMETER_BYTES) }
{
    let asked = read_whole(params)?;
    if put_own(limits, held, active, &asked, reply) {
        return Ok(());
    }
    put_other(p, &asked, reply)
}

/// Answers GetCapability for a client from what it has: its objects, its sessions and its
/// properties. `active` is how many sessions clients have or left, and `most` how many of both
/// there may be. Any other list is the same for all, and the device's.
pub fn client_capability<H: Holdings>(
    held: &H,
    active: u32,
    most: u8,
    params: &[u8],
    reply: &mut Buffer,
) -> Viewed
    requires room { HasResponseRoom reply.old }
    ensures told { IsViewed result
        (λ persist. capability_of (client_limits most) all_commands persist
        (H.objects held.now) (H.sessions held.now) active params.now)
        reply.old reply.new }
    ensures device { (result ≡ Device) ↔ (is_of_device params.now ≡ true) }
    ensures most { length reply.new ≤ length reply.old + MOST_PARAMETER_BYTES }
{
    let asked = match read_whole(params) {
        Ok(asked) => asked,
        Err(code) => return Viewed::Refused(code),
    };
    if put_own(&Limits::of_a_client(most), held, active, &asked, reply) {
        return Viewed::Answered;
    }
    Viewed::Device
}

// Appends the list, where it tells of the caller's own. Whether it does.
fn put_own<H: Holdings>(
    limits: &Limits,
    held: &H,
    active: u32,
    asked: &Asked,
    reply: &mut Buffer,
) -> bool
    requires room { HasResponseRoom reply.old }
    ensures own { result ≡ is_own_list (asked_of asked.now) }
    ensures row { AppendsWhere result
        (λ persist. list_of (limits_of limits.now) all_commands persist
        (H.objects held.now) (H.sessions held.now) active (asked_of asked.now))
        reply.old reply.new }
    ensures most { length reply.new ≤ length reply.old + MOST_LIST_BYTES }
{
    match asked.capability {
        CAP_HANDLES => put_own_handles(asked, held, reply),
        CAP_TPM_PROPERTIES => {
            let properties = Properties {
                limits,
                held,
                active,
            };
            put_list(asked, &properties, asked.property, reply);
            true
        }
        _ => false,
    }
}

// Appends a list that is the same for all who ask.
fn put_other(p: &Persist, asked: &Asked, reply: &mut Buffer) -> Result<(), u32>
    requires room { HasResponseRoom reply.old }
    requires other { is_own_list (asked_of asked.now) ≡ false }
    ensures row { Appends result
        (list_of (device_limits profile_numbers) all_commands p.now [] [] 0 (asked_of asked.now))
        reply.old reply.new }
    ensures most { OnOk result (length reply.new ≤ length reply.old + MOST_LIST_BYTES) }
{
    match asked.capability {
        CAP_HANDLES => return put_other_handles(asked, p, reply),
        CAP_COMMANDS => put_list(asked, &Commands, asked.property, reply),
        CAP_PCRS => put_pcrs(reply),
        _ => return Err(in_parameter(1, RC_VALUE)),
    }
    Ok(())
}

// Appends the one bank of PCRs, with all of them (Part 2, "TPML_PCR_SELECTION").
fn put_pcrs(reply: &mut Buffer)
    requires room { HasResponseRoom reply.old }
    ensures put { reply.new ≡ reply.old ++ pcr_list 5 }
    ensures most { length reply.new ≤ length reply.old + 15 }
{
    reply.put_bytes(&PCR_LIST).unwrap();
}
