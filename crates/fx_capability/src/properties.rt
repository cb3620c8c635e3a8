ghost use Rattle.std.specs.Prelude.{◌≡◌, ◌++◌, length};
ghost use Rattle.std.specs.Int.{w32, to_be_bytes};
ghost use Rattle.std.specs.List.{count_by};
ghost use Rattle.effect_spec.specs.Capabilities.{Listed, property_items, property_pairs};
ghost use Rattle.fx_capability.specs.Views.{limits_of};

use crate::holdings::Holdings;
use crate::limits::Limits;
use crate::listing::{Item, Listing, pair_from};
use tab_spec::{MOST_BYTES, PCRS, SESSION_NUMBERS};
use tab_values::SmallBytes;

// The properties that there are (Part 2, "TPM_PT").
const PT_HR_TRANSIENT_MIN: u32 = 0x10e;

const PT_HR_LOADED_MIN: u32 = 0x110;

const PT_ACTIVE_SESSIONS_MAX: u32 = 0x111;

const PT_PCR_COUNT: u32 = 0x112;

const PT_CONTEXT_GAP_MAX: u32 = 0x114;

const PT_MAX_COMMAND_SIZE: u32 = 0x11e;

const PT_MAX_RESPONSE_SIZE: u32 = 0x11f;

const PT_HR_LOADED: u32 = 0x203;

const PT_HR_LOADED_AVAIL: u32 = 0x204;

const PT_HR_ACTIVE: u32 = 0x205;

const PT_HR_ACTIVE_AVAIL: u32 = 0x206;

const PT_HR_TRANSIENT_AVAIL: u32 = 0x207;

/// The properties with their values, of a caller with these limits and holdings.
#[derive(Drop)]
pub(crate) struct Properties<'a, H> {
    pub limits: &'a Limits,
    pub held: &'a H,
    /// How many sessions are active over all callers.
    pub active: u32,
}

impl<'a, H: Holdings> Listing for Properties<'a, H> {
    ghost items = { λ s least. property_items
        (property_pairs (limits_of s.limits.now)
        (H.objects s.held.now) (H.sessions s.held.now) s.active)
        least };

    fn item_from(&self, least: u64) -> Option<Item> {
        let pairs = pairs_of(self.limits, self.held, self.active);
        match pair_from(&pairs, least) {
            Some(pair) => Some(pair_item(pair.0, pair.1)),
            None => None,
        }
    }
}

// A property and its value.
fn pair_item(property: u32, value: u32) -> Item
    ensures key { result.key ≡ property }
    ensures bytes { result.bytes ≡ to_be_bytes w32 property ++ to_be_bytes w32 value }
{
    let mut bytes = SmallBytes::new();
    bytes.add(&property.to_be_bytes());
    bytes.add(&value.to_be_bytes());
    Item {
        key: property,
        bytes,
    }
}

// Each property and its value.
fn pairs_of<H: Holdings>(limits: &Limits, held: &H, active: u32) -> [(u32, u32); 12]
    ensures { result
        ≡ property_pairs (limits_of limits.now) (H.objects held.now) (H.sessions held.now) active }
{
    let (in_use, all) = count_sessions(held);
    let loaded = if limits.counts_active { active } else { in_use };
    let objects = limits.objects.saturating_sub(held.object_count());
    [
        (PT_HR_TRANSIENT_MIN, limits.objects),
        (PT_HR_LOADED_MIN, limits.loaded),
        (PT_ACTIVE_SESSIONS_MAX, limits.active),
        (PT_PCR_COUNT, PCRS),
        (PT_CONTEXT_GAP_MAX, limits.gap),
        (PT_MAX_COMMAND_SIZE, MOST_BYTES),
        (PT_MAX_RESPONSE_SIZE, MOST_BYTES),
        (PT_HR_LOADED, in_use),
        (PT_HR_LOADED_AVAIL, limits.loaded.saturating_sub(loaded)),
        (PT_HR_ACTIVE, all),
        (PT_HR_ACTIVE_AVAIL, limits.active.saturating_sub(active)),
        (PT_HR_TRANSIENT_AVAIL, objects),
    ]
}

// How many sessions are in use, and how many there are.
fn count_sessions<H: Holdings>(held: &H) -> (u32, u32)
    ensures in_use { result.0 ≡ count_by (λ (s : Listed). s.in_use) (H.sessions held.now) }
    ensures all { result.1 ≡ length (H.sessions held.now) }
{
    let mut in_use = 0;
    let mut all = 0;
    for number in 0..SESSION_NUMBERS {
        match held.session(number) {
            Some(session) => {
                all += 1;
                if session.in_use {
                    in_use += 1;
                }
            }
            None => {}
        }
    }
    (in_use, all)
}
