ghost use Rattle.std.specs.Prelude.{◌≡◌, ◌∷◌, ◌<◌, ◌≤◌, ◌+◌, ◌^◌, MatchOption, if◌then◌else◌};
ghost use Rattle.std.specs.Int.{w32, to_be_bytes};
ghost use Rattle.tab_spec.specs.Commands.{all_commands};
ghost use Rattle.effect_spec.specs.Capabilities.{command_attributes, command_items};

use crate::listing::{Item, Listing};
use tab_spec::{CC_POLICY_PASSWORD, CommandRow};
use tab_values::SmallBytes;
use tab_wire::{handle_count, row_of};

// The attributes of a command other than its code (Part 2, "TPMA_CC"): how many handles it has,
// and whether its response has one.
const ONE_HANDLE: u32 = 1 << 25;

const RESPONSE_HANDLE: u32 = 1 << 28;

// The number after the greatest command code.
const CODES_END: u32 = CC_POLICY_PASSWORD + 1;

/// The attributes of the commands, by their codes.
#[derive(Drop)]
pub(crate) struct Commands;

impl Listing for Commands {
    ghost items = { λ c least. command_items all_commands least };

    fn item_from(&self, least: u64) -> Option<Item> {
        for code in least..u64::from(CODES_END) {
            if let Some(item) = item_of(code as u32) {
                return Some(item);
            }
        }
        None
    }
}

// The command with this code, where the profile has it.
fn item_of(code: u32) -> Option<Item>
    requires { code < CODES_END }
    ensures { MatchOption result
        (command_items all_commands code ≡ command_items all_commands (code + 1))
        (λ item. command_items all_commands code
        ≡ item.bytes ∷ command_items all_commands (item.key + 1)) }
{
    match row_of(code) {
        Some(row) => Some(command_item(&row)),
        None => None,
    }
}

// A command by its code, with its attributes.
fn command_item(row: &CommandRow) -> Item
    requires { row.now.code < CODES_END }
    ensures key { result.key ≡ row.now.code }
    ensures bytes { result.bytes ≡ to_be_bytes w32 (command_attributes row.now) }
{
    let handles = ONE_HANDLE * u32::from(handle_count(row));
    let attributes = row.code + handles + response_attribute(row.response_handle);
    Item {
        key: row.code,
        bytes: SmallBytes::of(&attributes.to_be_bytes()).unwrap(),
    }
}

// The attribute of a response that has a handle.
fn response_attribute(response_handle: bool) -> u32
    ensures value { result ≡ (if response_handle then 2 ^ 28 else 0) }
    ensures most { result ≤ 2 ^ 28 }
{
    if response_handle { RESPONSE_HANDLE } else { 0 }
}
