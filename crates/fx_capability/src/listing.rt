ghost use Rattle.std.specs.Prelude.{◌≡◌, ◌+◌, ◌*◌, ◌≤◌, ℕ, List, [], ◌∷◌, ◌++◌, length, take, min};
ghost use Rattle.std.specs.Prelude.{nat_lt, nat_le, MatchOption};
ghost use Rattle.std.specs.List.{find};
ghost use Rattle.std.specs.Option.{option_map};
ghost use Rattle.effect_spec.specs.Capabilities.{joined_items, listed};
ghost use Rattle.effect_spec.specs.Rows.{HasResponseRoom};
ghost use Rattle.fx_capability.specs.Views.{asked_of};

use crate::asked::Asked;
use tab_bytes::Buffer;
use tab_values::SmallBytes;

// No list has more items (the project's own).
const MOST_ITEMS: u32 = 254;

/// The most bytes of a list: moreData, the capability, the count, and as many items of 8 bytes.
pub(crate) const MOST_LIST_BYTES: u32 = 9 + 8 * MOST_ITEMS;

/// An item of a list: what it is ordered by, and its bytes.
#[derive(Drop)]
pub(crate) struct Item {
    pub key: u32,
    pub bytes: SmallBytes<8>,
}

/// A list that is walked upwards by the keys of its items.
pub(crate) trait Listing {
    /// The bytes of each item whose key isn't below a number.
    ghost items: { Self → ℕ → List (List ℕ) };

    /// The first item whose key isn't below `least`.
    fn item_from(&self, least: u64) -> Option<Item>
        ensures { MatchOption result (items self.now least ≡ [])
            (λ item. items self.now least ≡ item.bytes ∷ items self.now (item.key + 1)) };
}

/// Appends a list: moreData, the capability, the count, and the items from `least` on, at most as
/// many as were asked for and at most 254. moreData is 1 where an item is left over.
pub(crate) fn put_list<L: Listing>(asked: &Asked, list: &L, least: u32, reply: &mut Buffer)
    requires room { HasResponseRoom reply.old }
    ensures put { reply.new ≡ reply.old ++ listed (asked_of asked.now) (L.items list.now least) }
    ensures most { length reply.new ≤ length reply.old + MOST_LIST_BYTES }
{
    let (count, more) = count_items(list, least, asked.count.min(MOST_ITEMS));
    reply.put_u8(u8::from(more)).unwrap();
    reply.put_u32(asked.capability).unwrap();
    reply.put_u32(count).unwrap();
    put_items(list, least, count, reply);
}

// How many items there are from `least` on, at most `most`; and whether there are more.
fn count_items<L: Listing>(list: &L, least: u32, most: u32) -> (u32, bool)
    ensures count { result.0 ≡ min most (length (L.items list.now least)) }
    ensures more { result.1 ≡ nat_lt most (length (L.items list.now least)) }
{
    let mut next = u64::from(least);
    for count in 0..most {
        match list.item_from(next) {
            Some(item) => next = u64::from(item.key) + 1,
            None => return (count, false),
        }
    }
    (most, list.item_from(next).is_some())
}

// Appends so many items from `least` on, or all where there are fewer.
fn put_items<L: Listing>(list: &L, least: u32, count: u32, reply: &mut Buffer)
    requires room { length reply.old + 8 * count ≤ 4096 }
    ensures put { reply.new ≡ reply.old ++ joined_items (take count (L.items list.now least)) }
    ensures most { length reply.new ≤ length reply.old + 8 * count }
{
    let mut next = u64::from(least);
    for _number in 0..count {
        let Some(item) = list.item_from(next) else {
            return;
        };
        reply.put_bytes(item.bytes.as_slice()).unwrap();
        next = u64::from(item.key) + 1;
    }
}

/// The first pair whose number isn't below `least`, of pairs by their first numbers.
pub(crate) fn pair_from(pairs: &[(u32, u32)], least: u64) -> Option<&(u32, u32)>
    ensures { option_map (λ pair. pair.now) result
        ≡ find (λ pair. nat_le least pair.0) pairs.now }
{
    pairs.iter().find(|pair| u64::from(pair.0) >= least)
}
