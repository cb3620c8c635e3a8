ghost use Rattle.std.specs.Prelude.{◌≡◌, ◌≤◌, ◌<◌, ◌==◌, List, [], ◌∷◌, ◌++◌, Bool, length, set};
ghost use Rattle.std.specs.Prelude.{get_or, false, vec_capacity};
ghost use Rattle.std.specs.List.{count_by, remove};
ghost use Rattle.tab_spec.specs.declared.contexts.ContextLimits.{ContextLimits};
ghost use Rattle.device_port.specs.Use.{used_after, without_one};
ghost use Rattle.object_swap.specs.Items.{Names, no_item};
ghost use Rattle.object_swap.specs.Records.{AreRecords, ListsFlags, items_of};

use crate::record::Record;

// The first place of an index that is listed.
fn place_of(indices: &[u32], index: u32) -> usize
    requires { 1 ≤ count_by (λ one. one == index) indices.now }
    ensures inside { result < length indices.now }
    ensures there { get_or indices.now result 0 ≡ index }
    ensures first { without_one index indices.now ≡ remove indices.now result }
{
    for (at, one) in indices.iter().enumerate() {
        if *one == index {
            return at;
        }
    }
    0
}

/// Adds an index at the end of a list.
pub fn list_last(indices: &mut Vec<u32>, index: u32)
    requires { length indices.old.items < vec_capacity indices.old }
    ensures last { indices.new.items ≡ indices.old.items ++ index ∷ [] }
    ensures capacity { vec_capacity indices.old ≤ vec_capacity indices.new }
{
    indices.push(index).unwrap();
}

/// Takes an index off a list of true flags.
pub fn unlist(indices: &mut Vec<u32>, index: u32)
    requires { 1 ≤ count_by (λ one. one == index) indices.old.items }
    ensures listed { (flags : List Bool) → ListsFlags flags indices.old.items
        → ListsFlags (set flags index false) indices.new.items }
    ensures order { indices.new.items ≡ without_one index indices.old.items }
    ensures capacity { vec_capacity indices.new ≡ vec_capacity indices.old }
{
    let at = place_of(indices, index);
    indices.remove(at);
}

/// Moves an index of a list to its end.
pub fn move_last(indices: &mut Vec<u32>, index: u32)
    requires { 1 ≤ count_by (λ one. one == index) indices.old.items }
    ensures listed { (flags : List Bool) → ListsFlags flags indices.old.items
        → ListsFlags flags indices.new.items }
    ensures order { indices.new.items ≡ used_after indices.old.items index }
    ensures capacity { vec_capacity indices.old ≤ vec_capacity indices.new }
{
    let at = place_of(indices, index);
    indices.remove(at);
    list_last(indices, index);
}

/// Makes the record of an object vacant, for another one.
pub fn forget(records: &mut Vec<Record>, item: u32)
    requires named { Names (items_of records.old.items) item }
    ensures items { items_of records.new.items ≡ set (items_of records.old.items) item no_item }
    ensures sound { (contexts : ContextLimits) → AreRecords contexts records.old.items
        → AreRecords contexts records.new.items }
    ensures count { length records.new.items ≡ length records.old.items }
{
    let record = &mut records[item as usize];
    record.client = None;
    record.handle = None;
    record.kept = false;
}
