ghost use Rattle.std.specs.Prelude.{◌≡◌, ◌<◌, ◌++◌, ◌∷◌, [], ℕ, List, Some, None};
ghost use Rattle.std.specs.Prelude.{length, map, set, get_or, true};
ghost use Rattle.device_spec.specs.Slots.{SlotState};
ghost use Rattle.object_swap.specs.Items.{Item, ObjectsStand, is_vacant, item_at};
ghost use Rattle.object_swap.specs.Items.{item_object, new_item, no_item};

/// An object in a slot that has no owner yet may become an item, in place of a vacant one. The
/// objects of the other items stay, and that of the new one is what the slot holds.
pub fn adopted_objects_stand()
    ensures stand { (slots : SlotState) (items : List Item)
        (index client slot : ℕ) (others : List ℕ)
        → ObjectsStand slots items (slot ∷ others) → index < length items
        → is_vacant (item_at items index) ≡ true
        → ObjectsStand slots (set items index (new_item client slot)) others }
    ensures objects { (slots : SlotState) (items : List Item) (index client slot : ℕ)
        → map (item_object slots) (set items index (new_item client slot))
        ≡ set (map (item_object slots) items) index (get_or slots.slots slot None) }
{}

/// An object that becomes an orphan leaves its record, and its slot is an orphan's then. The
/// objects of the other items stay.
pub fn orphaned_objects_stand()
    ensures stand { (slots : SlotState) (items : List Item) (index slot : ℕ) (others : List ℕ)
        → ObjectsStand slots items others → index < length items
        → (item_at items index).slot ≡ Some slot
        → ObjectsStand slots (set items index no_item) (slot ∷ others) }
    ensures objects { (slots : SlotState) (items : List Item) (index : ℕ)
        → map (item_object slots) (set items index no_item)
        ≡ set (map (item_object slots) items) index None }
    // The order of the orphans' slots doesn't count.
    ensures last { (slots : SlotState) (items : List Item) (slot : ℕ) (others : List ℕ)
        → ObjectsStand slots items (slot ∷ others)
        → ObjectsStand slots items (others ++ slot ∷ []) }
{}
