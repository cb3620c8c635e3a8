ghost use Rattle.std.specs.Prelude.{◌≡◌, ℕ, true, false, List, ◌∷◌, length};
ghost use Rattle.device_spec.specs.declared.TheConstants.{PT_ACTIVE_SESSIONS_MAX};
ghost use Rattle.device_spec.specs.declared.TheConstants.{PT_CONTEXT_GAP_MAX, PT_HR_LOADED_MIN};
ghost use Rattle.device_spec.specs.declared.TheConstants.{PT_HR_TRANSIENT_MIN};
ghost use Rattle.device_spec.specs.Numbers.{FitWords};
ghost use Rattle.device_spec.specs.Remains.{object_handles, remains, session_handles};
ghost use Rattle.device_spec.specs.Slots.{SlotState, IsSlots, held};
ghost use Rattle.device_laws.specs.Remains.{IsFlushed, IsListed, IsPropertyTold};

/// A started device lists the handles of its objects, of its loaded sessions and of its saved ones,
/// each list whole, and is as it was (Part 3, "TPM2_GetCapability").
pub fn remains_are_listed()
    ensures objects { (slots : SlotState) → IsSlots slots → slots.started ≡ true
        → IsListed slots 0x80000000 (object_handles slots) }
    ensures loaded { (slots : SlotState) → IsSlots slots → slots.started ≡ true
        → IsListed slots 0x02000000 (session_handles true slots) }
    ensures saved { (slots : SlotState) → IsSlots slots → slots.started ≡ true
        → IsListed slots 0x03000000 (session_handles false slots) }
{}

/// A started device reports each of its numbers alone, and is as it was (Part 3,
/// "TPM2_GetCapability").
pub fn numbers_are_told()
    ensures slots { (slots : SlotState) → slots.started ≡ true → FitWords slots.numbers
        → IsPropertyTold slots PT_HR_TRANSIENT_MIN slots.numbers.slots }
    ensures loaded { (slots : SlotState) → slots.started ≡ true → FitWords slots.numbers
        → IsPropertyTold slots PT_HR_LOADED_MIN slots.numbers.loaded }
    ensures active { (slots : SlotState) → slots.started ≡ true → FitWords slots.numbers
        → IsPropertyTold slots PT_ACTIVE_SESSIONS_MAX slots.numbers.active }
    ensures gap { (slots : SlotState) → slots.started ≡ true → FitWords slots.numbers
        → IsPropertyTold slots PT_CONTEXT_GAP_MAX slots.numbers.gap }
{}

/// A started device flushes the first thing that it lists, and keeps the others (Part 3,
/// "TPM2_FlushContext"). It lists as many as it holds.
pub fn remains_are_flushed()
    ensures first { (slots : SlotState) (handle : ℕ) (rest : List ℕ) → IsSlots slots
        → slots.started ≡ true → remains slots ≡ handle ∷ rest → IsFlushed slots handle rest }
    ensures count { (slots : SlotState) → held slots ≡ length (remains slots) }
{}
