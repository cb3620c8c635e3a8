ghost use Rattle.std.specs.Prelude.{◌≡◌, ◌<◌, ℕ, List, Option, map, set, true, None, Some};
ghost use Rattle.tab_spec.specs.declared.TheConstants.{SESSION_NUMBERS};
ghost use Rattle.tab_spec.specs.Admission.{is_session_handle};
ghost use Rattle.tab_spec.specs.Session.{Session};
ghost use Rattle.tab_spec.specs.Shape.{number_of_session, octet_of};
ghost use Rattle.device_spec.specs.Slots.{SlotState, IsSlots, inactive, loaded};
ghost use Rattle.session_swap.specs.Items.{AreAlike, Item, Names, SessionsStand, SessionsView};
ghost use Rattle.session_swap.specs.Items.{disowned, item_at, item_session, left_behind};
ghost use Rattle.session_swap.specs.Items.{new_item, place_at};

/// Sessions still stand after changes from elsewhere: a client's command may change a loaded
/// session, start one, or end a loaded one, and a session may be left by its client or become an
/// orphan.
pub fn sessions_stand_on()
    ensures changed { (slots new : SlotState) (view : SessionsView) (others : List ℕ)
        → SessionsStand slots view others → new.started ≡ true → IsSlots new
        → new.counter ≡ slots.counter → new.persist.seed ≡ slots.persist.seed
        → new.numbers ≡ slots.numbers
        → ((number : ℕ) → AreAlike (place_at slots number) (place_at new number))
        → SessionsStand new view others }
    ensures begun { (slots new : SlotState) (view : SessionsView) (others : List ℕ)
        (client handle : ℕ) (s : Session)
        → SessionsStand slots view others → new.started ≡ true → IsSlots new
        → new.counter ≡ slots.counter → new.persist.seed ≡ slots.persist.seed
        → new.numbers ≡ slots.numbers → item_at view.items (number_of_session handle) ≡ None
        → is_session_handle handle ≡ true
        → number_of_session handle < SESSION_NUMBERS
        → place_at slots (number_of_session handle) ≡ inactive
        → new.sessions ≡ set slots.sessions (number_of_session handle) (loaded (octet_of handle) s)
        → SessionsStand new (record view {
          items = set view.items (number_of_session handle) (Some (new_item client handle));
        }) others }
    ensures ended { (slots new : SlotState) (view : SessionsView) (others : List ℕ) (handle : ℕ)
        → SessionsStand slots view others → new.started ≡ true → IsSlots new
        → new.counter ≡ slots.counter → new.persist.seed ≡ slots.persist.seed
        → new.numbers ≡ slots.numbers → Names view.items handle
        → new.sessions ≡ set slots.sessions (number_of_session handle) inactive
        → SessionsStand new (record view
        { items = set view.items (number_of_session handle) None }) others }
    ensures disowned { (slots : SlotState) (view : SessionsView) (left others : List ℕ)
        (handle : ℕ) → SessionsStand slots view others → Names view.items handle
        → SessionsStand slots (record view {
          items = set view.items (number_of_session handle)
              (disowned (item_at view.items (number_of_session handle)));
          left = left;
        }) others }
    ensures stays { (slots : SlotState) (items : List (Option Item)) (number : ℕ)
        → map (item_session slots) (set items number (disowned (item_at items number)))
        ≡ map (item_session slots) items }
    ensures left { (slots : SlotState) (view : SessionsView) (left others : List ℕ)
        (handle : ℕ) → SessionsStand slots view others → Names view.items handle
        → SessionsStand slots (record view {
          items = set view.items (number_of_session handle)
              (left_behind (item_at view.items (number_of_session handle)));
          left = left;
        }) others }
    ensures left_stays { (slots : SlotState) (items : List (Option Item)) (number : ℕ)
        → map (item_session slots) (set items number (left_behind (item_at items number)))
        ≡ map (item_session slots) items }
{}
