ghost use Rattle.std.specs.Prelude.{◌≡◌, ◌+◌, ◌==◌, ℕ, Bool, true, false, cond, List, Option, Some};
ghost use Rattle.std.specs.Prelude.{None, is_some, get_or, map};
ghost use Rattle.std.specs.List.{AllByRecursion, count_by};
ghost use Rattle.tab_spec.specs.declared.TheConstants.{TRANSIENT_FIRST};
ghost use Rattle.tab_spec.specs.Object.{Object};
ghost use Rattle.history_spec.specs.Table.{count_held, handle_from, held_under, is_full};
ghost use Rattle.history_spec.specs.Table.{least_free, next_handle, number_of_object, put_least};
ghost use Rattle.history_spec.specs.Table.{without_handle};

/// A table of numbers, and the table of objects that it stands for, place by place. Under a handle
/// stands what the number there stands for. Where the same places are taken in both, as many are,
/// and the next one gets the same handle. One more in the first table is one more in the second,
/// and one less is one less, also where what the others stand for is told by another function
/// afterwards.
pub fn places_are_seen_through()
    ensures held { (f : Option ℕ → Option Object) (places : List (Option ℕ)) (handle : ℕ)
        → f None ≡ None → held_under (map f places) handle ≡ f (held_under places handle) }
    ensures count { (f : Option ℕ → Option Object) (places : List (Option ℕ))
        → AllByRecursion (λ (place : Option ℕ). is_some (f place) ≡ is_some place) places
        → count_held (map f places) ≡ count_held places }
    ensures full { (f : Option ℕ → Option Object) (places : List (Option ℕ))
        → AllByRecursion (λ (place : Option ℕ). is_some (f place) ≡ is_some place) places
        → is_full (map f places) ≡ is_full places }
    ensures least { (f : Option ℕ → Option Object) (places : List (Option ℕ))
        → AllByRecursion (λ (place : Option ℕ). is_some (f place) ≡ is_some place) places
        → least_free (map f places) ≡ least_free places }
    ensures next { (f : Option ℕ → Option Object) (places : List (Option ℕ))
        → AllByRecursion (λ (place : Option ℕ). is_some (f place) ≡ is_some place) places
        → next_handle (map f places) ≡ next_handle places }
    ensures put { (f g : Option ℕ → Option Object) (x : ℕ) (y : Object) (places : List (Option ℕ))
        → AllByRecursion (λ (place : Option ℕ). g place ≡ f place) places
        → AllByRecursion (λ (place : Option ℕ). is_some (f place) ≡ is_some place) places
        → g (Some x) ≡ Some y → map g (put_least x places) ≡ put_least y (map f places) }
    ensures without { (f g : Option ℕ → Option Object) (places : List (Option ℕ)) (handle : ℕ)
        → f None ≡ None → g None ≡ None → is_some (held_under places handle) ≡ true
        → is_some (f (held_under places handle)) ≡ true
        → ((i : ℕ) → (i == number_of_object handle) ≡ false
        → g (get_or places i None) ≡ f (get_or places i None))
        → map g (without_handle places handle) ≡ without_handle (map f places) handle }
{}

/// One more in a table adds to a count what it counts itself, and one less takes that from it. A
/// test that each place passes is passed by each with one more and with one less, and by what
/// stands under a handle or a number. Two functions that agree on each place make one table of it.
/// The least handle stands for something, and where there is none, the table is empty.
pub fn places_are_counted()
    ensures put { (p : Option ℕ → Bool) (x : ℕ) (places : List (Option ℕ)) → p None ≡ false
        → count_by p (put_least x places) ≡ count_by p places + cond (p (Some x)) 1 0 }
    ensures put_count { (x : ℕ) (places : List (Option ℕ))
        → count_held (put_least x places) ≡ count_held places + 1 }
    ensures without { (p : Option ℕ → Bool) (places : List (Option ℕ)) (handle : ℕ) → p None ≡ false
        → is_some (held_under places handle) ≡ true
        → count_by p (without_handle places handle) + cond (p (held_under places handle)) 1 0
        ≡ count_by p places }
    ensures without_count { (places : List (Option ℕ)) (handle : ℕ)
        → is_some (held_under places handle) ≡ true
        → count_held (without_handle places handle) + 1 ≡ count_held places }
    ensures put_all { (p : Option ℕ → Bool) (x : ℕ) (places : List (Option ℕ))
        → AllByRecursion (λ (place : Option ℕ). p place ≡ true) places → p (Some x) ≡ true
        → AllByRecursion (λ (place : Option ℕ). p place ≡ true) (put_least x places) }
    ensures without_all { (p : Option ℕ → Bool) (places : List (Option ℕ)) (handle : ℕ)
        → AllByRecursion (λ (place : Option ℕ). p place ≡ true) places → p None ≡ true
        → AllByRecursion (λ (place : Option ℕ). p place ≡ true) (without_handle places handle) }
    ensures held_all { (p : Option ℕ → Bool) (places : List (Option ℕ)) (handle : ℕ)
        → AllByRecursion (λ (place : Option ℕ). p place ≡ true) places → p None ≡ true
        → p (held_under places handle) ≡ true }
    ensures at_all { (p : Option ℕ → Bool) (places : List (Option ℕ))
        → AllByRecursion (λ (place : Option ℕ). p place ≡ true) places → p None ≡ true → (i : ℕ)
        → p (get_or places i None) ≡ true }
    ensures mapped { (f g : Option ℕ → Option Object) (places : List (Option ℕ))
        → AllByRecursion (λ (place : Option ℕ). g place ≡ f place) places
        → map g places ≡ map f places }
    ensures from { (places : List (Option ℕ)) (handle : ℕ)
        → handle_from places TRANSIENT_FIRST ≡ Some handle
        → is_some (held_under places handle) ≡ true }
    ensures none_from { (places : List (Option ℕ)) → handle_from places TRANSIENT_FIRST ≡ None
        → count_held places ≡ 0 }
{}
