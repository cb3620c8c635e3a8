//! Values that contracts alone see, as a list that grows: they take no bytes, and their calls do
//! nothing when they run.
#![tactic(auto)]

ghost use Rattle.std.specs.Prelude.{◌≡◌};

use std::snapshot::Snapshot;

/// What becomes of a value that contracts alone see, by something that was there when it changed.
pub trait Grows<A> {
    ghost with: { Self → A → Self };
}

/// The value changes, by what `about` shows.
pub fn grow<A, T: Grows<A>>(of: &mut Snapshot<T>, about: &A)
    ensures { of.new.value ≡ T.with of.old.value about.now }
{
    change(of, about);
}

// The change itself, whose proof is written out: no other code sets such a value.
fn change<A, T: Grows<A>>(of: &mut Snapshot<T>, about: &A)
    ensures { of.new.value ≡ T.with of.old.value about.now }
{
    let _ = about;
}
