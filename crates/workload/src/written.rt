// What was written, for contracts alone.
ghost use Rattle.std.specs.Prelude.{◌≡◌, ◌++◌, List, [], ℕ};
ghost use Rattle.std.specs.Borrow.{ftrue};

use std::marker::Model;

// The bytes that were written so far. It has no bytes of its own, and its calls do nothing when
// they run.
#[derive(Drop)]
pub(crate) struct Written {
    pub ghost bytes: { List ℕ },
}

impl Model for Written {
    ghost also_owns = { λ _. ftrue };
}

impl Written {
    pub(crate) fn new() -> Written
        ensures { result.bytes ≡ [] }
    {
        Written {}
    }

    // What was written before, and more.
    pub(crate) fn with(_before: &Written, _more: &[u8]) -> Written
        ensures { result.bytes ≡ _before.now.bytes ++ _more.now }
    {
        Written {}
    }
}
