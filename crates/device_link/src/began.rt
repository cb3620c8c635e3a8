// What contracts know of a link from its start on.
use std::marker::Brand;

/// What the two ends of a link told when it was made, for contracts alone: a call that passes
/// `Brand` picks it. Where nothing is picked, nothing is known of the link's start.
pub trait Began {
    ghost use Rattle.std.specs.Prelude.{Option};
    ghost use Rattle.device_link.specs.Link.{DeviceEnds};

    ghost began: { Option DeviceEnds };
}

impl Began for Brand {
    ghost use Rattle.std.specs.Prelude.{None};

    ghost began = { None };
}
