ghost use Rattle.std.specs.Prelude.{◌≡◌, ◌<◌, ◌≤◌, ℕ, length, take, OnOk, OnErr};
ghost use Rattle.tab_spec.specs.Count.{Rose};
ghost use Rattle.link_port.specs.Port.{with_more};

use crate::{Failed, Sink};

/// Writes all of these bytes. After `Failed`, which comes only where the sink's count rose, the
/// first of them were written and the others, one at least, weren't, and nothing is tried again.
/// After `Ok` the count is what it was.
#[tactic(auto, using(crate::proofs::Fronts::more_written, std::proofs::lemmas::List::take_rest))]
pub fn push_all<K: Sink>(sink: &mut K, bytes: &[u8]) -> Result<(), Failed>
    ensures ok { OnOk result (K.written sink.new ≡ with_more (K.written sink.old) bytes.now) }
    ensures err { OnErr result ((k : ℕ) × (k < length bytes.now)
        × (K.written sink.new ≡ with_more (K.written sink.old) (take k bytes.now))) }
    ensures goes_on { K.ended sink.new ≡ K.ended sink.old }
    ensures quiet { OnOk result (K.faults sink.new ≡ K.faults sink.old) }
    ensures fault { OnErr result (Rose (K.faults sink.old) (K.faults sink.new)) }
    ensures count { K.faults sink.old ≤ K.faults sink.new }
{
    let mut rest = bytes;
    while !rest.is_empty() {
        let taken = sink.push(rest)?;
        rest = &rest[taken..];
    }
    Ok(())
}
