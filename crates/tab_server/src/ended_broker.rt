// A broker whose clients are all closed.
ghost use Rattle.std.specs.Prelude.{◌≡◌, []};
ghost use Rattle.history_spec.specs.Entry.{clients_of};
ghost use Rattle.broker_lock.specs.Known.{origin_of};
ghost use Rattle.tab_server.specs.Run.{IsEnded};

use audit_journal::Journal;
use broker_core::Broker;
use device_port::Device;

// Ends a broker whose clients are all closed. It returns the device, the journal, and the code of a
// wrong answer, if one came.
pub(crate) fn end_broker<D: Device>(broker: Broker<D>) -> (D, Journal, Option<u64>)
    requires closed { (clients_of broker.journal).present ≡ [] }
    ensures journal { result.1.entries ≡ broker.journal }
    ensures limit { result.1.limit ≡ broker.limit }
    ensures ended { IsEnded D.CONTEXTS
        (origin_of (D.seen broker.device).base broker.held.sessions.numbers) broker.began
        (D.seen result.0) result.2 result.1.entries }
    ensures wrong { result.2 ≡ broker.wrong_code }
{
    let wrong = broker.wrong_answer();
    let (device, journal) = broker.finish();
    (device, journal, wrong)
}
