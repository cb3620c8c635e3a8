ghost use Rattle.std.specs.Prelude.{◌≡◌, ◌↔◌, ◌≤◌, ◌<◌, [], None, map, IfNone, IfSome, IsNone};
ghost use Rattle.std.specs.Option.{option_map};
ghost use Rattle.std.specs.String.{string_bytes};
ghost use Rattle.broker_core.specs.Broker.{IsAtBase, told_origin};
ghost use Rattle.link_pool.specs.Services.{IsServed, client_of, given_of};
ghost use Rattle.command_line.specs.Words.{IsServe, accepted};
ghost use Rattle.tab_server.specs.Status.{EndsStart};
ghost use Rattle.tab_server.specs.Done.{LeavesPlan};
ghost use Rattle.tab_server.specs.Run.{after_of, before_of};
ghost use Rattle.tab_server.specs.Serving.{IsLinkDone, LeavesPool, LeavesServe};

use crate::script::{Played, play};
use crate::serving::{LINKS_MOST, serve_plan};
use crate::status::REFUSED;
use accept_loop::LinkDone;
use audit_journal::Journal;
use command_line::read_words;
use device_port::Device;
use link_pool::Services;
use link_port::{Acceptor, Gate, Sink, Source};
use std::alloc::Global;
use std::snapshot::Snapshot;
use std::sync::Wait;
use std::thread::Threads;

/// The result of the program's words.
pub struct Ran<D: Device, A: Acceptor> {
    /// 2: the words were refused. `run` and `workload` end with the statuses of [`Played`]. `serve`
    /// ends with 6 if the device failed at its start, with 11 if one of the device's numbers is out
    /// of range, and else with the first of these that applies: 7, the device gave a wrong answer;
    /// 3, the acceptor failed; 4, the output failed; 5, memory lacked, before the first connection
    /// or for one of them; 0, none of these.
    pub status: u8,
    /// The code of the wrong answer at 7, the fault count of the acceptor, the output or the device
    /// at 3, 4 and 6, the property at 11, and 0 at 0, 2 and 5. For `run` and `workload` as in
    /// [`Played`].
    pub detail: u64,
    pub device: D,
    /// The broker's journal. `None` if the broker didn't begin.
    pub journal: Option<Journal>,
    /// The connections of `serve`, in the order in which they were accepted. Empty if more than 256
    /// are asked for.
    pub links: Vec<LinkDone<A::In, A::Out>>,
    /// The connections of `serve` if more than 256 are asked for. Only contracts see them.
    pub served: Snapshot<Services<A::In, A::Out>>,
}

/// All that the program does: it reads its words, and does what they say over this device,
/// acceptor, gate, input and output. `serve` uses the acceptor and the gate, and `run` the input.
/// `serve` has one broker with one journal for all connections. At most 256 connections are served
/// at once, each by a thread of its own if one can be made. At the end all clients are closed. Of
/// what they had, the device still holds only the sessions that they saved and left, at most eight,
/// and what couldn't be flushed.
pub fn tabrmd<
    D: Device + Send,
    A: Acceptor + Send,
    G: Gate,
    I: Source,
    O: Sink,
    R: Threads + Wait + Sync,
>(
    rt: &R,
    alloc: Global,
    words: &[String],
    device: D,
    acceptor: &mut A,
    gate: &G,
    input: &mut I,
    output: &mut O,
) -> Ran<D, A>
    // The device's history begins from what it keeps.
    requires at_base { IsAtBase (D.seen device).base (D.seen device).state }

    // Words that aren't taken are refused, and nothing else happens.
    ensures refused { (result.status ≡ 2) ↔ IsNone (accepted (map string_bytes words.now)) }
    ensures untouched { result.status ≡ 2
        → (result.detail ≡ 0) × (result.device ≡ device) × (result.journal ≡ None)
        × (result.links.items ≡ []) × (acceptor.new ≡ acceptor.old) × (input.new ≡ input.old)
        × (output.new ≡ output.old) }

    // `run` and `workload`: what the journal and the output are at each status. No connection is
    // accepted.
    ensures leaves { IfSome (accepted (map string_bytes words.now))
        (λ plan. (IsServe plan.job → ⊥) → LeavesPlan plan (record {
          contexts = D.CONTEXTS;
          base = told_origin (D.seen device).base (D.seen device).state;
          left = I.left input.old;
          written = O.written output.old;
          faults = record {
            device = (D.seen device).faults;
            input = I.faults input.old;
            output = O.faults output.old;
          };
        }) (record {
          seen = D.seen result.device;
          left = I.left input.new;
          written = O.written output.new;
          faults = record {
            device = (D.seen result.device).faults;
            input = I.faults input.new;
            output = O.faults output.new;
          };
        }) result.status result.detail (option_map (λ journal. journal.entries) result.journal)
        × (acceptor.new ≡ acceptor.old) × (result.links.items ≡ [])) }
    // `serve` of at most 256 connections: what the connections, the journal and the output are at
    // each status. The input isn't read.
    ensures serves { IfSome (accepted (map string_bytes words.now))
        (λ plan. IsServe plan.job → plan.connections ≤ LINKS_MOST
        → LeavesServe (IsLinkDone A.In.left A.Out.written A.In.faults A.Out.faults (record {
          base = told_origin (D.seen device).base (D.seen device).state;
          limit = plan.limit;
          began = (D.seen device).faults;
          contexts = D.CONTEXTS;
        })) (λ link. link.client) (λ link. link.ending) plan.audit plan.connections
        (before_of D.CONTEXTS (told_origin (D.seen device).base (D.seen device).state)
        (D.seen device).faults (I.left input.old) (I.faults input.old)
        (O.written output.old) (O.faults output.old)) (after_of (D.seen result.device)
        (I.left input.new) (I.faults input.new) (O.written output.new) (O.faults output.new))
        (A.coming acceptor.old) (A.coming acceptor.new)
        (A.faults acceptor.old) (A.faults acceptor.new) result.status result.detail
        (option_map (λ journal. journal.entries) result.journal) result.links.items) }
    // `serve` of more connections: nothing is kept of a connection that is over. Only contracts see
    // those that were served.
    ensures pool { IfSome (accepted (map string_bytes words.now))
        (λ plan. IsServe plan.job → LINKS_MOST < plan.connections → (result.links.items ≡ [])
        × LeavesPool (IsServed A.In.left A.Out.written A.In.faults A.Out.faults (record {
          base = told_origin (D.seen device).base (D.seen device).state;
          limit = plan.limit;
          began = (D.seen device).faults;
          contexts = D.CONTEXTS;
        })) given_of client_of (λ s. s.link.ending) plan.audit plan.connections
        (before_of D.CONTEXTS (told_origin (D.seen device).base (D.seen device).state)
        (D.seen device).faults (I.left input.old) (I.faults input.old)
        (O.written output.old) (O.faults output.old)) (after_of (D.seen result.device)
        (I.left input.new) (I.faults input.new) (O.written output.new) (O.faults output.new))
        (A.coming acceptor.old) (A.coming acceptor.new)
        (A.faults acceptor.old) (A.faults acceptor.new) result.status result.detail
        (option_map (λ journal. journal.entries) result.journal) result.served.value) }
    ensures unread { IfSome (accepted (map string_bytes words.now))
        (λ plan. IsServe plan.job → input.new ≡ input.old) }
    // If the broker didn't begin, there is no journal, the device holds no more than it did,
    // nothing was read or written, and no connection was accepted. The status shows how far the
    // start came. At 5 nothing was sent, or the device was started and flushed. Each number that
    // the device reported before the last command is in range. At 11 the number that it reported
    // last isn't.
    ensures none { IfNone result.journal
        (EndsStart D.CONTEXTS D.seen result.status result.detail device result.device
        × (acceptor.new ≡ acceptor.old) × (input.new ≡ input.old) × (output.new ≡ output.old)
        × (result.links.items ≡ [])) }
{
    let Ok(plan) = read_words(words) else {
        return Ran {
            status: REFUSED,
            detail: 0,
            device,
            journal: None,
            links: Vec::new(alloc),
            served: Services::none(),
        };
    };
    if plan.job.is_serve() {
        return serve_plan(rt, alloc, &plan, device, acceptor, gate, output);
    }
    let Played {
        status,
        detail,
        device,
        journal,
    } = play(alloc, &plan, device, input, output);
    Ran {
        status,
        detail,
        device,
        journal,
        links: Vec::new(alloc),
        served: Services::none(),
    }
}
