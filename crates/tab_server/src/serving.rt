// The connections that an acceptor hands out, served over one broker.
ghost use Rattle.std.specs.Prelude.{◌≡◌, ◌≤◌, ◌<◌, ℕ, List, Option, [], Some, None, length};
ghost use Rattle.std.specs.Prelude.{IfNone, IsSome, IsTrue, OnOk, OnErr, false, true};
ghost use Rattle.std.specs.List.{list_any};
ghost use Rattle.std.specs.Option.{option_map};
ghost use Rattle.tab_spec.specs.Count.{Rose};
ghost use Rattle.history_spec.specs.declared.TheConstants.{JOURNAL_MOST};
ghost use Rattle.history_spec.specs.Entry.{IsLimit, clients_of};
ghost use Rattle.link_port.specs.Port.{with_more};
ghost use Rattle.audit_journal.specs.Text.{WroteFrontOf};
ghost use Rattle.broker_lock.specs.Known.{origin_of};
ghost use Rattle.broker_core.specs.Broker.{IsAtBase, told_origin};
ghost use Rattle.link_pool.specs.Endings.{lacks_memory};
ghost use Rattle.link_pool.specs.Services.{IsServed, client_of, given_of};
ghost use Rattle.tab_server.specs.Status.{EndsStart};
ghost use Rattle.tab_server.specs.Run.{after_of, before_of};
ghost use Rattle.tab_server.specs.Serving.{IsLinkDone, LeavesPool, LeavesServe, TellsEnd};
ghost use Rattle.tab_server.specs.Serving.{WroteOr, end_text, serve_detail, serve_status};

use crate::counts::counts_line;
use crate::ended_broker::end_broker;
use crate::script::{Played, begin_broker};
use crate::server::Ran;
use crate::status::{ACCEPTOR_FAILED, DONE, NO_MEMORY, OUTPUT_FAILED, REFUSED, WRONG_ANSWER};
use accept_loop::{AcceptError, LinkDone, Served, serve};
use audit_journal::Journal;
use broker_core::Broker;
use command_line::Plan;
use device_port::Device;
use link_pool::{ServedAll, Services, lacks_memory, serve_all};
use link_port::{Acceptor, Failed, Gate, Sink, push_all};
use std::alloc::Global;
use std::snapshot::Snapshot;
use std::sync::Wait;
use std::thread::Threads;

/// The most connections that `serve` serves at once. If it accepts no more than these in all, it
/// keeps the result of each. This project's own.
pub const LINKS_MOST: u32 = 256;

// Writes the journal's audit text if it is asked for, and the line of counts if not.
fn write_text<O: Sink>(
    audit: bool,
    links: u64,
    journal: &Journal,
    output: &mut O,
) -> Result<(), Failed>
    requires { IsTrue audit → journal.now.limit ≤ JOURNAL_MOST }
    ensures ok { OnOk result (O.written output.new
        ≡ with_more (O.written output.old) (end_text audit links journal.now.entries)) }
    ensures front { OnErr result (WroteFrontOf (end_text audit links journal.now.entries)
        (O.written output.old) (O.written output.new)) }
    ensures cause { OnErr result (Rose (O.faults output.old) (O.faults output.new)) }
    ensures quiet { OnOk result (O.faults output.new ≡ O.faults output.old) }
{
    if audit {
        return journal.write_all(output);
    }
    push_all(output, counts_line(links, journal).as_slice())
}

// Writes that text. It returns the output's fault count if the write failed.
fn write_end<O: Sink>(audit: bool, links: u64, journal: &Journal, output: &mut O) -> Option<u64>
    requires { IsTrue audit → journal.now.limit ≤ JOURNAL_MOST }
    ensures { WroteOr result (end_text audit links journal.now.entries) (O.written output.old)
        (O.written output.new) (O.faults output.old) (O.faults output.new) }
{
    match write_text(audit, links, journal, output) {
        Ok(()) => None,
        Err(Failed) => Some(output.fault_count()),
    }
}

// Whether one of these connections ended for want of memory.
fn have_lacked<S, K>(links: &[LinkDone<S, K>]) -> bool
    ensures { result ≡ list_any (λ link. lacks_memory link.ending) links.now }
{
    links.iter().any(|link| lacks_memory(link.ending))
}

// The status and its detail, by the first of these that there is: the code of a wrong answer, the
// fault count of an acceptor that failed, that of an output that failed, a lack of memory.
fn status(wrong: Option<u64>, accept: Option<u64>, output: Option<u64>, lacked: bool) -> (u8, u64)
    ensures { (result.0 ≡ serve_status wrong accept output lacked)
        × (result.1 ≡ serve_detail wrong accept output) }
{
    if let Some(code) = wrong {
        return (WRONG_ANSWER, code);
    }
    if let Some(count) = accept {
        return (ACCEPTOR_FAILED, count);
    }
    if let Some(count) = output {
        return (OUTPUT_FAILED, count);
    }
    if lacked {
        return (NO_MEMORY, 0);
    }
    (DONE, 0)
}

// Writes the text at the end, and returns the result with the connections that were kept.
fn finished<D: Device, A: Acceptor, O: Sink>(
    audit: bool,
    wrong: Option<u64>,
    accept: Option<u64>,
    device: D,
    journal: Journal,
    links: Vec<LinkDone<A::In, A::Out>>,
    output: &mut O,
) -> Ran<D, A>
    requires { IsTrue audit → journal.limit ≤ JOURNAL_MOST }
    ensures device { result.device ≡ device }
    ensures journal { result.journal ≡ Some journal }
    ensures links { result.links ≡ links }
    ensures told { TellsEnd wrong accept (list_any (λ link. lacks_memory link.ending) links.items)
        (end_text audit (length links.items) journal.entries) (O.written output.old)
        (O.written output.new)
        (O.faults output.old) (O.faults output.new) result.status result.detail }
{
    let lacked = have_lacked(&links);
    let failed = write_end(audit, links.len() as u64, &journal, output);
    let (status, detail) = status(wrong, accept, failed, lacked);
    Ran {
        status,
        detail,
        device,
        journal: Some(journal),
        links,
        served: Services::none(),
    }
}

// Writes the text at the end, and returns the result with connections that only contracts see.
fn pool_finished<D: Device, A: Acceptor, O: Sink>(
    alloc: Global,
    audit: bool,
    wrong: Option<u64>,
    accept: Option<u64>,
    device: D,
    journal: Journal,
    count: u32,
    lacked: bool,
    served: Snapshot<Services<A::In, A::Out>>,
    output: &mut O,
) -> Ran<D, A>
    requires { IsTrue audit → journal.limit ≤ JOURNAL_MOST }
    ensures device { result.device ≡ device }
    ensures journal { result.journal ≡ Some journal }
    ensures links { result.links.items ≡ [] }
    ensures served { result.served ≡ served }
    ensures told { TellsEnd wrong accept lacked (end_text audit count journal.entries)
        (O.written output.old) (O.written output.new) (O.faults output.old) (O.faults output.new)
        result.status result.detail }
{
    let failed = write_end(audit, u64::from(count), &journal, output);
    let (status, detail) = status(wrong, accept, failed, lacked);
    Ran {
        status,
        detail,
        device,
        journal: Some(journal),
        links: Vec::new(alloc),
        served,
    }
}

// Serves the connections that the acceptor hands out, as many as the plan says, over a broker that
// has opened no client yet. It keeps the result of each connection.
fn serve_begun<D: Device + Send, A: Acceptor, G: Gate, O: Sink, R: Threads + Wait + Sync>(
    rt: &R,
    alloc: Global,
    plan: &Plan,
    broker: Broker<D>,
    acceptor: &mut A,
    gate: &G,
    output: &mut O,
) -> Ran<D, A>
    requires journal { broker.journal ≡ [] }
    requires sound { broker.wrong_code ≡ None }
    requires connections { plan.now.connections ≤ LINKS_MOST }
    requires audit { IsTrue plan.now.audit → broker.limit ≤ JOURNAL_MOST }
    ensures leaves { (left : Option (List ℕ)) (input : ℕ)
        → LeavesServe (IsLinkDone A.In.left A.Out.written A.In.faults A.Out.faults (record {
          base = origin_of (D.seen broker.device).base broker.held.sessions.numbers;
          limit = broker.limit;
          began = broker.began;
          contexts = D.CONTEXTS;
        })) (λ link. link.client) (λ link. link.ending) plan.now.audit plan.now.connections
        (before_of D.CONTEXTS (origin_of (D.seen broker.device).base broker.held.sessions.numbers)
        broker.began left input (O.written output.old) (O.faults output.old))
        (after_of (D.seen result.device) left input (O.written output.new) (O.faults output.new))
        (A.coming acceptor.old) (A.coming acceptor.new)
        (A.faults acceptor.old) (A.faults acceptor.new) result.status result.detail
        (option_map (λ journal. journal.entries) result.journal) result.links.items }
    ensures some { IsSome result.journal }
{
    let Served {
        accepted,
        links,
        value,
    } = serve(rt, alloc, broker, acceptor, gate, plan.connections);
    let (device, journal, wrong) = end_broker(value);
    match accepted {
        Ok(()) => finished(plan.audit, wrong, None, device, journal, links, output),
        Err(AcceptError::Failed) => {
            let count = acceptor.fault_count();
            finished(
                plan.audit,
                wrong,
                Some(count),
                device,
                journal,
                links,
                output,
            )
        }
        Err(AcceptError::Memory) => Ran {
            status: NO_MEMORY,
            detail: 0,
            device,
            journal: Some(journal),
            links,
            served: Services::none(),
        },
    }
}

// The same, by servers that each take connection after connection. Nothing is kept of one that is
// over.
fn pool_begun<D: Device + Send, A: Acceptor + Send, G: Gate, O: Sink, R: Threads + Wait + Sync>(
    rt: &R,
    alloc: Global,
    plan: &Plan,
    broker: Broker<D>,
    acceptor: &mut A,
    gate: &G,
    output: &mut O,
) -> Ran<D, A>
    requires journal { broker.journal ≡ [] }
    requires sound { broker.wrong_code ≡ None }
    requires audit { IsTrue plan.now.audit → broker.limit ≤ JOURNAL_MOST }
    ensures leaves { (left : Option (List ℕ)) (input : ℕ)
        → LeavesPool (IsServed A.In.left A.Out.written A.In.faults A.Out.faults (record {
          base = origin_of (D.seen broker.device).base broker.held.sessions.numbers;
          limit = broker.limit;
          began = broker.began;
          contexts = D.CONTEXTS;
        })) given_of client_of (λ s. s.link.ending) plan.now.audit plan.now.connections
        (before_of D.CONTEXTS (origin_of (D.seen broker.device).base broker.held.sessions.numbers)
        broker.began left input (O.written output.old) (O.faults output.old))
        (after_of (D.seen result.device) left input (O.written output.new) (O.faults output.new))
        (A.coming acceptor.old) (A.coming acceptor.new)
        (A.faults acceptor.old) (A.faults acceptor.new) result.status result.detail
        (option_map (λ journal. journal.entries) result.journal) result.served.value }
    ensures links { result.links.items ≡ [] }
    ensures some { IsSome result.journal }
{
    let ServedAll {
        accepted,
        count,
        lacked,
        served,
        value,
    } = serve_all(
        rt,
        alloc,
        broker,
        acceptor,
        gate,
        plan.connections,
        LINKS_MOST,
    );
    let (device, journal, wrong) = end_broker(value);
    match accepted {
        Ok(()) => pool_finished(
            alloc, plan.audit, wrong, None, device, journal, count, lacked, served, output,
        ),
        Err(AcceptError::Failed) => {
            let faults = acceptor.fault_count();
            pool_finished(
                alloc,
                plan.audit,
                wrong,
                Some(faults),
                device,
                journal,
                count,
                lacked,
                served,
                output,
            )
        }
        Err(AcceptError::Memory) => Ran {
            status: NO_MEMORY,
            detail: 0,
            device,
            journal: Some(journal),
            links: Vec::new(alloc),
            served,
        },
    }
}

// Whether the results of so many connections are kept.
fn are_kept(connections: u32) -> bool
    ensures few { result ≡ true → connections ≤ LINKS_MOST }
    ensures many { result ≡ false → LINKS_MOST < connections }
{
    connections <= LINKS_MOST
}

// Serves the connections that the acceptor hands out, as many as the plan says, over one broker.
// Then it writes the audit text if the plan asks for it, and the line of counts if not. If memory
// lacked before the first connection, it writes nothing.
pub(crate) fn serve_plan<
    D: Device + Send,
    A: Acceptor + Send,
    G: Gate,
    O: Sink,
    R: Threads + Wait + Sync,
>(
    rt: &R,
    alloc: Global,
    plan: &Plan,
    device: D,
    acceptor: &mut A,
    gate: &G,
    output: &mut O,
) -> Ran<D, A>
    requires at_base { IsAtBase (D.seen device).base (D.seen device).state }
    requires limit { IsLimit plan.now.limit }
    requires audit { IsTrue plan.now.audit → plan.now.limit ≤ JOURNAL_MOST }
    ensures leaves { plan.now.connections ≤ LINKS_MOST → (left : Option (List ℕ)) (input : ℕ)
        → LeavesServe (IsLinkDone A.In.left A.Out.written A.In.faults A.Out.faults (record {
          base = told_origin (D.seen device).base (D.seen device).state;
          limit = plan.now.limit;
          began = (D.seen device).faults;
          contexts = D.CONTEXTS;
        })) (λ link. link.client) (λ link. link.ending) plan.now.audit plan.now.connections
        (before_of D.CONTEXTS (told_origin (D.seen device).base (D.seen device).state)
        (D.seen device).faults left input (O.written output.old) (O.faults output.old))
        (after_of (D.seen result.device) left input (O.written output.new) (O.faults output.new))
        (A.coming acceptor.old) (A.coming acceptor.new)
        (A.faults acceptor.old) (A.faults acceptor.new) result.status result.detail
        (option_map (λ journal. journal.entries) result.journal) result.links.items }
    ensures pool { LINKS_MOST < plan.now.connections → (left : Option (List ℕ)) (input : ℕ)
        → LeavesPool (IsServed A.In.left A.Out.written A.In.faults A.Out.faults (record {
          base = told_origin (D.seen device).base (D.seen device).state;
          limit = plan.now.limit;
          began = (D.seen device).faults;
          contexts = D.CONTEXTS;
        })) given_of client_of (λ s. s.link.ending) plan.now.audit plan.now.connections
        (before_of D.CONTEXTS (told_origin (D.seen device).base (D.seen device).state)
        (D.seen device).faults left input (O.written output.old) (O.faults output.old))
        (after_of (D.seen result.device) left input (O.written output.new) (O.faults output.new))
        (A.coming acceptor.old) (A.coming acceptor.new)
        (A.faults acceptor.old) (A.faults acceptor.new) result.status result.detail
        (option_map (λ journal. journal.entries) result.journal) result.served.value }
    ensures links { LINKS_MOST < plan.now.connections → result.links.items ≡ [] }
    ensures taken { result.status ≡ REFUSED → ⊥ }
    ensures none { IfNone result.journal
        (EndsStart D.CONTEXTS D.seen result.status result.detail device result.device
        × (acceptor.new ≡ acceptor.old) × (output.new ≡ output.old) × (result.links.items ≡ [])) }
{
    match begin_broker(alloc, plan.limit, device) {
        Ok(broker) => {
            if are_kept(plan.connections) {
                return serve_begun(rt, alloc, plan, broker, acceptor, gate, output);
            }
            pool_begun(rt, alloc, plan, broker, acceptor, gate, output)
        }
        Err(
            Played {
                status,
                detail,
                device,
                journal: _,
            },
        ) => Ran {
            status,
            detail,
            device,
            journal: None,
            links: Vec::new(alloc),
            served: Services::none(),
        },
    }
}
