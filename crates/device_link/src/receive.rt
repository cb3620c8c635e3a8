// What goes over the link for one command: the command out, and the response in.
ghost use Rattle.std.specs.Prelude.{◌≡◌, ◌+◌, ◌<◌, ◌≤◌, ◌++◌, true, length, drop};
ghost use Rattle.std.specs.Prelude.{IfOk, OnOk, OnErr, IfErr};
ghost use Rattle.tab_spec.specs.Frame.{is_frame};
ghost use Rattle.link_port.specs.Port.{at_end};
ghost use Rattle.device_link.specs.Link.{Exchanges, FailsBy, ends_of, with_front};
ghost use Rattle.device_link.specs.Receive.{PullFails, ReceiveFails};
ghost use Rattle.device_link.specs.declared.fault.LinkFault.TheVariants as causes;

use crate::LinkFault;
use link_port::{Failed, Sink, Source, push_all};
use tab_bytes::{BUFFER_BYTES, Buffer};
use tab_spec::{HEADER_BYTES, MOST_BYTES};
use tab_wire::size_of;

// How many bytes it takes to know a response's size: its tag and its size field.
const SIZED_BYTES: usize = 6;

// How many bytes are read at once, at most.
const PIECE_BYTES: usize = 256;

// Sends the command, and writes the response over what `reply` holds. After an error `reply` has
// the bytes that were read, if any, and the sink is ended.
pub(crate) fn exchange<S: Source, K: Sink>(
    source: &mut S,
    sink: &mut K,
    command: &[u8],
    reply: &mut Buffer,
) -> Result<(), LinkFault>
    ensures ok { OnOk result (Exchanges
        (ends_of S.left S.faults K.written K.faults source.old sink.old) command.now reply.new
        (ends_of S.left S.faults K.written K.faults source.new sink.new)) }
    ensures err { IfErr result (λ fault. FailsBy fault
        (ends_of S.left S.faults K.written K.faults source.old sink.old) command.now
        (ends_of S.left S.faults K.written K.faults source.new sink.new)) }
    ensures unread { IfErr result (λ fault. fault ≡ causes.Sink → source.new ≡ source.old) }
    ensures open { OnOk result (K.ended sink.new ≡ K.ended sink.old) }
    ensures ended { OnErr result (K.ended sink.new ≡ at_end (K.ended sink.old)) }
{
    match carry(source, sink, command, reply) {
        Ok(()) => Ok(()),
        Err(fault) => {
            sink.end();
            Err(fault)
        }
    }
}

// `exchange`, without the end of the sink.
fn carry<S: Source, K: Sink>(
    source: &mut S,
    sink: &mut K,
    command: &[u8],
    reply: &mut Buffer,
) -> Result<(), LinkFault>
    ensures ok { OnOk result (Exchanges
        (ends_of S.left S.faults K.written K.faults source.old sink.old) command.now reply.new
        (ends_of S.left S.faults K.written K.faults source.new sink.new)) }
    ensures err { IfErr result (λ fault. FailsBy fault
        (ends_of S.left S.faults K.written K.faults source.old sink.old) command.now
        (ends_of S.left S.faults K.written K.faults source.new sink.new)) }
    ensures unread { IfErr result (λ fault. fault ≡ causes.Sink → source.new ≡ source.old) }
    ensures open { K.ended sink.new ≡ K.ended sink.old }
{
    match push_all(sink, command) {
        Ok(()) => receive(source, reply),
        Err(Failed) => Err(LinkFault::Sink),
    }
}

// Reads one response, and no byte more, over what `reply` holds. After an error `reply` has the
// bytes that were read.
fn receive<S: Source>(source: &mut S, reply: &mut Buffer) -> Result<(), LinkFault>
    ensures read { S.left source.old ≡ with_front reply.new (S.left source.new) }
    ensures frame { OnOk result (is_frame reply.new ≡ true) }
    ensures quiet { OnOk result (S.faults source.new ≡ S.faults source.old) }
    ensures err { IfErr result (λ fault. ReceiveFails fault (S.faults source.old)
        (S.faults source.new) (S.left source.new) reply.new) }
{
    reply.clear();
    pull_up_to(source, reply, SIZED_BYTES)?;
    let size = size_of(reply.as_slice());
    if size < HEADER_BYTES || size > MOST_BYTES {
        return Err(LinkFault::Size(size));
    }
    pull_up_to(source, reply, size as usize)
}

// Adds the next bytes of the source to `reply` until it has `count` of them.
fn pull_up_to<S: Source>(source: &mut S, reply: &mut Buffer, count: usize) -> Result<(), LinkFault>
    requires fits { count ≤ BUFFER_BYTES }
    requires more { length reply.old ≤ count }
    ensures read { with_front reply.new (S.left source.new)
        ≡ with_front reply.old (S.left source.old) }
    ensures added { reply.new ≡ reply.old ++ drop (length reply.old) reply.new }
    ensures ok { OnOk result (length reply.new ≡ count) }
    ensures quiet { OnOk result (S.faults source.new ≡ S.faults source.old) }
    ensures err { IfErr result (λ fault. PullFails fault (S.faults source.old)
        (S.faults source.new) (S.left source.new)) }
    ensures part { OnErr result (length reply.new < count) }
{
    while reply.as_slice().len() < count {
        let most = count - reply.as_slice().len();
        pull_piece(source, reply, most)?;
    }
    Ok(())
}

// Adds the next bytes of the source to `reply`, at least one of them and at most `most`.
fn pull_piece<S: Source>(source: &mut S, reply: &mut Buffer, most: usize) -> Result<(), LinkFault>
    requires some { 0 < most }
    requires fits { length reply.old + most ≤ BUFFER_BYTES }
    ensures read { with_front reply.new (S.left source.new)
        ≡ with_front reply.old (S.left source.old) }
    ensures added { reply.new ≡ reply.old ++ drop (length reply.old) reply.new }
    ensures some { OnOk result (length reply.old < length reply.new) }
    ensures most { length reply.new ≤ length reply.old + most }
    ensures quiet { OnOk result (S.faults source.new ≡ S.faults source.old) }
    ensures err { IfErr result (λ fault. PullFails fault (S.faults source.old)
        (S.faults source.new) (S.left source.new)) }
    ensures none { OnErr result (reply.new ≡ reply.old) }
{
    let mut piece = [0; PIECE_BYTES];
    let room = most.min(PIECE_BYTES);
    match source.pull(&mut piece[..room]) {
        Err(Failed) => Err(LinkFault::Source),
        Ok(0) => Err(LinkFault::End),
        Ok(count) => {
            reply.put_bytes(&piece[..count]).unwrap();
            Ok(())
        }
    }
}
