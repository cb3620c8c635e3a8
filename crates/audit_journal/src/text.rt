// The line of an entry, written to a sink piece by piece.
ghost use Rattle.std.specs.Prelude.{◌≡◌, ◌≤◌, ◌∷◌, ◌++◌, [], length};
ghost use Rattle.std.specs.Fmt.{decimal};
ghost use Rattle.hex.specs.Hex.{encode_lower};
ghost use Rattle.history_spec.specs.AuditText.{audit_line, bytes_word, kind_word, pick_word};
ghost use Rattle.audit_journal.specs.Journal.{seen_entry};
ghost use Rattle.audit_journal.specs.Text.{Writes};

use crate::journal::Entry;
use history_spec::{EntryKind, Pick};
use link_port::{Failed, Sink, push_all};

// How many bytes are spelled at once.
const PIECE_BYTES: usize = 128;

// Writes the line of an entry.
pub(crate) fn write_entry<K: Sink>(entry: &Entry, sink: &mut K) -> Result<(), Failed>
    ensures { Writes result (audit_line (seen_entry entry.now))
        (K.written sink.old) (K.written sink.new) (K.faults sink.old) (K.faults sink.new) }
{
    write_number(u64::from(entry.client), sink)?;
    write_number(entry.number, sink)?;
    write_kind(entry.kind, sink)?;
    write_pick(entry.pick, sink)?;
    write_number(entry.faults, sink)?;
    write_bytes(entry.command, b' ', sink)?;
    write_bytes(entry.reply, b'\n', sink)
}

// Writes a word and the byte behind it.
fn write_word<K: Sink>(word: &[u8], end: u8, sink: &mut K) -> Result<(), Failed>
    ensures { Writes result (word.now ++ end ∷ [])
        (K.written sink.old) (K.written sink.new) (K.faults sink.old) (K.faults sink.new) }
{
    push_all(sink, word)?;
    push_all(sink, &[end])
}

// Writes a number in decimal, and a space.
fn write_number<K: Sink>(number: u64, sink: &mut K) -> Result<(), Failed>
    ensures { Writes result (decimal number ++ 32 ∷ [])
        (K.written sink.old) (K.written sink.new) (K.faults sink.old) (K.faults sink.new) }
{
    write_word(itoa::Buffer::new().format(number).as_bytes(), b' ', sink)
}

// Writes a kind, and a space.
fn write_kind<K: Sink>(kind: EntryKind, sink: &mut K) -> Result<(), Failed>
    ensures { Writes result (kind_word kind ++ 32 ∷ [])
        (K.written sink.old) (K.written sink.new) (K.faults sink.old) (K.faults sink.new) }
{
    match kind {
        EntryKind::Open => write_word(b"open", b' ', sink),
        EntryKind::Command => write_word(b"command", b' ', sink),
        EntryKind::Canceled(upto) => write_named(b"canceled:", upto, sink),
        EntryKind::Fault => write_word(b"fault", b' ', sink),
        EntryKind::Close => write_word(b"close", b' ', sink),
    }
}

// Writes a pick, and a space.
fn write_pick<K: Sink>(pick: Pick, sink: &mut K) -> Result<(), Failed>
    ensures { Writes result (pick_word pick ++ 32 ∷ [])
        (K.written sink.old) (K.written sink.new) (K.faults sink.old) (K.faults sink.new) }
{
    match pick {
        Pick::Nothing => write_word(b"-", b' ', sink),
        Pick::Session(number) => write_named(b"session:", u64::from(number), sink),
        Pick::Sequence(number) => write_named(b"sequence:", number, sink),
    }
}

// Writes a name, a number behind it in decimal, and a space.
fn write_named<K: Sink>(name: &[u8], number: u64, sink: &mut K) -> Result<(), Failed>
    ensures { Writes result (name.now ++ decimal number ++ 32 ∷ [])
        (K.written sink.old) (K.written sink.new) (K.faults sink.old) (K.faults sink.new) }
{
    push_all(sink, name)?;
    write_number(number, sink)
}

// Writes bytes as their digits, or a dash where there are none, and the byte behind them.
fn write_bytes<K: Sink>(bytes: &[u8], end: u8, sink: &mut K) -> Result<(), Failed>
    ensures { Writes result (bytes_word bytes.now ++ end ∷ [])
        (K.written sink.old) (K.written sink.new) (K.faults sink.old) (K.faults sink.new) }
{
    if bytes.is_empty() {
        return write_word(b"-", end, sink);
    }
    write_digits(bytes, sink)?;
    push_all(sink, &[end])
}

// Writes the digits of any number of bytes.
fn write_digits<K: Sink>(bytes: &[u8], sink: &mut K) -> Result<(), Failed>
    ensures { Writes result (encode_lower bytes.now)
        (K.written sink.old) (K.written sink.new) (K.faults sink.old) (K.faults sink.new) }
{
    let mut rest = bytes;
    while !rest.is_empty() {
        let (piece, behind) = rest.split_at(rest.len().min(PIECE_BYTES));
        write_piece(piece, sink)?;
        rest = behind;
    }
    Ok(())
}

// Writes the digits of a few bytes.
fn write_piece<K: Sink>(piece: &[u8], sink: &mut K) -> Result<(), Failed>
    requires { length piece.now ≤ PIECE_BYTES }
    ensures { Writes result (encode_lower piece.now)
        (K.written sink.old) (K.written sink.new) (K.faults sink.old) (K.faults sink.new) }
{
    let mut room = [0; 2 * PIECE_BYTES];
    let digits = &mut room[..2 * piece.len()];
    hex::encode_to_slice(piece, &mut *digits).unwrap();
    push_all(sink, digits)
}
