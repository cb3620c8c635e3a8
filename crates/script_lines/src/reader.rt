ghost use Rattle.std.specs.Prelude.{◌≡◌, ◌==◌, ◌<◌, ◌≤◌, ◌+◌, [], not, length, take, position, Ok};
ghost use Rattle.std.specs.Prelude.{Some, IfOk, OnOk, OnErr, vec_len, vec_capacity, if◌then◌else◌};
ghost use Rattle.tab_spec.specs.Count.{Rose};
ghost use Rattle.script_spec.specs.Script.{is_newline};
ghost use Rattle.script_spec.specs.declared.TheConstants.{LINE_BYTES, SCRIPT_BYTES};
ghost use Rattle.link_port.specs.Port.{Pulled};
ghost use Rattle.script_lines.specs.Lines.{ReadNext, CutShort, HasPulled};
ghost use Rattle.script_lines.specs.Pieces.{Filled, TookPiece};
ghost use Rattle.script_lines.specs.declared.reader.Line.TheVariants.{Text, End, TooLong};

use link_port::{Failed, Source};
use script_spec::{LINE_BYTES, SCRIPT_BYTES};
use std::alloc::{AllocError, Global};
use std::marker::Model;

// How many bytes are pulled at once, at most.
const BLOCK_BYTES: usize = 65_536;

/// What came next of an input.
#[derive(Clone, Copy, PartialEq, Eq)]
pub enum Line {
    /// A line, which stands in the text, without its newline.
    Text,
    /// The end of the input.
    End,
    /// A line that is longer than a script's may be, or reaches past a script's most bytes.
    TooLong,
}

/// Cuts an input into lines, in whatever pieces it comes. It pulls at most one byte past the most
/// that a script may have.
#[derive(Drop)]
pub struct LineReader {
    block: Vec<u8>,
    // The bytes of the block from `at` up to `end` were pulled and not given out.
    at: usize,
    end: usize,
    // How many bytes the input may still have, those included.
    room: u32,
}

impl Model for LineReader {
    ghost use Rattle.std.specs.Prelude.{◌≤◌, ◌<◌, ◌+◌, slice_range, vec_len};
    ghost use Rattle.script_lines.specs.Lines.{LinesView};

    ghost Value = { LinesView };

    ghost view = { λ r. record { pending = slice_range r.block.items r.at r.end; room = r.room } };

    ghost invariant = { λ r. (r.at ≤ r.end) × (r.end ≤ vec_len r.block) × (0 < vec_len r.block)
        × (r.end ≤ r.at + r.room + 1) };
}

impl LineReader {
    /// A reader that has pulled nothing. It fails only for want of memory, and takes none later.
    pub fn new(alloc: Global) -> Result<LineReader, AllocError>
        ensures { IfOk result (λ r. r ≡ record { pending = []; room = SCRIPT_BYTES }) }
    {
        Ok(LineReader {
            block: vec![in alloc; 0; BLOCK_BYTES]?,
            at: 0,
            end: 0,
            room: SCRIPT_BYTES,
        })
    }

    /// Reads the next line into `text`, which has room for one, over whatever it holds. `Failed`
    /// comes only where the source's fault count rose. What was read of a line is lost then, and
    /// behind [`Line::TooLong`] too: the reader is of no more use.
    pub fn next<I: Source>(&mut self, input: &mut I, text: &mut Vec<u8>) -> Result<Line, Failed>
        requires { LINE_BYTES ≤ vec_capacity text.old }
        ensures read { IfOk result (λ line.
            ReadNext line self.old (I.left input.old) text.new.items self.new (I.left input.new)) }
        ensures room { result ≡ Ok Text → self.new.room < self.old.room }
        ensures length { vec_len text.new ≤ LINE_BYTES }
        ensures capacity { LINE_BYTES ≤ vec_capacity text.new }
        ensures cut { OnErr result (CutShort self.old (I.left input.old) (I.left input.new)) }
        ensures pulled { HasPulled self.old (I.left input.old) self.new (I.left input.new) }
        ensures ahead { length self.new.pending ≤ self.new.room + 1 }
        ensures ended { OnErr result (self.new.pending ≡ []) }
        ensures fault { OnErr result (Rose (I.faults input.old) (I.faults input.new)) }
        ensures quiet { OnOk result (I.faults input.new ≡ I.faults input.old) }
        ensures count { I.faults input.old ≤ I.faults input.new }
    {
        text.clear();
        loop {
            if !self.fill(input)? {
                return Ok(last_line(text));
            }
            if let Some(line) = self.take_piece(text) {
                return Ok(line);
            }
        }
    }

    // Pulls a block where no byte is pending, and at most one byte more than the input may still
    // have. Whether one is pending then.
    fn fill<I: Source>(&mut self, input: &mut I) -> Result<bool, Failed>
        ensures filled { OnOk result
            (Filled (I.left input.old) (I.left input.new) self.old self.new) }
        ensures more { IfOk result (λ more. more ≡ not (length self.new.pending == 0)) }
        ensures kept { OnErr result ((self.old.pending ≡ []) × (self.new ≡ self.old)
            × (I.left input.new ≡ I.left input.old)) }
        ensures ahead { length self.new.pending ≤ self.new.room + 1 }
        ensures fault { OnErr result (Rose (I.faults input.old) (I.faults input.new)) }
        ensures quiet { OnOk result (I.faults input.new ≡ I.faults input.old) }
        ensures count { I.faults input.old ≤ I.faults input.new }
    {
        if self.at == self.end {
            let most = self.block.len().min(self.room as usize + 1);
            let pulled = pull_front(input, &mut self.block, most)?;
            self.at = 0;
            self.end = pulled;
        }
        Ok(self.at < self.end)
    }

    // Takes what is pending of the line that begins with `text`. Nothing where the line goes on.
    fn take_piece(&mut self, text: &mut Vec<u8>) -> Option<Line>
        requires some { 0 < length self.old.pending }
        requires length { vec_len text.old ≤ LINE_BYTES }
        requires capacity { LINE_BYTES ≤ vec_capacity text.old }
        ensures took { TookPiece result self.old text.old.items self.new text.new.items }
        ensures kept { result ≡ Some TooLong → self.new ≡ self.old }
        ensures ahead { length self.new.pending ≤ self.new.room + 1 }
        ensures length { vec_len text.new ≤ LINE_BYTES }
        ensures capacity { LINE_BYTES ≤ vec_capacity text.new }
    {
        let pending = &self.block[self.at..self.end];
        let newline = first_newline(pending);
        let len = newline.unwrap_or(pending.len());
        let ended = newline.is_some();
        let taken = len + usize::from(ended);
        if taken > self.room as usize || len > LINE_BYTES as usize - text.len() {
            return Some(Line::TooLong);
        }
        text.extend_from_slice(&pending[..len]).unwrap();
        self.at += taken;
        self.room -= taken as u32;
        ended.then_some(Line::Text)
    }
}

// Pulls into the front of a block, as many bytes as this at most.
fn pull_front<I: Source>(input: &mut I, block: &mut [u8], most: usize) -> Result<usize, Failed>
    requires { most ≤ length block.old }
    ensures bound { IfOk result (λ k. k ≤ most) }
    ensures pulled { IfOk result
        (λ k. Pulled (I.left input.old) (I.left input.new) most (take k block.new)) }
    ensures err { OnErr result (I.left input.new ≡ I.left input.old) }
    ensures fault { OnErr result (Rose (I.faults input.old) (I.faults input.new)) }
    ensures quiet { OnOk result (I.faults input.new ≡ I.faults input.old) }
    ensures count { I.faults input.old ≤ I.faults input.new }
{
    input.pull(&mut block[..most])
}

// What a text is that no newline follows.
fn last_line(text: &[u8]) -> Line
    ensures { result ≡ (if length text.now == 0 then End else Text) }
{
    if text.is_empty() {
        Line::End
    } else {
        Line::Text
    }
}

fn first_newline(bytes: &[u8]) -> Option<usize>
    ensures { result ≡ position is_newline bytes.now }
{
    bytes.iter().position(|byte| *byte == b'\n')
}
