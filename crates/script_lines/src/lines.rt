ghost use Rattle.std.specs.Prelude.{◌≡◌, ◌≤◌, ◌+◌, ◌*◌, ◌/◌, ◌++◌, [], ℕ, Some, None, true, false};
ghost use Rattle.std.specs.Prelude.{length, take, vec_len, vec_capacity, position, nat_lt, ◌&&◌};
ghost use Rattle.std.specs.Prelude.{◌^◌, IfOk, MatchResult, if◌then◌else◌};
ghost use Rattle.std.specs.List.{list_all};
ghost use Rattle.hex.specs.Hex.{decode_of, encode_lower};
ghost use Rattle.script_spec.specs.Script.{item_of, piece_in, piece, is_space, is_digit, number_of};
ghost use Rattle.script_spec.specs.Script.{label_of, has_needless_zero};
ghost use Rattle.script_spec.specs.Plays.{reply_line};
ghost use Rattle.script_lines.specs.LineItem.{item_said};
ghost use Rattle.script_spec.specs.declared.TheConstants.{LINE_BYTES};

use script_spec::LINE_BYTES;
use std::alloc::{AllocError, Global};
use std::marker::Model;

/// The most bytes of the line of a reply: ten digits, a space, two digits for each byte of the
/// largest response, and a newline.
pub const REPLY_LINE_BYTES: usize = 8_204;

// How many bytes are encoded at once.
const ENCODED_BYTES: usize = 128;

/// The most bytes of a piece: the digits of a line whose label has one digit.
pub const PIECE_BYTES: usize = 8_191;

/// The bytes of a line's digits, at most [`PIECE_BYTES`]. It is seen as the list of them.
#[derive(Drop)]
pub struct Piece {
    bytes: Vec<u8>,
    len: usize,
}

impl Model for Piece {
    ghost use Rattle.std.specs.Prelude.{◌≡◌, ◌≤◌, List, ℕ, take, vec_len};

    ghost Value = { List ℕ };

    ghost view = { λ p. take p.len p.bytes.items };

    // 8191 is PIECE_BYTES, which cannot be named here
    ghost invariant = { λ p. (vec_len p.bytes ≡ 8191) × (p.len ≤ 8191) };
}

/// What a good line says; the bytes of a piece stand beside it.
#[derive(Clone, Copy)]
pub enum LineItem {
    /// The bytes come on this label.
    Piece(u32),
    /// This label is closed.
    Close(u32),
}

impl Piece {
    /// No bytes, with room for those of a line. It fails only for want of memory, and takes none
    /// later.
    pub fn new(alloc: Global) -> Result<Piece, AllocError>
        ensures { IfOk result (λ p. p ≡ []) }
    {
        Ok(Piece {
            bytes: vec![in alloc; 0; PIECE_BYTES]?,
            len: 0,
        })
    }

    /// The bytes.
    pub fn as_slice(&self) -> &[u8]
        ensures same { result.now ≡ self.now }
        ensures most { length result.now ≤ 8191 }
    {
        &self.bytes[..self.len]
    }

    // Whether these are the digits of at least one byte. The bytes are then those of `self`.
    fn read_digits(&mut self, digits: &[u8]) -> bool
        requires { length digits.now ≤ 16382 }
        ensures { (label : ℕ)
            → piece_in label (decode_of digits.now)
            ≡ (if result then Some (piece label self.new) else None) }
    {
        let len = digits.len() / 2;
        if len == 0 {
            return false;
        }
        if !decode_front(digits, &mut self.bytes) {
            return false;
        }
        self.len = len;
        true
    }
}

/// Reads a line of a script, its newline left out: what it says, and the bytes of a piece in
/// `into`. Nothing where it is a bad line.
pub fn read_line(text: &[u8], into: &mut Piece) -> Option<LineItem>
    ensures { item_of text.now ≡ item_said result into.new }
{
    if text.len() > LINE_BYTES as usize {
        return None;
    }
    let space = first_space(text)?;
    let label = label_of(&text[..space])?;
    let word = &text[space + 1..];
    if word == b"close".as_slice() {
        return Some(LineItem::Close(label));
    }
    if into.read_digits(word) {
        Some(LineItem::Piece(label))
    } else {
        None
    }
}

// Writes the bytes that the digits spell to the front of `bytes`. Whether all of them are digits.
fn decode_front(digits: &[u8], bytes: &mut [u8]) -> bool
    requires { length digits.now / 2 ≤ length bytes.old }
    ensures { MatchResult (decode_of digits.now)
        (λ decoded. (result ≡ true) × (take (length digits.now / 2) bytes.new ≡ decoded))
        (λ error. result ≡ false) }
{
    let front = &mut bytes[..digits.len() / 2];
    hex::decode_to_slice(digits, front).is_ok()
}

fn first_space(text: &[u8]) -> Option<usize>
    ensures { result ≡ position is_space text.now }
{
    text.iter().position(|byte| *byte == b' ')
}

// The number that these digits spell, where they are a label.
fn label_of(digits: &[u8]) -> Option<u32>
    ensures { result ≡ label_of digits.now }
{
    if digits.is_empty() || has_needless_zero(digits) {
        return None;
    }
    number_of(digits)
}

fn has_needless_zero(digits: &[u8]) -> bool
    ensures { result ≡ has_needless_zero digits.now }
{
    digits.len() > 1 && digits[0] == b'0'
}

// The number that these digits spell. Nothing where one isn't a digit, or no u32 is so large.
fn number_of(digits: &[u8]) -> Option<u32>
    ensures { result
        ≡ (if list_all is_digit digits.now && nat_lt (number_of digits.now) (2 ^ 32)
        then Some (number_of digits.now) else None) }
{
    let mut number: u64 = 0;
    for digit in digits {
        if !digit.is_ascii_digit() {
            return None;
        }
        number = 10 * number + u64::from(*digit - b'0');
        if number > u64::from(u32::MAX) {
            return None;
        }
    }
    Some(number as u32)
}

/// Writes the line of a reply over whatever `line` holds: the label, a space, the bytes in lower
/// case, and a newline.
pub fn write_reply_line(label: u32, reply: &[u8], line: &mut Vec<u8>)
    requires short { length reply.now ≤ 4096 }
    requires room { REPLY_LINE_BYTES ≤ vec_capacity line.old }
    ensures line { line.new.items ≡ reply_line label reply.now }
    ensures capacity { REPLY_LINE_BYTES ≤ vec_capacity line.new }
{
    line.clear();
    line.extend_from_slice(itoa::Buffer::new().format(label).as_bytes())
        .unwrap();
    line.push_reserved(b' ');
    push_digits(reply, line);
    line.push_reserved(b'\n');
}

// Appends two digits for each byte, for which there is room.
fn push_digits(bytes: &[u8], line: &mut Vec<u8>)
    requires { vec_len line.old + 2 * length bytes.now ≤ vec_capacity line.old }
    ensures items { line.new.items ≡ line.old.items ++ encode_lower bytes.now }
    ensures len { vec_len line.new ≡ vec_len line.old + 2 * length bytes.now }
    ensures capacity { vec_capacity line.old ≤ vec_capacity line.new }
{
    let mut rest = bytes;
    while !rest.is_empty() {
        let (front, behind) = rest.split_at(rest.len().min(ENCODED_BYTES));
        push_front(front, line);
        rest = behind;
    }
}

// The same of a few bytes.
fn push_front(bytes: &[u8], line: &mut Vec<u8>)
    requires few { length bytes.now ≤ ENCODED_BYTES }
    requires room { vec_len line.old + 2 * length bytes.now ≤ vec_capacity line.old }
    ensures items { line.new.items ≡ line.old.items ++ encode_lower bytes.now }
    ensures len { vec_len line.new ≡ vec_len line.old + 2 * length bytes.now }
    ensures capacity { vec_capacity line.old ≤ vec_capacity line.new }
{
    let mut room = [0; 2 * ENCODED_BYTES];
    let digits = &mut room[..2 * bytes.len()];
    hex::encode_to_slice(bytes, &mut *digits).unwrap();
    line.extend_from_slice(digits).unwrap();
}
