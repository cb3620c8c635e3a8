ghost use Rattle.std.specs.Prelude.{◌≡◌, ◌+◌, ◌≤◌, [], ◌++◌, not, length, take, drop, Ok, Err};
ghost use Rattle.std.specs.Prelude.{if◌then◌else◌};
ghost use Rattle.std.specs.Int.{w16, w32, from_be_bytes, to_be_bytes};
ghost use Rattle.tab_spec.specs.Frame.{is_frame, tag_of, size_of, code_of, reported_code};
ghost use Rattle.tab_spec.specs.Reply.{response, error_reply, response_handle_of};
ghost use Rattle.tab_spec.specs.Reply.{with_response_handle};

use tab_bytes::Buffer;
use tab_spec::{HEADER_BYTES, MOST_BYTES, RC_BAD_TAG, ST_NO_SESSIONS, ST_RSP_COMMAND};

/// Whether the bytes are exactly one frame: 10 to 4,096 bytes, whose size field is their number
/// (Part 1, "Command/Response Structure").
pub fn is_frame(bytes: &[u8]) -> bool
    ensures { result ≡ is_frame bytes.now }
{
    bytes.len() >= HEADER_BYTES as usize
        && bytes.len() <= MOST_BYTES as usize
        && size_of(bytes) as usize == bytes.len()
}

/// The tag of a command or a response.
pub fn tag_of(bytes: &[u8]) -> u16
    requires { 2 ≤ length bytes.now }
    ensures { result ≡ tag_of bytes.now }
{
    u16::from_be_bytes([bytes[0], bytes[1]])
}

/// The size field of a command or a response.
pub fn size_of(bytes: &[u8]) -> u32
    requires { 6 ≤ length bytes.now }
    ensures { result ≡ size_of bytes.now }
{
    u32::from_be_bytes([bytes[2], bytes[3], bytes[4], bytes[5]])
}

/// The command code of a command, or the response code of a response.
pub fn code_of(bytes: &[u8]) -> u32
    requires { 10 ≤ length bytes.now }
    ensures { result ≡ code_of bytes.now }
{
    u32::from_be_bytes([bytes[6], bytes[7], bytes[8], bytes[9]])
}

// The UINT16 at a place.
pub(crate) fn u16_at(bytes: &[u8], at: usize) -> u16
    requires { at + 2 ≤ length bytes.now }
    ensures { result ≡ from_be_bytes w16 (take 2 (drop at bytes.now)) }
{
    u16::from_be_bytes([bytes[at], bytes[at + 1]])
}

// The UINT32 at a place.
pub(crate) fn u32_at(bytes: &[u8], at: usize) -> u32
    requires { at + 4 ≤ length bytes.now }
    ensures { result ≡ from_be_bytes w32 (take 4 (drop at bytes.now)) }
{
    u32::from_be_bytes([bytes[at], bytes[at + 1], bytes[at + 2], bytes[at + 3]])
}

/// The code that a wrong answer of a device is reported by: its own, or 0 where it has no whole
/// header. The project's own.
pub fn reported_code(response: &[u8]) -> u32
    ensures { result ≡ reported_code response.now }
{
    if response.len() < HEADER_BYTES as usize {
        return 0;
    }
    code_of(response)
}

/// Overwrites the buffer with the response of ten bytes that reports an error.
pub fn error_reply(code: u32, reply: &mut Buffer)
    ensures { reply.new ≡ error_reply code }
{
    let tag = if code == RC_BAD_TAG {
        ST_RSP_COMMAND
    } else {
        ST_NO_SESSIONS
    };
    start_response(tag, code, reply);
}

/// Writes the header of a response, over whatever the buffer holds. Its size is that of the header
/// alone until [`end_response`] sets it.
pub fn start_response(tag: u16, code: u32, reply: &mut Buffer)
    ensures { reply.new ≡ response tag code [] }
{
    reply.clear();
    reply.put_u16(tag).unwrap();
    reply.put_u32(HEADER_BYTES).unwrap();
    reply.put_u32(code).unwrap();
}

/// Sets the size of a response that was begun by [`start_response`] and whose body was appended.
pub fn end_response(reply: &mut Buffer)
    requires { 10 ≤ length reply.old }
    ensures { reply.new
        ≡ take 2 reply.old ++ to_be_bytes w32 (length reply.old) ++ drop 6 reply.old }
{
    let size = reply.as_slice().len() as u32;
    reply.set_u32(2, size);
}

/// The handle of a response that has one (Part 1, "Response Handle Area"): bytes 10 to 13; `None`
/// if there are fewer than 14 bytes.
pub fn response_handle(bytes: &[u8]) -> Option<u32>
    ensures { result ≡ response_handle_of bytes.now }
{
    if bytes.len() < 14 {
        return None;
    }
    Some(u32::from_be_bytes([bytes[10], bytes[11], bytes[12], bytes[13]]))
}

/// Writes another handle into a response that has one.
pub fn set_response_handle(reply: &mut Buffer, handle: u32)
    requires { 14 ≤ length reply.old }
    ensures { reply.new ≡ with_response_handle reply.old handle }
{
    reply.set_u32(10, handle);
}
