ghost use Rattle.std.specs.Prelude.{◌≡◌, ◌≢◌, ◌+◌, ◌*◌, ◌<◌, ◌≤◌, length, MatchResult};

use tab_bytes::Reader;
use tab_spec::{RC_1, RC_P, RC_SIZE};

/// The response code of a fault of the parameter with this number, from 1, by its bare code (Part
/// 2, "Format-One Response Codes").
pub fn in_parameter(number: u32, code: u32) -> u32
    requires number { number ≤ 7 }
    requires bare { code < 256 }
    ensures { result ≡ code + RC_P + RC_1 * number }
{
    code + RC_P + RC_1 * number
}

/// The response code of a fault of the handle with this number, from 1, by its bare code (Part 2,
/// "Format-One Response Codes").
pub fn in_handle(number: u32, code: u32) -> u32
    requires number { number ≤ 7 }
    requires bare { code < 256 }
    ensures { result ≡ code + RC_1 * number }
{
    code + RC_1 * number
}

/// Tests that nothing follows the last parameter. The error is SIZE, of no parameter.
pub fn end_parameters(r: &Reader) -> Result<(), u32>
    ensures { MatchResult result (λ u. length r.now ≡ 0)
        (λ code. (length r.now ≢ 0) × (code ≡ RC_SIZE)) }
{
    if r.rest().is_empty() {
        return Ok(());
    }
    Err(RC_SIZE)
}
