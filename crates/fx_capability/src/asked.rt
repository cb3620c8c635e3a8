ghost use Rattle.std.specs.Prelude.{◌≡◌, Ok, Err, MatchResult};
ghost use Rattle.tab_spec.specs.Parameters.{when_read};
ghost use Rattle.effect_spec.specs.Capabilities as capabilities;
ghost use Rattle.fx_capability.specs.Views.{asked_of};
ghost use Rattle.tab_values.specs.Views.{TookValue};

use tab_bytes::Reader;
use tab_spec::RC_INSUFFICIENT;
use tab_values::{end_parameters, in_parameter};

/// What is asked for: a capability, from which property on, and how many items at most (Part 3,
/// "TPM2_GetCapability").
#[derive(Clone, Copy)]
pub(crate) struct Asked {
    pub capability: u32,
    pub property: u32,
    pub count: u32,
}

/// Reads the three parameters, and nothing after them. The error is the response code of the first
/// fault.
pub(crate) fn read_whole(params: &[u8]) -> Result<Asked, u32>
    ensures { MatchResult result
        (λ asked. when_read (capabilities.asked_of params.now) (λ a. Ok a) ≡ Ok (asked_of asked))
        (λ code. when_read (capabilities.asked_of params.now) (λ a. Ok a) ≡ Err code) }
{
    let mut reader = Reader::new(params);
    let asked = read_asked(&mut reader)?;
    end_parameters(&reader)?;
    Ok(asked)
}

// Reads the three parameters. The error is the response code of the first one that has too few
// bytes.
fn read_asked(r: &mut Reader) -> Result<Asked, u32>
    ensures { TookValue asked_of result r.new (capabilities.asked_of r.old) }
{
    let capability = r.take_u32().ok_or(in_parameter(1, RC_INSUFFICIENT))?;
    let property = r.take_u32().ok_or(in_parameter(2, RC_INSUFFICIENT))?;
    let count = r.take_u32().ok_or(in_parameter(3, RC_INSUFFICIENT))?;
    Ok(Asked {
        capability,
        property,
        count,
    })
}
