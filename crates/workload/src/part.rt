ghost use Rattle.std.specs.Prelude.{◌≡◌};
ghost use Rattle.workload.specs.Reading.{byte_of, part_by};

/// What comes next in the lines of replies.
#[derive(Clone, Copy)]
pub enum Part {
    /// The label, or the space behind it.
    Label,
    /// The first digit of a byte, or the newline.
    High,
    /// The second digit, behind this first one.
    Low(u8),
}

impl Part {
    /// What comes next behind a byte of these lines.
    pub fn after(self, byte: u8) -> Part
        ensures { result ≡ part_by self byte }
    {
        match self {
            Part::Label if byte == b' ' => Part::High,
            Part::Label => Part::Label,
            Part::High if byte == b'\n' => Part::Label,
            Part::High => Part::Low(byte),
            Part::Low(_) => Part::High,
        }
    }
}

/// The byte that two hexadecimal digits spell; 0 where they aren't digits.
pub fn byte_of(high: u8, low: u8) -> u8
    ensures { result ≡ byte_of high low }
{
    let mut byte = [0];
    match hex::decode_to_slice(&[high, low], &mut byte) {
        Ok(()) => byte[0],
        Err(_) => 0,
    }
}
