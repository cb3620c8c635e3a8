ghost use Rattle.std.specs.Prelude.{◌≡◌, ◌≢◌, ◌+◌, ◌*◌, ◌<◌, ◌≤◌, ℕ, nat_le, length, Ok, Err, true};
ghost use Rattle.std.specs.Prelude.{IfOk, IfErr, MatchResult};
ghost use Rattle.tab_spec.specs.Values.{number8, number16, number32, sized, require, enclosed};
ghost use Rattle.tab_spec.specs.Values.{auth_of, public_of, nv_public_of, sensitive_of};
ghost use Rattle.tab_spec.specs.Values.{selection_of, is_policy, is_nv_size};
ghost use Rattle.tab_spec.specs.declared.TheConstants.{RC_P, RC_1};
ghost use Rattle.tab_values.specs.Taking.{TookParameter};
ghost use Rattle.tab_values.specs.Views as shown;

use crate::public::{
    NvPublic, Public, Sensitive, read_sized_nv_public, read_sized_public, read_sized_sensitive,
};
use crate::selection::{PcrSelection, read_selection};
use std::marker::Model;
use tab_bytes::Reader;
use tab_fields::{SmallBytes, end_parameters, in_parameter, read_auth};
use tab_spec::{RC_INSUFFICIENT, RC_SIZE};

/// The parameters of a command, read one after the other (Part 3, "Command Tables"). It numbers
/// them itself, from 1, so each error is the response code with the number of its parameter:
/// INSUFFICIENT where there are too few bytes, or the code that the call names. After an error it
/// stands anywhere.
#[derive(Drop)]
pub struct Parameters<'a> {
    // The number of the next one.
    number: u32,
    left: Reader<'a>,
}

impl<'a> Model for Parameters<'a> {
    ghost use Rattle.tab_values.specs.Taking.{Unread};

    ghost Value = { Unread };

    ghost view = { λ p. record { number = p.number; bytes = p.left } };
}

impl<'a> Parameters<'a> {
    /// Those of a command, from the first one on.
    pub fn new(params: &'a [u8]) -> Parameters<'a>
        ensures { result ≡ record { number = 1; bytes = params.now } }
    {
        Parameters {
            number: 1,
            left: Reader::new(params),
        }
    }

    /// Reads a BYTE.
    pub fn u8(&mut self) -> Result<u8, u32>
        requires { self.old.number ≤ 7 }
        ensures { TookParameter (λ value. value) result self.old
            (number8 RC_INSUFFICIENT self.old.bytes) self.new }
    {
        let Some(value) = self.left.take_u8() else {
            return Err(in_parameter(self.number, RC_INSUFFICIENT));
        };
        self.number += 1;
        Ok(value)
    }

    /// Reads a UINT16.
    pub fn u16(&mut self) -> Result<u16, u32>
        requires { self.old.number ≤ 7 }
        ensures { TookParameter (λ value. value) result self.old
            (number16 RC_INSUFFICIENT self.old.bytes) self.new }
    {
        let Some(value) = self.left.take_u16() else {
            return Err(in_parameter(self.number, RC_INSUFFICIENT));
        };
        self.number += 1;
        Ok(value)
    }

    /// Reads a UINT32.
    pub fn u32(&mut self) -> Result<u32, u32>
        requires { self.old.number ≤ 7 }
        ensures { TookParameter (λ value. value) result self.old
            (number32 RC_INSUFFICIENT self.old.bytes) self.new }
    {
        let Some(value) = self.left.take_u32() else {
            return Err(in_parameter(self.number, RC_INSUFFICIENT));
        };
        self.number += 1;
        Ok(value)
    }

    /// Reads a TPM2B (Part 2, "TPM2B Types"). The error is SIZE where it has more than so many
    /// bytes.
    pub fn sized(&mut self, most: usize) -> Result<&'a [u8], u32>
        requires { self.old.number ≤ 7 }
        ensures took { TookParameter (λ bytes. bytes.now) result self.old
            (require (λ bytes. nat_le (length bytes) most) RC_SIZE
            (sized RC_INSUFFICIENT self.old.bytes)) self.new }
        ensures most { IfOk result (λ bytes. length bytes.now ≤ most) }
    {
        let Some(bytes) = self.left.tpm2b() else {
            return Err(in_parameter(self.number, RC_INSUFFICIENT));
        };
        if bytes.len() > most {
            return Err(in_parameter(self.number, RC_SIZE));
        }
        self.number += 1;
        Ok(bytes)
    }

    /// Reads a digest in a TPM2B, which may be empty. The error is SIZE where it has neither 0 nor
    /// 32 bytes.
    pub fn digest(&mut self) -> Result<&'a [u8], u32>
        requires { self.old.number ≤ 7 }
        ensures took { TookParameter (λ digest. digest.now) result self.old
            (require is_policy RC_SIZE (sized RC_INSUFFICIENT self.old.bytes)) self.new }
        ensures most { IfOk result (λ digest. length digest.now ≤ 32) }
    {
        let Some(digest) = self.left.tpm2b() else {
            return Err(in_parameter(self.number, RC_INSUFFICIENT));
        };
        if !digest.is_empty() && digest.len() != 32 {
            return Err(in_parameter(self.number, RC_SIZE));
        }
        self.number += 1;
        Ok(digest)
    }

    /// Reads an auth value without its trailing zeros. The error is SIZE where it has more than 32
    /// bytes.
    pub fn auth(&mut self) -> Result<SmallBytes<32>, u32>
        requires { self.old.number ≤ 7 }
        ensures took { TookParameter (λ auth. auth) result self.old
            (auth_of RC_INSUFFICIENT self.old.bytes) self.new }
        ensures short { IfOk result (λ auth. length auth ≤ 32) }
    {
        let number = self.number;
        let auth = read_auth(&mut self.left, RC_INSUFFICIENT);
        let auth = auth.map_err(|code| in_parameter(number, code))?;
        self.number += 1;
        Ok(auth)
    }

    /// Reads a selection of PCRs, with the errors of [`read_selection`].
    pub fn selection(&mut self) -> Result<PcrSelection, u32>
        requires { self.old.number ≤ 7 }
        ensures { TookParameter shown.selection_of result self.old
            (selection_of self.old.bytes) self.new }
    {
        let number = self.number;
        let selection = read_selection(&mut self.left);
        let selection = selection.map_err(|code| in_parameter(number, code))?;
        self.number += 1;
        Ok(selection)
    }

    /// Reads the public area of an object in a TPM2B, with the errors of [`read_sized_public`].
    pub fn public(&mut self) -> Result<Public, u32>
        requires { self.old.number ≤ 7 }
        ensures { TookParameter shown.public_of result self.old
            (enclosed public_of RC_INSUFFICIENT self.old.bytes) self.new }
    {
        let number = self.number;
        let public = read_sized_public(&mut self.left, RC_INSUFFICIENT);
        let public = public.map_err(|code| in_parameter(number, code))?;
        self.number += 1;
        Ok(public)
    }

    /// Reads what is wished for of an object's secret part, in a TPM2B, with the errors of
    /// [`read_sensitive`] and SIZE where bytes are left in the TPM2B.
    pub fn sensitive(&mut self) -> Result<Sensitive, u32>
        requires { self.old.number ≤ 7 }
        ensures { TookParameter shown.sensitive_of result self.old
            (enclosed sensitive_of RC_INSUFFICIENT self.old.bytes) self.new }
    {
        let number = self.number;
        let sensitive = read_sized_sensitive(&mut self.left, RC_INSUFFICIENT);
        let sensitive = sensitive.map_err(|code| in_parameter(number, code))?;
        self.number += 1;
        Ok(sensitive)
    }

    /// Reads the public area of an NV index in a TPM2B, with the errors of [`read_nv_public`] and
    /// SIZE where bytes are left in the TPM2B.
    pub fn nv_public(&mut self) -> Result<NvPublic, u32>
        requires { self.old.number ≤ 7 }
        ensures took { TookParameter shown.nv_public_of result self.old
            (enclosed nv_public_of RC_INSUFFICIENT self.old.bytes) self.new }
        ensures policy { IfOk result (λ p. is_policy p.policy ≡ true) }
        ensures size { IfOk result (λ p. is_nv_size p.attributes p.size ≡ true) }
    {
        let number = self.number;
        let public = read_sized_nv_public(&mut self.left, RC_INSUFFICIENT);
        let public = public.map_err(|code| in_parameter(number, code))?;
        self.number += 1;
        Ok(public)
    }

    /// A reader of the next parameter, for a structure that has no call here. [`Parameters::close`]
    /// goes on after it.
    pub fn reader(&self) -> Reader<'a>
        ensures { result ≡ self.now.bytes }
    {
        Reader::new(self.left.rest())
    }

    /// Goes on after the structure that was read with this reader, or turns its bare code into the
    /// response code of the parameter.
    pub fn close<T>(&mut self, reader: Reader<'a>, read: Result<T, u32>) -> Result<T, u32>
        requires number { self.old.number ≤ 7 }
        requires bare { IfErr read (λ code. code < 256) }
        ensures { MatchResult result
            (λ value. (read ≡ Ok value)
            × (self.new ≡ record { number = self.old.number + 1; bytes = reader.entry }))
            (λ code. (bare : ℕ) × (read ≡ Err bare)
            × (code ≡ bare + RC_P + RC_1 * self.old.number)) }
    {
        match read {
            Ok(value) => {
                self.left = reader;
                self.number += 1;
                Ok(value)
            }
            Err(code) => Err(in_parameter(self.number, code)),
        }
    }

    /// Tests that nothing follows the last parameter. The error is SIZE, of no parameter.
    pub fn end(self) -> Result<(), u32>
        ensures { MatchResult result (λ u. length self.entry.bytes ≡ 0)
            (λ code. (length self.entry.bytes ≢ 0) × (code ≡ RC_SIZE)) }
    {
        end_parameters(&self.left)
    }
}
