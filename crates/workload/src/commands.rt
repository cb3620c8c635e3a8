//! The commands of a workload (TPM 2.0 Library Specification, Part 3), as this project's own script
//! takes them.

ghost use Rattle.std.specs.Prelude.{◌≡◌, ◌≤◌, ◌<◌, ◌+◌, length};
ghost use Rattle.tab_spec.specs.Reply.{response};
ghost use Rattle.script_spec.specs.Workload.{objects_parameters, password_command, plain_command};
ghost use Rattle.script_spec.specs.Workload.{policy_session_parameters, workload_command};
ghost use Rattle.script_spec.specs.Workload.{zeros_parameters};

use tab_fields::SmallBytes;
use tab_spec::{
    CC_CREATE_PRIMARY, CC_FLUSH_CONTEXT, CC_GET_CAPABILITY, CC_GET_RANDOM, CC_PCR_EXTEND,
    CC_POLICY_GET_DIGEST, CC_READ_PUBLIC, CC_START_AUTH_SESSION, HEADER_BYTES, RH_NULL, RH_OWNER,
    RS_PW, ST_NO_SESSIONS, ST_SESSIONS, TRANSIENT_FIRST,
};

// The parameters of CreatePrimary for an HMAC key: an empty auth value and no data, a keyed hash
// that signs by HMAC with SHA-256, no outside information and no PCR.
const HMAC_KEY_PARAMETERS: [u8; 30] = [
    0, 4, 0, 0, 0, 0, 0, 16, 0, 0x08, 0, 0x0b, 0, 0x04, 0, 0x72, 0, 0, 0, 0x05, 0, 0x0b, 0, 0, 0,
    0, 0, 0, 0, 0,
];

/// The command that a choice below 8 and a number stand for: its bytes, 65 at most.
pub fn command_of(choice: u32, number: u32) -> SmallBytes<65>
    requires { choice < 8 }
    ensures same { result ≡ workload_command choice number }
    ensures most { length result ≤ 65 }
{
    match choice {
        0 => plain_command(CC_GET_RANDOM, &((number % 33) as u16).to_be_bytes()),
        1 => password_command(CC_CREATE_PRIMARY, RH_OWNER, &HMAC_KEY_PARAMETERS),
        2 => plain_command(
            CC_READ_PUBLIC,
            &(TRANSIENT_FIRST + number % 6).to_be_bytes(),
        ),
        3 => plain_command(
            CC_START_AUTH_SESSION,
            policy_session_parameters().as_slice(),
        ),
        4 => plain_command(
            CC_FLUSH_CONTEXT,
            &(TRANSIENT_FIRST + number % 6).to_be_bytes(),
        ),
        5 => plain_command(
            CC_POLICY_GET_DIGEST,
            &(0x0300_0000 + number % 64).to_be_bytes(),
        ),
        6 => plain_command(CC_GET_CAPABILITY, objects_parameters().as_slice()),
        _ => password_command(CC_PCR_EXTEND, number % 24, zeros_parameters().as_slice()),
    }
}

// A command without authorizations.
fn plain_command(code: u32, parameters: &[u8]) -> SmallBytes<65>
    requires { length parameters.now ≤ 55 }
    ensures same { result ≡ plain_command code parameters.now }
    ensures most { length result ≤ 65 }
{
    framed(ST_NO_SESSIONS, code, parameters)
}

// A command whose one handle is authorized by the empty password.
fn password_command(code: u32, handle: u32, parameters: &[u8]) -> SmallBytes<65>
    requires { length parameters.now ≤ 38 }
    ensures same { result ≡ password_command code handle parameters.now }
    ensures most { length result ≤ 65 }
{
    let mut body: SmallBytes<55> = SmallBytes::new();
    body.add(&handle.to_be_bytes());
    body.add(&u32::to_be_bytes(9));
    body.add(&RS_PW.to_be_bytes());
    body.add(&[0; 5]);
    body.add(parameters);
    framed(ST_SESSIONS, code, body.as_slice())
}

// Tag, size, code, and what follows them.
fn framed(tag: u16, code: u32, body: &[u8]) -> SmallBytes<65>
    requires { length body.now ≤ 55 }
    ensures same { result ≡ response tag code body.now }
    ensures most { length result ≤ 65 }
{
    let mut command: SmallBytes<65> = SmallBytes::new();
    command.add(&tag.to_be_bytes());
    command.add(&(HEADER_BYTES + body.len() as u32).to_be_bytes());
    command.add(&code.to_be_bytes());
    command.add(body);
    command
}

// The parameters of StartAuthSession for a policy session with a nonce of 32 zeros.
fn policy_session_parameters() -> SmallBytes<55>
    ensures same { result ≡ policy_session_parameters }
    ensures most { length result ≤ 55 }
{
    let mut parameters = SmallBytes::new();
    parameters.add(&RH_NULL.to_be_bytes());
    parameters.add(&RH_NULL.to_be_bytes());
    parameters.add(&[0, 32]);
    parameters.add(&[0; 32]);
    parameters.add(&[0, 0, 1, 0, 0x10, 0, 0x0b]);
    parameters
}

// Those of GetCapability for the transient handles, up to 254.
fn objects_parameters() -> SmallBytes<55>
    ensures same { result ≡ objects_parameters }
    ensures most { length result ≤ 55 }
{
    let mut parameters = SmallBytes::new();
    parameters.add(&u32::to_be_bytes(1));
    parameters.add(&TRANSIENT_FIRST.to_be_bytes());
    parameters.add(&u32::to_be_bytes(254));
    parameters
}

// Those of PCR_Extend by 32 zeros.
fn zeros_parameters() -> SmallBytes<55>
    ensures same { result ≡ zeros_parameters }
    ensures most { length result ≤ 38 }
{
    let mut parameters = SmallBytes::new();
    parameters.add(&u32::to_be_bytes(1));
    parameters.add(&[0, 0x0b]);
    parameters.add(&[0; 32]);
    parameters
}
