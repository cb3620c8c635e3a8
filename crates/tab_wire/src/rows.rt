ghost use Rattle.std.specs.Prelude.{◌≡◌, Some, IfSome};
ghost use Rattle.tab_spec.specs.Commands.{row_of};

use tab_spec::{
    CC_CONTEXT_LOAD, CC_CONTEXT_SAVE, CC_CREATE, CC_CREATE_PRIMARY, CC_FLUSH_CONTEXT,
    CC_GET_CAPABILITY, CC_GET_RANDOM, CC_HMAC, CC_LOAD, CC_NV_DEFINE_SPACE, CC_NV_INCREMENT,
    CC_NV_READ, CC_NV_READ_PUBLIC, CC_NV_UNDEFINE_SPACE, CC_NV_WRITE, CC_PCR_EXTEND, CC_PCR_READ,
    CC_POLICY_AUTH_VALUE, CC_POLICY_COMMAND_CODE, CC_POLICY_GET_DIGEST, CC_POLICY_OR,
    CC_POLICY_PASSWORD, CC_POLICY_PCR, CC_POLICY_RESTART, CC_POLICY_SECRET, CC_READ_PUBLIC,
    CC_SELF_TEST, CC_START_AUTH_SESSION, CC_STARTUP, CC_UNSEAL, CommandRow, Kind,
};

/// What is fixed for a command code (Part 3, the table of each command); `None` if the profile has
/// no such command.
pub fn row_of(code: u32) -> Option<CommandRow>
    ensures value { result ≡ row_of code }
    ensures known { IfSome result (λ row. row_of row.code ≡ Some row) }
{
    let (handles, authorized, response_handle) = match code {
        CC_NV_UNDEFINE_SPACE => ([Kind::Owner, Kind::Nv], 1, false),
        CC_NV_DEFINE_SPACE => ([Kind::Owner, Kind::Absent], 1, false),
        CC_CREATE_PRIMARY => ([Kind::Owner, Kind::Absent], 1, true),
        CC_NV_INCREMENT => ([Kind::NvAuth, Kind::Nv], 1, false),
        CC_NV_WRITE => ([Kind::NvAuth, Kind::Nv], 1, false),
        CC_SELF_TEST => ([Kind::Absent, Kind::Absent], 0, false),
        CC_STARTUP => ([Kind::Absent, Kind::Absent], 0, false),
        CC_NV_READ => ([Kind::NvAuth, Kind::Nv], 1, false),
        CC_POLICY_SECRET => ([Kind::Entity, Kind::Policy], 1, false),
        CC_CREATE => ([Kind::Object, Kind::Absent], 1, false),
        CC_HMAC => ([Kind::Object, Kind::Absent], 1, false),
        CC_LOAD => ([Kind::Object, Kind::Absent], 1, true),
        CC_UNSEAL => ([Kind::Object, Kind::Absent], 1, false),
        CC_CONTEXT_LOAD => ([Kind::Absent, Kind::Absent], 0, true),
        CC_CONTEXT_SAVE => ([Kind::Saved, Kind::Absent], 0, false),
        CC_FLUSH_CONTEXT => ([Kind::Absent, Kind::Absent], 0, false),
        CC_NV_READ_PUBLIC => ([Kind::Nv, Kind::Absent], 0, false),
        CC_POLICY_AUTH_VALUE => ([Kind::Policy, Kind::Absent], 0, false),
        CC_POLICY_COMMAND_CODE => ([Kind::Policy, Kind::Absent], 0, false),
        CC_POLICY_OR => ([Kind::Policy, Kind::Absent], 0, false),
        CC_READ_PUBLIC => ([Kind::Object, Kind::Absent], 0, false),
        CC_START_AUTH_SESSION => ([Kind::Null, Kind::Null], 0, true),
        CC_GET_CAPABILITY => ([Kind::Absent, Kind::Absent], 0, false),
        CC_GET_RANDOM => ([Kind::Absent, Kind::Absent], 0, false),
        CC_PCR_READ => ([Kind::Absent, Kind::Absent], 0, false),
        CC_POLICY_PCR => ([Kind::Policy, Kind::Absent], 0, false),
        CC_POLICY_RESTART => ([Kind::Policy, Kind::Absent], 0, false),
        CC_PCR_EXTEND => ([Kind::Pcr, Kind::Absent], 1, false),
        CC_POLICY_GET_DIGEST => ([Kind::Policy, Kind::Absent], 0, false),
        CC_POLICY_PASSWORD => ([Kind::Policy, Kind::Absent], 0, false),
        _ => return None,
    };
    Some(CommandRow {
        code,
        handles,
        authorized,
        response_handle,
    })
}
