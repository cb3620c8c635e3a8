//! Values of TPM 2.0 as this profile has them: public areas, secrets, NV indexes, selections of
//! PCRs, objects, sessions, and what a device keeps. The fields of these, and of their contexts,
//! are those of `tab_fields`.
#![tactic(auto)]

mod digest;
mod fields;
mod nv_index;
mod object;
mod parameters;
mod persist;
mod public;
mod selection;
mod session;

pub use digest::selected_digest;
pub use nv_index::NvIndex;
pub use object::{Object, object_octets, read_object};
pub use parameters::Parameters;
pub use persist::{Persist, draw};
pub use public::{
    NvPublic, Public, Sensitive, makes_secret, nv_public_octets, public_octets, signs,
    write_sized_public,
};
pub use selection::{PcrSelection, is_selected, selection_octets, write_selection};
pub use session::{Session, is_set_to_another, read_session, session_octets};
pub use tab_fields::{
    Context, SmallBytes, add_sized, end_parameters, in_handle, in_parameter, put_sized, read_auth,
    read_context, read_sized, read_sized_exactly, without_zeros,
};
pub use tab_spec::{AuthNeeded, OBJECT_USER_WITH_AUTH as USER_WITH_AUTH, SessionKind};
