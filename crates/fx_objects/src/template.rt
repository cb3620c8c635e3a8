ghost use Rattle.std.specs.Prelude.{◌≡◌};
ghost use Rattle.effect_spec.specs.Objects as objects;
ghost use Rattle.tab_values.specs.Views.{TookValue};
ghost use Rattle.fx_objects.specs.Views.{template_of};

use tab_values::{Parameters, PcrSelection, Public, Sensitive, SmallBytes, makes_secret};

// What is to be created: its secret, its public area, outsideInfo, and the PCRs that its creation
// data hold.
#[derive(Drop)]
pub(crate) struct Template {
    pub(crate) sensitive: Sensitive,
    pub(crate) public: Public,
    pub(crate) outside: SmallBytes<64>,
    pub(crate) selection: PcrSelection,
}

// The parameters of CreatePrimary and of Create (Part 3).
pub(crate) fn read_template(given: &mut Parameters) -> Result<Template, u32>
    requires { given.old.number ≡ 1 }
    ensures { TookValue template_of result given.new.bytes (objects.template_of given.old.bytes) }
{
    let sensitive = given.sensitive()?;
    let public = given.public()?;
    let outside = SmallBytes::of(given.sized(64)?).unwrap();
    let selection = given.selection()?;
    Ok(Template {
        sensitive,
        public,
        outside,
        selection,
    })
}

// Whether data is given exactly where the device doesn't make the secret.
pub(crate) fn data_fits(t: &Template) -> bool
    ensures { result ≡ objects.data_fits (template_of t.now) }
{
    let is_empty = t.sensitive.content.as_slice().is_empty();
    is_empty == makes_secret(&t.public)
}
