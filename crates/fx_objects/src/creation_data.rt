ghost use Rattle.std.specs.Prelude.{◌≡◌, ◌+◌, ◌≤◌, [], ◌∷◌, ◌++◌, length};
ghost use Rattle.std.specs.Int.{w32, to_be_bytes};
ghost use Rattle.sha2.specs.Sha256.{sha256};
ghost use Rattle.tab_spec.specs.Hash.{hmac};
ghost use Rattle.effect_spec.specs.Objects as objects;
ghost use Rattle.tab_spec.specs.Persist as persists;
ghost use Rattle.tab_spec.specs.Values.{sized_bytes, selection_bytes};
ghost use Rattle.tab_values.specs.Views.{object_of, public_of, selection_of};
ghost use Rattle.fx_objects.specs.Views.{parentage_of, template_of};

use crate::public_area::{hash_of, object_name, put_public};
use crate::template::Template;
use tab_bytes::Buffer;
use tab_hash::{Mac, kdfa};
use tab_spec::{ALG_NULL, ALG_SHA256, RH_OWNER};
use tab_values::{
    Object, PcrSelection, Persist, Public, SmallBytes, put_sized, selected_digest, write_selection,
};

const PROOF: &[u8] = b"PROOF";

// TPM_ST_CREATION (Part 2, "TPM_ST").
const ST_CREATION: u16 = 0x8021;

// Under which parent an object was created: the algorithm of its Name, its Name, and its qualified
// Name (Part 2, "TPMS_CREATION_DATA").
#[derive(Drop)]
pub(crate) struct Parentage {
    algorithm: u16,
    name: SmallBytes<34>,
    qualified_name: SmallBytes<34>,
}

// That of a primary object.
pub(crate) fn owner_parentage() -> Parentage
    ensures { parentage_of result ≡ objects.under_owner }
{
    Parentage {
        algorithm: ALG_NULL,
        name: SmallBytes::of(&RH_OWNER.to_be_bytes()).unwrap(),
        qualified_name: SmallBytes::of(&RH_OWNER.to_be_bytes()).unwrap(),
    }
}

// That of a child of this object.
pub(crate) fn object_parentage(parent: &Object) -> Parentage
    ensures { parentage_of result ≡ objects.under (object_of parent.now) }
{
    Parentage {
        algorithm: ALG_SHA256,
        name: SmallBytes::of(&object_name(&parent.public)).unwrap(),
        qualified_name: SmallBytes::of(&parent.qualified_name).unwrap(),
    }
}

// Appends the response parameters that CreatePrimary and Create share: the public area, the
// creation data, their hash, and the creation ticket.
pub(crate) fn put_creation(
    p: &Persist,
    parent: &Parentage,
    t: &Template,
    public: &Public,
    reply: &mut Buffer,
)
    requires { length reply.old + 400 ≤ 4096 }
    ensures put { reply.new ≡ reply.old ++ objects.created p.now (parentage_of parent.now)
        (template_of t.now) (public_of public.now) }
    ensures most { length reply.new ≤ length reply.old + 400 }
{
    put_public(public, reply);
    let hash = put_creation_data(p, parent, t, reply);
    put_sized(&hash, reply).unwrap();
    put_ticket(p, public, &hash, reply);
}

// Appends the creation data as a TPM2B, and returns their hash.
fn put_creation_data(p: &Persist, parent: &Parentage, t: &Template, reply: &mut Buffer) -> [u8; 32]
    requires { length reply.old + 200 ≤ 4096 }
    ensures put { reply.new
        ≡ reply.old
        ++ sized_bytes (objects.creation_data p.now (parentage_of parent.now) (template_of t.now)) }
    ensures hash { result
        ≡ sha256 (objects.creation_data p.now (parentage_of parent.now) (template_of t.now)) }
    ensures most { length reply.new ≤ length reply.old + 200 }
{
    let size = creation_size(parent, t);
    reply.put_u16(size).unwrap();
    let start = reply.as_slice().len();
    put_creation_fields(p, parent, t, reply);
    hash_of(&reply.as_slice()[start..])
}

fn creation_size(parent: &Parentage, t: &Template) -> u16
    ensures size { (persist : persists.Persist)
        → result
        ≡ length (objects.creation_data persist (parentage_of parent.now) (template_of t.now)) }
    ensures most { result ≤ 190 }
{
    let selection = selection_size(t.selection);
    let name = parent.name.as_slice().len() as u16;
    let qualified_name = parent.qualified_name.as_slice().len() as u16;
    let outside = t.outside.as_slice().len() as u16;
    // The digest of the PCRs as a TPM2B, the locality, the algorithm and three sizes take 43.
    selection + 43 + name + qualified_name + outside
}

fn selection_size(selection: PcrSelection) -> u16
    ensures size { result ≡ length (selection_bytes (selection_of selection)) }
    ensures most { result ≤ 10 }
{
    match selection.bits {
        Some(_) => 10,
        None => 4,
    }
}

fn put_creation_fields(p: &Persist, parent: &Parentage, t: &Template, reply: &mut Buffer)
    requires { length reply.old + 198 ≤ 4096 }
    ensures { reply.new
        ≡ reply.old ++ objects.creation_data p.now (parentage_of parent.now) (template_of t.now) }
{
    put_selection(t.selection, reply);
    put_sized(&selected_digest(p, t.selection), reply).unwrap();
    // The locality of the command is 0, whose bit is the lowest.
    reply.put_u8(1).unwrap();
    reply.put_u16(parent.algorithm).unwrap();
    put_sized(parent.name.as_slice(), reply).unwrap();
    put_sized(parent.qualified_name.as_slice(), reply).unwrap();
    put_sized(t.outside.as_slice(), reply).unwrap();
}

fn put_selection(selection: PcrSelection, reply: &mut Buffer)
    requires { length reply.old + 10 ≤ 4096 }
    ensures put { reply.new ≡ reply.old ++ selection_bytes (selection_of selection) }
    ensures most { length reply.new ≤ length reply.old + 10 }
{
    write_selection(&selection, reply).unwrap();
}

// Appends the ticket by which the device authenticates the creation with this hash (Part 2,
// "TPMT_TK_CREATION").
fn put_ticket(p: &Persist, public: &Public, hash: &[u8], reply: &mut Buffer)
    requires { length reply.old + 40 ≤ 4096 }
    ensures put { reply.new ≡ reply.old ++ (0x80 ∷ 0x21 ∷ [] ++ to_be_bytes w32 RH_OWNER
        ++ sized_bytes (hmac (objects.proof_of p.now)
        (0x80 ∷ 0x21 ∷ [] ++ objects.object_name (public_of public.now) ++ hash.now))) }
    ensures most { length reply.new ≤ length reply.old + 40 }
{
    let mut proof = [0; 32];
    kdfa(p.seed(), PROOF, &[], &[], &mut proof);
    let mut mac = Mac::new(&proof);
    mac.add(&ST_CREATION.to_be_bytes());
    mac.add(&object_name(public));
    mac.add(hash);
    reply.put_u16(ST_CREATION).unwrap();
    reply.put_u32(RH_OWNER).unwrap();
    put_sized(&mac.end(), reply).unwrap();
}
