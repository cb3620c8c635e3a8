ghost use Rattle.std.specs.Prelude.{◌≡◌, ◌+◌, ◌≤◌, ◌++◌, length, take, drop, true, IfOk};
ghost use Rattle.sha2.specs.Sha256.{sha256};
ghost use Rattle.effect_spec.specs.Objects as objects;
ghost use Rattle.tab_spec.specs.Values as values;
ghost use Rattle.tab_spec.specs.Persist.{drawn};
ghost use Rattle.tab_values.specs.Views.{object_of, public_of};
ghost use Rattle.fx_objects.specs.Views.{Draws, template_of};

use crate::public_area::{hash_of, object_name, public_digest, qualified_name, secret_size};
use crate::template::Template;
use tab_hash::{Sum, kdfa};
use tab_spec::RH_OWNER;
use tab_values::{Object, Persist, Public, SmallBytes, draw, makes_secret};

const PRIMARY_SEED: &[u8] = b"PRIMARY SEED";

const PRIMARY_SECRET: &[u8] = b"PRIMARY SECRET";

// How many bytes a seed has.
const SEED_BYTES: usize = 32;

// The primary object of a template under the owner.
pub(crate) fn primary(p: &Persist, t: &Template) -> Object
    ensures { object_of result ≡ objects.primary p.now (template_of t.now) }
{
    let mut seed = [0; SEED_BYTES];
    primary_bytes(p, PRIMARY_SEED, t, &mut seed);
    let secret = primary_secret(p, t);
    new_object(&RH_OWNER.to_be_bytes(), t, seed, secret)
}

// Bytes of a primary object follow from the device's seed, its public area as it is given, and its
// data.
fn primary_bytes(p: &Persist, label: &[u8], t: &Template, out: &mut [u8])
    requires { length out.old ≤ 32 }
    ensures { out.new ≡ objects.primary_bytes label.now p.now (template_of t.now) (length out.old) }
{
    let public = public_digest(&t.public);
    let content = hash_of(t.sensitive.content.as_slice());
    kdfa(p.seed(), label, &public, &content, out);
}

fn primary_secret(p: &Persist, t: &Template) -> SmallBytes<128>
    ensures { result ≡ objects.primary_secret p.now (template_of t.now) }
{
    if !makes_secret(&t.public) {
        return t.sensitive.content.copied();
    }
    let mut secret = [0; 32];
    let made = &mut secret[..secret_size(&t.public)];
    primary_bytes(p, PRIMARY_SECRET, t, made);
    SmallBytes::of(made).unwrap()
}

// An object of a template, with this seed and secret, under a parent with this qualified Name.
fn new_object(parent: &[u8], t: &Template, seed: [u8; 32], secret: SmallBytes<128>) -> Object
    ensures { object_of result
        ≡ objects.made_object parent.now (public_of t.now.public) t.now.sensitive.auth seed secret }
{
    let public = Public {
        form: t.public.form,
        attributes: t.public.attributes,
        policy: t.public.policy.copied(),
        unique: unique_of(&seed, secret.as_slice()),
    };
    let qualified_name = qualified_name(parent, &object_name(&public));
    Object {
        public,
        auth: t.sensitive.auth.copied(),
        seed,
        secret,
        qualified_name,
    }
}

// The unique field of a public area: the hash of the seed and the secret.
fn unique_of(seed: &[u8], secret: &[u8]) -> SmallBytes<32>
    ensures { result ≡ sha256 (seed.now ++ secret.now) }
{
    let mut sum = Sum::new();
    sum.add(seed);
    sum.add(secret);
    SmallBytes::of(&sum.end()).unwrap()
}

// A child of a template. Its seed is drawn, and its secret where the device makes it. An error is
// the response code of a draw, and changes nothing.
pub(crate) fn child(p: &mut Persist, parent: &Object, t: &Template) -> Result<Object, u32>
    ensures row { Draws result object_of
        (objects.child_of p.old (object_of parent.now) (template_of t.now)) p.old p.new }
    ensures seed { p.new.seed ≡ p.old.seed }
    ensures pcrs { p.new.pcrs ≡ p.old.pcrs }
{
    if makes_secret(&t.public) {
        return child_with_drawn_secret(p, parent, t);
    }
    let bytes = draw_bytes(p, SEED_BYTES)?;
    let secret = t.sensitive.content.copied();
    let seed = seed_of(bytes.as_slice());
    Ok(new_object(&parent.qualified_name, t, seed, secret))
}

// One whose secret is drawn too, together with its seed: so nothing changes where the stream ends
// in between. A seed takes whole words of the stream.
fn child_with_drawn_secret(p: &mut Persist, parent: &Object, t: &Template) -> Result<Object, u32>
    requires { values.makes_secret (public_of t.now.public) ≡ true }
    ensures row { Draws result object_of
        (objects.child_of p.old (object_of parent.now) (template_of t.now)) p.old p.new }
    ensures seed { p.new.seed ≡ p.old.seed }
    ensures pcrs { p.new.pcrs ≡ p.old.pcrs }
{
    let bytes = draw_bytes(p, SEED_BYTES + secret_size(&t.public))?;
    let seed = seed_of(bytes.as_slice());
    let secret = secret_of(bytes.as_slice());
    Ok(new_object(&parent.qualified_name, t, seed, secret))
}

// Draws so many bytes.
fn draw_bytes(p: &mut Persist, size: usize) -> Result<SmallBytes<64>, u32>
    requires { size ≤ 64 }
    ensures row { Draws result (λ bytes. bytes) (drawn p.old size) p.old p.new }
    ensures size { IfOk result (λ bytes. length bytes ≡ size) }
{
    let mut bytes = [0; 64];
    draw(p, &mut bytes[..size])?;
    Ok(SmallBytes::of(&bytes[..size]).unwrap())
}

fn seed_of(bytes: &[u8]) -> [u8; 32]
    requires { 32 ≤ length bytes.now }
    ensures { result ≡ take 32 bytes.now }
{
    let mut seed = [0; SEED_BYTES];
    seed.copy_from_slice(&bytes[..SEED_BYTES]);
    seed
}

fn secret_of(bytes: &[u8]) -> SmallBytes<128>
    requires seed { 32 ≤ length bytes.now }
    requires most { length bytes.now ≤ 64 }
    ensures { result ≡ drop 32 bytes.now }
{
    SmallBytes::of(&bytes[SEED_BYTES..]).unwrap()
}
