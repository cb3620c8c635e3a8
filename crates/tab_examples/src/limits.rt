//! Worked examples of the limits of frames, handles, authorizations, PCRs, the random stream and
//! lists.

ghost use Rattle.std.specs.List.{filter, range_with_len};
ghost use Rattle.std.specs.Prelude.{◌≡◌, ◌+◌, ◌-◌, ◌*◌, ◌^◌, ◌∷◌, [], map, true, Err, is_ok};
ghost use Rattle.tab_spec.specs.declared.Kind.TheVariants.{Owner, Pcr, Nv, NvAuth, Object, Policy};
ghost use Rattle.tab_spec.specs.declared.Kind.TheVariants.{Entity, Saved, Null};
ghost use Rattle.tab_spec.specs.Frame.{is_size};
ghost use Rattle.tab_spec.specs.Shape.{is_of_kind, kind_code};
ghost use Rattle.tab_spec.specs.Persist.{drawn, words_for};
ghost use Rattle.tab_examples.specs.Examples.{with_indexes};

// A frame of 10 to 4,096 bytes.
fn frames_have_limits()
    ensures sizes { filter is_size (0 ∷ 9 ∷ 10 ∷ 4096 ∷ 4097 ∷ 0xffffffff ∷ []) ≡ 10 ∷ 4096 ∷ [] }
{}

// The first and the last handle of a kind: of the owner, of null, of PCRs and of indexes.
fn handles_are_of_their_kinds()
    ensures owner { filter (is_of_kind Owner)
        (0x40000000 ∷ 0x40000001 ∷ 0x40000007 ∷ 0x40000009 ∷ 0x4000000c ∷ [])
        ≡ 0x40000001 ∷ [] }
    ensures null { filter (is_of_kind Null)
        (0x40000000 ∷ 0x40000001 ∷ 0x40000007 ∷ 0x40000009 ∷ 0x4000000c ∷ [])
        ≡ 0x40000007 ∷ [] }
    ensures pcr { filter (is_of_kind Pcr) (range_with_len 0 32) ≡ range_with_len 0 24 }
    ensures index { filter (λ octet. is_of_kind Nv (octet * 2 ^ 24 + 255)) (range_with_len 0 256)
        ≡ 1 ∷ [] }
    ensures index_or_owner { filter (is_of_kind NvAuth)
        (0x00ffffff ∷ 0x01000000 ∷ 0x01ffffff ∷ 0x02000000 ∷ 0x40000001 ∷ 0x40000007 ∷ [])
        ≡ 0x01000000 ∷ 0x01ffffff ∷ 0x40000001 ∷ [] }
{}

// Each octet of a handle by itself: of objects, of policy sessions, of what is saved and of what
// has an auth value. A persistent handle is of no kind.
fn octets_are_of_their_kinds()
    ensures object { filter
        (λ octet. is_of_kind Object (octet * 2 ^ 24 + 255)) (range_with_len 0 256)
        ≡ 0x80 ∷ [] }
    ensures policy { filter
        (λ octet. is_of_kind Policy (octet * 2 ^ 24 + 255)) (range_with_len 0 256)
        ≡ 3 ∷ [] }
    ensures saved { filter (λ octet. is_of_kind Saved (octet * 2 ^ 24 + 255)) (range_with_len 0 256)
        ≡ 2 ∷ 3 ∷ 0x80 ∷ [] }
    ensures entity { filter
        (λ octet. is_of_kind Entity (octet * 2 ^ 24 + 23)) (range_with_len 0 256)
        ≡ 0 ∷ 1 ∷ 0x80 ∷ [] }
    ensures entities { filter (is_of_kind Entity) (23 ∷ 24 ∷ 0x40000001 ∷ 0x40000007 ∷ [])
        ≡ 23 ∷ 0x40000001 ∷ [] }
    ensures persistent { map (λ kind. kind_code kind 0x81000000)
        (Owner ∷ Pcr ∷ Nv ∷ NvAuth ∷ Object ∷ Policy ∷ Entity ∷ Saved ∷ Null ∷ [])
        ≡ 0x84 ∷ 0x84 ∷ 0x84 ∷ 0x84 ∷ 0x8b ∷ 0x84 ∷ 0x8b ∷ 0x8b ∷ 0x84 ∷ [] }
{}

// What is left of the last word of a draw is lost; up to the last place.
fn draws_have_limits()
    ensures words { map words_for (0 ∷ 1 ∷ 4 ∷ 5 ∷ 31 ∷ 32 ∷ []) ≡ 0 ∷ 1 ∷ 1 ∷ 2 ∷ 8 ∷ 8 ∷ [] }
    ensures most { filter (λ size.
        is_ok (drawn (record (with_indexes []) { place = 2 ^ 62 - 2 }) size)) (range_with_len 0 12)
        ≡ range_with_len 0 9 }
    ensures none { is_ok (drawn (record (with_indexes []) { place = 2 ^ 62 }) 0) ≡ true }
    ensures one { drawn (record (with_indexes []) { place = 2 ^ 62 }) 1 ≡ Err 0x101 }
{}
