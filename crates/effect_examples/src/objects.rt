//! Worked examples of the limits of objects and of their contexts.

ghost use Rattle.std.specs.List.{filter, range_with_len};
ghost use Rattle.std.specs.Prelude.{◌≡◌, ◌+◌, ◌^◌, ◌∷◌, ◌++◌, [], length, map, replicate, take};
ghost use Rattle.std.specs.Prelude.{true, Ok, Err, Some, None, is_ok};
ghost use Rattle.tab_spec.specs.Hash.{hmac};
ghost use Rattle.tab_spec.specs.Values.{sized_bytes, public_bytes, public_of, makes_secret};
ghost use Rattle.tab_spec.specs.Object.{object_of, object_bytes};
ghost use Rattle.effect_spec.specs.Objects.{secret_size, template_of, create_primary_row};
ghost use Rattle.effect_spec.specs.Objects.{create_row, plain_of, loaded_with, load_row};
ghost use Rattle.effect_spec.specs.Objects.{unseal_row, hmac_row, read_public_row};
ghost use Rattle.effect_spec.specs.Contexts.{object_within};
ghost use Rattle.tab_examples.specs.Examples.{u32, hmac_key, storage_parent, sealed_bytes, key_with};
ghost use Rattle.tab_examples.specs.Examples.{with_indexes, template, no_secret, no_pcrs};
ghost use Rattle.tab_examples.specs.Examples.{largest_object, plain_parts, loaded_parent, object_parts};
ghost use Rattle.tab_examples.specs.Examples.{sealed};

// An object's bytes: an auth value of at most 32 bytes without trailing zeros, a seed of 32, a
// secret of at most 128, and a qualified name of 34.
fn objects_are_spelled()
    ensures longest { object_of (object_bytes largest_object ++ 9 ∷ [])
        ≡ Ok (largest_object, 9 ∷ []) }
    ensures most_bytes { length (object_bytes (record {
      public = record storage_parent { policy = replicate 32 1; unique = replicate 32 1 };
      auth = replicate 32 5;
      seed = replicate 32 1;
      secret = replicate 128 7;
      qualified_name = replicate 34 0;
    })) ≡ 318 }
    ensures auths { filter (λ size.
        is_ok (object_of (object_parts (replicate size 5) (replicate 32 1) [] (replicate 34 0))))
        (range_with_len 30 8)
        ≡ 30 ∷ 31 ∷ 32 ∷ [] }
    ensures seeds { filter
        (λ size. is_ok (object_of (object_parts [] (replicate size 1) [] (replicate 34 0))))
        (range_with_len 30 8)
        ≡ 32 ∷ [] }
    ensures secrets { filter (λ size.
        is_ok (object_of (object_parts [] (replicate 32 1) (replicate size 7) (replicate 34 0))))
        (range_with_len 126 8)
        ≡ 126 ∷ 127 ∷ 128 ∷ [] }
    ensures names { filter
        (λ size. is_ok (object_of (object_parts [] (replicate 32 1) [] (replicate size 0))))
        (range_with_len 30 8)
        ≡ 34 ∷ [] }
    ensures a_zero_after { object_of
        (object_parts (5 ∷ 0 ∷ []) (replicate 32 1) [] (replicate 34 0))
        ≡ Err 0x95 }
{}

// What is within a context is an object if its bytes are one, and no more.
fn objects_within_are_whole()
    ensures whole { object_within (Some (object_bytes sealed)) ≡ Some sealed }
    ensures one_byte_over { object_within (Some (object_bytes sealed ++ 0 ∷ [])) ≡ None }
    ensures not_bare { object_within (Some (object_bytes (record sealed { auth = 5 ∷ 0 ∷ [] })))
        ≡ None }
{}

// The parameters of a public area, word by word.
fn public_areas_have_limits()
    ensures sealed { public_bytes (sealed_bytes [])
        ≡ 0 ∷ 8 ∷ 0 ∷ 0x0b ∷ 0 ∷ 0 ∷ 0 ∷ 0x52 ∷ 0 ∷ 0 ∷ 0 ∷ 0x10 ∷ 0 ∷ 0 ∷ [] }
    ensures words_of_a_key { filter
        (λ n. is_ok (public_of (take 10 (public_bytes hmac_key) ++ 0 ∷ 5 ∷ 0 ∷ n ∷ 0 ∷ 0 ∷ [])))
        (range_with_len 0 32)
        ≡ 0x0b ∷ [] }
    ensures scheme_of_a_key { filter
        (λ n. is_ok (public_of (take 10 (public_bytes hmac_key) ++ 0 ∷ n ∷ 0 ∷ 0x0b ∷ 0 ∷ 0 ∷ [])))
        (range_with_len 0 32)
        ≡ 5 ∷ [] }
    ensures scheme_of_sealed { filter
        (λ n. is_ok (public_of (take 10 (public_bytes (sealed_bytes [])) ++ 0 ∷ n ∷ 0 ∷ 0 ∷ [])))
        (range_with_len 0 32)
        ≡ 0x10 ∷ [] }
    ensures words_of_a_parent { map
        (λ wrong. public_of (take 10 (public_bytes storage_parent) ++ wrong)) ((0 ∷ 7 ∷ [])
        ∷ (0 ∷ 6 ∷ 1 ∷ 0 ∷ []) ∷ (0 ∷ 6 ∷ 0 ∷ 0x80 ∷ 0 ∷ 0x42 ∷ []) ∷ [])
        ≡ Err 0x84 ∷ Err 0x84 ∷ Err 0x84 ∷ [] }
    ensures policies { filter
        (λ size. is_ok (public_of (public_bytes (record hmac_key { policy = replicate size 6 }))))
        (range_with_len 0 40)
        ≡ 0 ∷ 32 ∷ [] }
{}

// Who makes a secret of how many bytes.
fn secrets_are_made()
    ensures secret_is_made { filter (λ n. makes_secret (record hmac_key { attributes = 2 ^ n }))
        (range_with_len 0 32)
        ≡ 5 ∷ [] }
    ensures secret_of_a_key { secret_size hmac_key ≡ 32 }
    ensures secret_of_a_parent { secret_size storage_parent ≡ 16 }
{}

// The longest parameters of Create and CreatePrimary, and those of one byte more. Nothing of what
// is refused is hashed.
fn templates_have_limits()
    ensures longest { template_of (template (0 ∷ 32 ∷ replicate 32 5 ++ 0 ∷ 128 ∷ replicate 128 7)
        hmac_key (replicate 64 9) no_pcrs)
        ≡ Ok (
          record {
            sensitive = record { auth = replicate 32 5; content = replicate 128 7 };
            public = hmac_key;
            outside = replicate 64 9;
            selection = record { bits = None };
          },
          [],
        ) }
    ensures long_outside { create_row (with_indexes []) loaded_parent
        (template no_secret hmac_key (replicate 65 9) no_pcrs)
        ≡ Err 0x3d5 }
    ensures long_content { create_row (with_indexes []) loaded_parent
        (template (0 ∷ 0 ∷ 0 ∷ 129 ∷ replicate 129 7) (sealed_bytes []) [] no_pcrs)
        ≡ Err 0x1d5 }
    ensures long_auth { create_primary_row (with_indexes [])
        (template (0 ∷ 33 ∷ replicate 33 5 ++ 0 ∷ 0 ∷ []) hmac_key [] no_pcrs)
        ≡ Err 0x1d5 }
    ensures long_unique { create_primary_row (with_indexes [])
        (template no_secret (record hmac_key { unique = replicate 33 1 }) [] no_pcrs)
        ≡ Err 0x2d5 }
    ensures one_byte_over { create_primary_row (with_indexes [])
        (template no_secret (sealed_bytes []) [] no_pcrs ++ 0 ∷ [])
        ≡ Err 0x95 }
{}

// Which kinds, attributes and selections Create and CreatePrimary refuse, and which parent.
fn templates_have_kinds()
    ensures kinds { map (λ form. create_primary_row (with_indexes [])
        (template no_secret (record hmac_key { form = form }) [] no_pcrs)) (1 ∷ 7 ∷ 0x24 ∷ [])
        ≡ Err 0x2ca ∷ Err 0x2ca ∷ Err 0x2ca ∷ [] }
    ensures attributes { create_primary_row (with_indexes [])
        (template no_secret (record hmac_key { attributes = 0x00040070 }) [] no_pcrs)
        ≡ Err 0x2c2 }
    ensures selections { map (λ selection.
        create_primary_row (with_indexes []) (template no_secret hmac_key [] selection))
        (u32 2 ∷ (u32 1 ++ 0 ∷ 4 ∷ []) ∷ (u32 1 ++ 0 ∷ 0x0b ∷ 2 ∷ [])
        ∷ (u32 1 ++ 0 ∷ 0x0b ∷ 3 ∷ 0 ∷ 0 ∷ []) ∷ [])
        ≡ Err 0x4d5 ∷ Err 0x4c3 ∷ Err 0x4c4 ∷ Err 0x4da ∷ [] }
    ensures under_sealed { create_row (with_indexes []) sealed [] ≡ Err 0x18a }
{}

// The parameters of Load: a private area of at most 512 bytes, and a public one.
fn loads_have_limits()
    ensures sizes { map (λ size. load_row loaded_parent
        (sized_bytes (replicate size 255) ++ sized_bytes (public_bytes hmac_key)))
        (0 ∷ 1 ∷ 512 ∷ 513 ∷ [])
        ≡ Err 0x1df ∷ Err 0x1df ∷ Err 0x1df ∷ Err 0x1d5 ∷ [] }
    ensures cut { load_row loaded_parent (2 ∷ 1 ∷ replicate 512 255) ≡ Err 0x1da }
    ensures public { load_row loaded_parent
        (0 ∷ 0 ∷ sized_bytes (public_bytes (record hmac_key { form = 1 })))
        ≡ Err 0x2ca }
    ensures one_byte_over { load_row loaded_parent
        (0 ∷ 0 ∷ sized_bytes (public_bytes hmac_key) ++ 0 ∷ [])
        ≡ Err 0x95 }
    ensures under_sealed { load_row sealed [] ≡ Err 0x18a }
{}

// What a private area has to hide.
fn private_areas_have_limits()
    ensures longest { plain_of
        (plain_parts (replicate 32 5) (replicate 32 1) (replicate 128 7) ++ 9 ∷ [])
        ≡ Ok ((replicate 32 5, replicate 32 1, replicate 128 7), 9 ∷ []) }
    ensures zeros { plain_of (plain_parts (0 ∷ 5 ∷ 0 ∷ 0 ∷ []) (replicate 32 1) [])
        ≡ Ok ((0 ∷ 5 ∷ [], replicate 32 1, []), []) }
    ensures auths { filter (λ size.
        is_ok (plain_of (plain_parts (replicate size 5) (replicate 32 1) []))) (range_with_len 30 8)
        ≡ 30 ∷ 31 ∷ 32 ∷ [] }
    ensures seeds { filter
        (λ size. is_ok (plain_of (plain_parts [] (replicate size 1) []))) (range_with_len 30 8)
        ≡ 32 ∷ [] }
    ensures secrets { filter
        (λ size. is_ok (plain_of (plain_parts [] (replicate 32 1) (replicate size 7))))
        (range_with_len 126 8)
        ≡ 126 ∷ 127 ∷ 128 ∷ [] }
    ensures one_byte_more { loaded_with (plain_of (plain_parts [] (replicate 32 1) [] ++ 0 ∷ []))
        (λ plain. loaded_parent)
        ≡ Err 0x1df }
    ensures long_secret { loaded_with (plain_of (plain_parts [] (replicate 32 1) (replicate 129 7)))
        (λ plain. loaded_parent)
        ≡ Err 0x1df }
{}

// A message of at most 1,024 bytes, and its hash.
fn messages_have_limits()
    ensures longest { hmac_row (key_with 0x00040072) (4 ∷ 0 ∷ replicate 1024 1 ++ 0 ∷ 0x0b ∷ [])
        ≡ Ok (sized_bytes (hmac (7 ∷ []) (replicate 1024 1))) }
    ensures longest_of_another_hash { hmac_row (key_with 0x00040072)
        (4 ∷ 0 ∷ replicate 1024 1 ++ 0 ∷ 0x0c ∷ [])
        ≡ Err 0x2c4 }
    ensures one_byte_more { hmac_row (key_with 0x00040072)
        (4 ∷ 1 ∷ replicate 1025 1 ++ 0 ∷ 0x0b ∷ [])
        ≡ Err 0x1d5 }
    ensures hashes { filter (λ hash. is_ok (hmac_row (key_with 0x00040072) (0 ∷ 0 ∷ 0 ∷ hash ∷ [])))
        (range_with_len 0 32)
        ≡ 0x0b ∷ 0x10 ∷ [] }
    ensures cut { map (λ front. hmac_row (key_with 0x00040072) front)
        ((0 ∷ 1 ∷ []) ∷ (0 ∷ 1 ∷ 7 ∷ 0 ∷ []) ∷ [])
        ≡ Err 0x1da ∷ Err 0x2da ∷ [] }
    ensures one_byte_over { hmac_row (key_with 0x00040072) (0 ∷ 0 ∷ 0 ∷ 0x0c ∷ 0 ∷ []) ≡ Err 0x95 }
{}

// Which objects give what.
fn objects_give_by_their_kinds()
    ensures kinds { map
        (λ item. hmac_row item []) (loaded_parent ∷ sealed ∷ key_with 0x00040072 ∷ [])
        ≡ Err 0x18a ∷ Err 0x19c ∷ Err 0x1da ∷ [] }
    ensures unsealed { map
        (λ item. unseal_row item (0 ∷ [])) (loaded_parent ∷ key_with 0x00040072 ∷ sealed ∷ [])
        ≡ Err 0x18a ∷ Err 0x182 ∷ Err 0x95 ∷ [] }
    ensures read { map
        (λ item. read_public_row item (0 ∷ [])) (loaded_parent ∷ key_with 0x00040072 ∷ sealed ∷ [])
        ≡ Err 0x95 ∷ Err 0x95 ∷ Err 0x95 ∷ [] }
    ensures of_each { map (λ item.
        is_ok (read_public_row item [])) (loaded_parent ∷ key_with 0x00040072 ∷ sealed ∷ [])
        ≡ true ∷ true ∷ true ∷ [] }
{}
