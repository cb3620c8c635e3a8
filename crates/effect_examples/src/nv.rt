//! Worked examples of the limits of NV indexes.

ghost use Rattle.std.specs.List.{filter, range_with_len};
ghost use Rattle.std.specs.Prelude.{◌≡◌, ◌*◌, ◌^◌, ◌∷◌, ◌++◌, [], map, replicate, true, false, Ok};
ghost use Rattle.std.specs.Prelude.{Err, is_ok};
ghost use Rattle.tab_spec.specs.declared.TheConstants.{RH_OWNER};
ghost use Rattle.tab_spec.specs.Values.{nv_public_of, is_nv_size};
ghost use Rattle.effect_spec.specs.Nv.{may_write, may_read, nv_define_row, nv_undefine_row};
ghost use Rattle.effect_spec.specs.Nv.{nv_read_public_row, nv_write_row, nv_increment_row};
ghost use Rattle.effect_spec.specs.Nv.{nv_read_row};
ghost use Rattle.tab_spec.specs.NvIndex.{is_counter, is_written, with_bytes};
ghost use Rattle.tab_examples.specs.Examples.{u32, with_indexes, counter, four_bytes, plain_definition};
ghost use Rattle.tab_examples.specs.Examples.{plain_index, zeros_kept, four_kept, counter_kept};

// Who may write and read, by each bit of the attributes.
fn bits_allow_what_they_say()
    ensures owner_writes { filter
        (λ n. may_write RH_OWNER (four_bytes (2 ^ n) [])) (range_with_len 0 32)
        ≡ 1 ∷ [] }
    ensures itself_writes { filter
        (λ n. may_write 0x01000002 (four_bytes (2 ^ n) [])) (range_with_len 0 32)
        ≡ 2 ∷ [] }
    ensures owner_reads { filter
        (λ n. may_read RH_OWNER (four_bytes (2 ^ n) [])) (range_with_len 0 32)
        ≡ 17 ∷ [] }
    ensures itself_reads { filter
        (λ n. may_read 0x01000002 (four_bytes (2 ^ n) [])) (range_with_len 0 32)
        ≡ 18 ∷ [] }
    ensures another_writes { may_write 0x01000001 (four_bytes 0xffffffff []) ≡ false }
    ensures another_reads { may_read 0x01000001 (four_bytes 0xffffffff []) ≡ false }
{}

// Whether an index counts, and whether it was written, by each bit of the attributes.
fn bits_tell_what_an_index_is()
    ensures counts { filter (λ n. is_counter (four_bytes (16 * n) [])) (range_with_len 0 16)
        ≡ 1 ∷ [] }
    ensures written { filter (λ n. is_written (four_bytes (2 ^ n) [])) (range_with_len 0 32)
        ≡ 29 ∷ [] }
    ensures writing { with_bytes (four_bytes 0x02060006 (1 ∷ [])) (2 ∷ [])
        ≡ four_bytes 0x22060006 (2 ∷ []) }
    ensures writing_again { with_bytes (four_bytes 0x22060006 (1 ∷ [])) (2 ∷ [])
        ≡ four_bytes 0x22060006 (2 ∷ []) }
{}

// An auth value of at most 32 bytes, a policy of none or 32, and at most 2,048 bytes, of which a
// counter has eight.
fn definitions_have_limits()
    ensures least { nv_define_row (with_indexes []) (plain_definition [] [] 0)
        ≡ Ok (with_indexes (plain_index [] [] [] ∷ [])) }
    ensures most { nv_define_row (with_indexes [])
        (plain_definition (replicate 32 5) (replicate 32 6) 2048)
        ≡ Ok
        (with_indexes (plain_index (replicate 32 5) (replicate 32 6) (replicate 2048 0) ∷ [])) }
    ensures zeros { nv_define_row (with_indexes []) (plain_definition (0 ∷ 5 ∷ 0 ∷ 0 ∷ []) [] 1)
        ≡ Ok (with_indexes (plain_index (0 ∷ 5 ∷ []) [] (0 ∷ []) ∷ [])) }
    ensures long_auth { nv_define_row (with_indexes []) (plain_definition (replicate 33 5) [] 1)
        ≡ Err 0x1d5 }
    ensures one_byte_more { nv_define_row (with_indexes []) (plain_definition [] [] 2049)
        ≡ Err 0x2d5 }
    ensures policies { filter
        (λ size. is_ok (nv_define_row (with_indexes []) (plain_definition [] (replicate size 6) 1)))
        (range_with_len 0 40)
        ≡ 0 ∷ 32 ∷ [] }
    ensures policy { nv_define_row (with_indexes []) (plain_definition [] (replicate 33 6) 1)
        ≡ Err 0x2d5 }
    ensures counters { filter (λ size. is_nv_size 0x14 size) (range_with_len 0 64) ≡ 8 ∷ [] }
{}

// The handle is that of an index, and the hash SHA-256.
fn definitions_have_handles_and_hashes()
    ensures octets { map (λ index.
        is_ok (nv_public_of (u32 index ++ 0 ∷ 0x0b ∷ u32 0x00060006 ++ 0 ∷ 0 ∷ 0 ∷ 1 ∷ [])))
        (0x00ffffff ∷ 0x01000000 ∷ 0x01ffffff ∷ 0x02000000 ∷ [])
        ≡ false ∷ true ∷ true ∷ false ∷ [] }
    ensures hash { nv_define_row (with_indexes []) (0 ∷ 0 ∷ 0 ∷ 6 ∷ u32 0x01000002 ++ 0 ∷ 4 ∷ [])
        ≡ Err 0x2c3 }
    ensures octet { nv_define_row (with_indexes []) (0 ∷ 0 ∷ 0 ∷ 4 ∷ u32 0x02000002) ≡ Err 0x2c4 }
{}

// There are at most 64 indexes. One that is undefined leaves the others.
fn indexes_have_a_limit()
    ensures last { nv_define_row (with_indexes (replicate 63 counter)) (plain_definition [] [] 1)
        ≡ Ok (with_indexes (replicate 63 counter ++ plain_index [] [] (0 ∷ []) ∷ [])) }
    ensures past_it { nv_define_row (with_indexes (replicate 64 counter)) (plain_definition [] [] 1)
        ≡ Err 0x14b }
    ensures undefined { nv_undefine_row
        (with_indexes (counter ∷ plain_index [] [] [] ∷ counter ∷ [])) 0x01000002 []
        ≡ Ok (with_indexes (counter ∷ counter ∷ [])) }
{}

// Undefining an index and reading its public area take no parameters.
fn handles_alone_are_taken()
    ensures one_byte_over { nv_undefine_row (with_indexes (counter ∷ [])) 0x01000001 (0 ∷ [])
        ≡ Err 0x95 }
    ensures a_byte_after { nv_read_public_row (with_indexes (counter ∷ [])) 0x01000001 (0 ∷ [])
        ≡ Err 0x95 }
{}

// An offset and a size together, up to the end of the index and a byte past it. Their sum may be
// more than two bytes hold.
fn writes_have_limits()
    ensures whole { nv_write_row (zeros_kept 2048) RH_OWNER
        0x01000002 (8 ∷ 0 ∷ replicate 2048 7 ++ 0 ∷ 0 ∷ [])
        ≡ Ok
        (with_indexes (with_bytes (plain_index [] [] (replicate 2048 0)) (replicate 2048 7) ∷ [])) }
    ensures last_byte { nv_write_row (zeros_kept 2048) RH_OWNER
        0x01000002 (0 ∷ 1 ∷ 7 ∷ 7 ∷ 255 ∷ [])
        ≡ Ok (with_indexes
        (with_bytes (plain_index [] [] (replicate 2048 0)) (replicate 2047 0 ++ 7 ∷ []) ∷ [])) }
    ensures past_it { nv_write_row (zeros_kept 2048) RH_OWNER 0x01000002 (0 ∷ 1 ∷ 7 ∷ 8 ∷ 0 ∷ [])
        ≡ Err 0x146 }
    ensures none_past_it { nv_write_row (zeros_kept 4) RH_OWNER 0x01000002 (0 ∷ 0 ∷ 0 ∷ 5 ∷ [])
        ≡ Err 0x146 }
    ensures far { nv_write_row (zeros_kept 4) RH_OWNER
        0x01000002 (0 ∷ 5 ∷ replicate 5 7 ++ 255 ∷ 255 ∷ [])
        ≡ Err 0x146 }
    ensures cut { map (λ front. nv_write_row (zeros_kept 4) RH_OWNER 0x01000002 front)
        ((0 ∷ 2 ∷ 7 ∷ []) ∷ (0 ∷ 1 ∷ 7 ∷ 0 ∷ []) ∷ [])
        ≡ Err 0x1da ∷ Err 0x2da ∷ [] }
    ensures one_byte_over { nv_write_row (zeros_kept 4) RH_OWNER
        0x01000002 (0 ∷ 1 ∷ 7 ∷ 0 ∷ 9 ∷ 0 ∷ [])
        ≡ Err 0x95 }
    ensures kind_before_range { nv_write_row (with_indexes (counter ∷ [])) 0x01000001
        0x01000001 (0 ∷ 1 ∷ 7 ∷ 0 ∷ 9 ∷ [])
        ≡ Err 0x282 }
{}

// What is read is within the index, also where it is nothing.
fn reads_have_limits()
    ensures whole { nv_read_row four_kept RH_OWNER 0x01000002 (0 ∷ 4 ∷ 0 ∷ 0 ∷ [])
        ≡ Ok (0 ∷ 4 ∷ 1 ∷ 2 ∷ 3 ∷ 4 ∷ []) }
    ensures more { nv_read_row four_kept RH_OWNER 0x01000002 (0 ∷ 5 ∷ 0 ∷ 0 ∷ []) ≡ Err 0x146 }
    ensures none_at_the_end { nv_read_row four_kept RH_OWNER 0x01000002 (0 ∷ 0 ∷ 0 ∷ 4 ∷ [])
        ≡ Ok (0 ∷ 0 ∷ []) }
    ensures none_past_it { nv_read_row four_kept RH_OWNER 0x01000002 (0 ∷ 0 ∷ 0 ∷ 5 ∷ [])
        ≡ Err 0x146 }
    ensures far { nv_read_row four_kept RH_OWNER 0x01000002 (0 ∷ 5 ∷ 255 ∷ 255 ∷ []) ≡ Err 0x146 }
{}

// The parameters are looked at first, then who reads, whether the index was written, and the range.
fn reads_have_faults_in_order()
    ensures cut { map (λ front. nv_read_row (with_indexes (counter ∷ [])) RH_OWNER 0x01000001 front)
        ((0 ∷ []) ∷ (0 ∷ 5 ∷ 0 ∷ []) ∷ [])
        ≡ Err 0x1da ∷ Err 0x2da ∷ [] }
    ensures one_byte_over { nv_read_row (with_indexes (counter ∷ [])) RH_OWNER
        0x01000001 (0 ∷ 9 ∷ 0 ∷ 0 ∷ 0 ∷ [])
        ≡ Err 0x95 }
    ensures reader_first { nv_read_row (with_indexes (counter ∷ [])) RH_OWNER
        0x01000001 (0 ∷ 9 ∷ 0 ∷ 0 ∷ [])
        ≡ Err 0x149 }
    ensures unwritten_before_range { nv_read_row (with_indexes (counter ∷ [])) 0x01000001
        0x01000001 (0 ∷ 9 ∷ 0 ∷ 0 ∷ [])
        ≡ Err 0x14a }
{}

fn counts_have_limits()
    ensures carried { nv_increment_row (counter_kept 0x00ffffffffffffff) 0x01000001 0x01000001 []
        ≡ Ok (counter_kept 0x0100000000000000) }
    ensures to_the_last { nv_increment_row (counter_kept 0xfffffffffffffffe) 0x01000001
        0x01000001 []
        ≡ Ok (counter_kept 0xffffffffffffffff) }
    ensures past_it { nv_increment_row (counter_kept 0xffffffffffffffff) 0x01000001 0x01000001 []
        ≡ Err 0x146 }
    ensures one_byte_over { nv_increment_row (counter_kept 0xffffffffffffffff) 0x01000001
        0x01000001 (0 ∷ [])
        ≡ Err 0x95 }
    ensures writer_first { nv_increment_row (with_indexes (four_bytes 0x00060004 [] ∷ [])) RH_OWNER
        0x01000002 []
        ≡ Err 0x149 }
{}
