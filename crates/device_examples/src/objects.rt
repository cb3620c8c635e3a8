//! Worked examples of the limits of objects and of their contexts.

ghost use Rattle.std.specs.List.{filter, range_with_len};
ghost use Rattle.std.specs.Prelude.{◌≡◌, ◌+◌, ◌-◌, ◌^◌, ◌∷◌, ◌++◌, [], take, true, Err, Some, None};
ghost use Rattle.std.specs.Prelude.{is_ok};
ghost use Rattle.effect_spec.specs.Contexts.{context_of};
ghost use Rattle.device_spec.specs.ContextCommands.{context_load_command, context_save_command};
ghost use Rattle.device_spec.specs.ContextCommands.{flush_context_command};
ghost use Rattle.tab_spec.specs.Numbers.{profile_numbers};
ghost use Rattle.device_spec.specs.Slots.{new_slots, context_load, context_save};
ghost use Rattle.tab_examples.specs.Examples.{with_indexes, context_with, sealed};
ghost use Rattle.device_examples.specs.Examples.{device_holding};

// A blob of at most 2,048 bytes, and the parts of a context.
fn loaded_contexts_have_limits()
    ensures cut { filter (λ size. is_ok (context_of (take size (context_with 0x80000000 2))))
        (range_with_len 0 21)
        ≡ 20 ∷ [] }
    ensures longest { context_load (device_holding None None None 0) (context_with 0x40000000 2048)
        ≡ Err 0x1c4 }
    ensures one_byte_more { context_load (device_holding None None None 0)
        (context_with 0x40000000 2049)
        ≡ Err 0x1d5 }
    ensures one_byte_over { context_load (device_holding None None None 0)
        (context_with 0x40000000 2048 ++ 0 ∷ [])
        ≡ Err 0x95 }
    ensures sequences { context_load (device_holding None None None 0) (context_with 0x80000001 0)
        ≡ Err 0x1c4 }
{}

// The last number that a context of an object has.
fn contexts_have_a_last_number()
    ensures last_number { is_ok
        (context_save (device_holding (Some sealed) None None (2 ^ 62 - 1)) 0x80000000 [])
        ≡ true }
    ensures past_it { context_save (device_holding (Some sealed) None None (2 ^ 62)) 0x80000000 []
        ≡ Err 0x101 }
    ensures a_byte_after { context_save (device_holding (Some sealed) None None (2 ^ 62)) 0x80000000
        (0 ∷ [])
        ≡ Err 0x95 }
{}

// The slots of the profile's device.
fn slots_are_empty_at_first()
    ensures slots { (new_slots profile_numbers (with_indexes [])).slots ≡ None ∷ None ∷ None ∷ [] }
{}

// The bytes of the commands by which a broker moves objects and sessions.
fn commands_of_contexts_have_their_bytes()
    ensures save { context_save_command 0x02000000
        ≡ 0x80 ∷ 0x01 ∷ 0 ∷ 0 ∷ 0 ∷ 0x0e ∷ 0 ∷ 0 ∷ 0x01 ∷ 0x62 ∷ 0x02 ∷ 0 ∷ 0 ∷ 0 ∷ [] }
    ensures flush { flush_context_command 0x80000001
        ≡ 0x80 ∷ 0x01 ∷ 0 ∷ 0 ∷ 0 ∷ 0x0e ∷ 0 ∷ 0 ∷ 0x01 ∷ 0x65 ∷ 0x80 ∷ 0 ∷ 0 ∷ 0x01 ∷ [] }
    ensures load { context_load_command (0xaa ∷ 0xbb ∷ [])
        ≡ 0x80 ∷ 0x01 ∷ 0 ∷ 0 ∷ 0 ∷ 0x0c ∷ 0 ∷ 0 ∷ 0x01 ∷ 0x61 ∷ 0xaa ∷ 0xbb ∷ [] }
{}
