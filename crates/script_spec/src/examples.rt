//! Worked examples: what the definitions make of them, and what they refuse.

mod summary;
mod workload;

ghost use Rattle.std.specs.Prelude.{◌≡◌, [], ◌∷◌, ◌++◌, codes, take, drop, Some, None};
ghost use Rattle.history_spec.specs.Entry.{close_entry};
ghost use Rattle.script_spec.specs.Script.{script, item_of, piece, close, end, bad_line};
ghost use Rattle.script_spec.specs.Calls.{calls, opening, command, bad_size, closing};
ghost use Rattle.script_spec.specs.Plays.{reply_line, Plays};
ghost use Rattle.history_spec.specs.Examples.{get_random, cancel_frame, canceled_first};
ghost use Rattle.history_spec.specs.Examples.{two_clients, limit_of};
ghost use Rattle.script_spec.specs.Examples.{canceled_between, one_label, two_labels};

// Three lines on two labels, the last without a newline.
fn lines_are_items()
    ensures items { (script (codes
        "0 80010000000c0000017b0008\n7 80010000000C0000017B0006\n0 80010000000c0000017b0004")).items
        ≡ piece 0 (get_random 8) ∷ piece 7 (get_random 6) ∷ piece 0 (get_random 4) ∷ [] }
    ensures ending { (script (codes
        "0 80010000000c0000017b0008\n7 80010000000C0000017B0006\n0 80010000000c0000017b0004"
        )).ending ≡ end }
    ensures close { (script (codes "0 8001\n0 close\n")).items
        ≡ piece 0 (0x80 ∷ 0x01 ∷ []) ∷ close 0 ∷ [] }
{}

fn pieces_make_calls()
    ensures by_turns { calls
        (piece 0 (get_random 8) ∷ piece 7 (get_random 6) ∷ piece 0 (get_random 4) ∷ [])
        ≡ opening 0 ∷ command 0 1 (get_random 8) None ∷ opening 7 ∷ command 7 1 (get_random 6) None
        ∷ command 0 2 (get_random 4) None ∷ closing 0 ∷ closing 7 ∷ [] }
    ensures a_cancel { calls (piece 3 cancel_frame ∷ piece 3 (get_random 8) ∷ [])
        ≡ opening 3 ∷ command 3 1 (get_random 8) None ∷ closing 3 ∷ [] }
    ensures a_cut { calls (piece 0 (take 2 (get_random 8)) ∷ piece 0 (drop 2 (get_random 8)) ∷ [])
        ≡ opening 0 ∷ command 0 1 (get_random 8) None ∷ closing 0 ∷ [] }
    ensures two_at_once { calls (piece 0 (get_random 8 ++ get_random 6 ++ take 3 (get_random 4))
        ∷ piece 0 (drop 3 (get_random 4)) ∷ [])
        ≡ opening 0 ∷ command 0 1 (get_random 8) None ∷ command 0 2 (get_random 6) None
        ∷ command 0 3 (get_random 4) None ∷ closing 0 ∷ [] }
    ensures a_rest { calls (piece 0 (take 10 (get_random 8)) ∷ []) ≡ opening 0 ∷ closing 0 ∷ [] }
{}

// A cancel is about the commands before it that the same piece completes.
fn cancels_are_about_commands_of_their_piece()
    ensures between { calls (piece 0 canceled_between ∷ []) ≡ one_label (Some 1) }
    ensures behind { calls (piece 0 (get_random 8) ∷ piece 0 (cancel_frame ++ get_random 4) ∷ [])
        ≡ one_label None }
    ensures cut { calls (piece 0 (take 2 (get_random 8)) ∷ piece 0 (drop 2 canceled_between) ∷ [])
        ≡ one_label (Some 1) }
    ensures late { calls
        (piece 0 (take 21 canceled_between) ∷ piece 0 (drop 21 canceled_between) ∷ [])
        ≡ one_label None }
    ensures last { calls (piece 0 (canceled_between ++ cancel_frame ++ get_random 6) ∷ [])
        ≡ opening 0 ∷ command 0 1 (get_random 8) (Some 2) ∷ command 0 2 (get_random 4) (Some 2)
        ∷ command 0 3 (get_random 6) None ∷ closing 0 ∷ [] }
    ensures other { calls (piece 0 (get_random 8) ∷ piece 7 cancel_frame ∷ [])
        ≡ opening 0 ∷ command 0 1 (get_random 8) None ∷ opening 7 ∷ closing 0 ∷ closing 7 ∷ [] }
{}

// What follows a bad size on its line is dropped, and the label opens the next client.
fn bad_sizes_and_closes_end_labels()
    ensures bad { calls
        (piece 0 (get_random 8 ++ (0x80 ∷ 0x01 ∷ 0 ∷ 0 ∷ 0 ∷ 9 ∷ []) ++ get_random 6)
        ∷ piece 0 (get_random 4) ∷ [])
        ≡ opening 0 ∷ command 0 1 (get_random 8) None ∷ bad_size 0 ∷ closing 0 ∷ opening 0
        ∷ command 0 1 (get_random 4) None ∷ closing 0 ∷ [] }
    ensures closed { calls
        (piece 0 (get_random 8) ∷ piece 7 (get_random 6) ∷ close 0 ∷ piece 0 (get_random 4) ∷ [])
        ≡ opening 0 ∷ command 0 1 (get_random 8) None ∷ opening 7 ∷ command 7 1 (get_random 6) None
        ∷ closing 0 ∷ opening 0 ∷ command 0 1 (get_random 4) None ∷ closing 7 ∷ closing 0 ∷ [] }
    ensures not_open { calls (close 0 ∷ piece 7 (get_random 6) ∷ close 3 ∷ [])
        ≡ opening 7 ∷ command 7 1 (get_random 6) None ∷ closing 7 ∷ [] }
{}

// A script ends at its first bad line.
#[tactic(auto, unfolding(crate::proofs::Computing::lines))]
fn bad_lines_end_a_script()
    ensures second { (script (codes "0 80010000000c0000017b0008\n0 8\n")).ending ≡ bad_line 2 }
    ensures empty { (script (codes "\n")).ending ≡ bad_line 1 }
{}

// A label is a number below 2^32 without needless zeros, and one space follows.
#[tactic(auto, unfolding(crate::proofs::Computing::lines))]
fn labels_are_numbers()
    ensures two_spaces { item_of (codes "0  80010000000a0000017b") ≡ None }
    ensures no_label { item_of (codes "x 80010000000a0000017b") ≡ None }
    ensures needless_zero { item_of (codes "00 80010000000a0000017b") ≡ None }
    ensures too_large { item_of (codes "4294967296 80010000000a0000017b") ≡ None }
    ensures largest { item_of (codes "4294967295 80010000000c0000017b0008")
        ≡ Some (piece 4294967295 (get_random 8)) }
{}

// Behind the label stands a close, or bytes.
#[tactic(auto, unfolding(crate::proofs::Computing::lines))]
fn labels_have_bytes_or_a_close()
    ensures closes { item_of (codes "0 close") ≡ Some (close 0) }
    ensures another_close { item_of (codes "0 closed") ≡ None }
    ensures no_digits { item_of (codes "0 ") ≡ None }
{}

fn replies_are_written_as_lines()
    ensures { reply_line 12 (0x80 ∷ 0x01 ∷ 0xab ∷ []) ≡ codes "12 8001ab\n" }
{}

// The label 7 has the client 1.
fn a_history_and_lines_play_calls()
    ensures whole { Plays two_clients (limit_of 4618) two_labels
        (codes "0 80010000001400000000000876b8e0ada0f13d90\n7 800100000012000000000006405d6ae55386\n0 800100000010000000000004bdd219b8\n") }
    ensures short { Plays two_clients (limit_of 4618) two_labels
        (codes
        "0 80010000001400000000000876b8e0ada0f13d90\n7 800100000012000000000006405d6ae55386\n")
        → ⊥ }
{}

// The first command is canceled by the piece that completes it.
fn a_history_has_canceled_commands()
    ensures whole { Plays (canceled_first ++ close_entry 0 ∷ []) (limit_of 8192)
        (one_label (Some 1))
        (codes "0 80010000000a00000909\n0 800100000010000000000004bdd219b8\n") }
    ensures not_covered { Plays (canceled_first ++ close_entry 0 ∷ []) (limit_of 8192)
        (one_label None) (codes "0 80010000000a00000909\n0 800100000010000000000004bdd219b8\n")
        → ⊥ }
    ensures other_number { Plays (canceled_first ++ close_entry 0 ∷ []) (limit_of 8192)
        (one_label (Some 2)) (codes "0 80010000000a00000909\n0 800100000010000000000004bdd219b8\n")
        → ⊥ }
{}
