//! Summaries, whose digests another program gave.

ghost use Rattle.std.specs.Prelude.{◌≡◌, ◌∷◌, [], codes, true, false, replicate, take};
ghost use Rattle.history_spec.specs.Examples.{eight_reply, full_reply};
ghost use Rattle.script_spec.specs.Summary.{has_code_0, reply_lines, summary_line};

fn replies_are_summed_up()
    ensures lines { reply_lines
        (record { label = 7; bytes = eight_reply } ∷ record { label = 12; bytes = full_reply } ∷ [])
        ≡ codes "7 80010000001400000000000876b8e0ada0f13d90\n12 80010000000a000b0003\n" }
    ensures none { summary_line 0 [] 0
        ≡ codes "lines 0 replies 0 ok 0 entries 0 digest e3b0c44298fc1c149afbf4c8996fb92427ae41e4649b934ca495991b7852b855\n" }
    ensures two { summary_line 30 (record { label = 7; bytes = eight_reply }
        ∷ record { label = 12; bytes = full_reply } ∷ []) 5
        ≡ codes "lines 30 replies 2 ok 1 entries 5 digest b9c29456c5c1e93a3a2f4623dd83db39d3e769236c4cc785345986888847efeb\n" }
    ensures short { has_code_0 (replicate 9 0) ≡ false }
    ensures ten { has_code_0 (replicate 10 0) ≡ true }
    ensures last { has_code_0 (0 ∷ 0 ∷ 0 ∷ 0 ∷ 0 ∷ 0 ∷ 0 ∷ 0 ∷ 0 ∷ 1 ∷ []) ≡ false }
    ensures first { has_code_0 (0 ∷ 0 ∷ 0 ∷ 0 ∷ 0 ∷ 0 ∷ 1 ∷ 0 ∷ 0 ∷ 0 ∷ []) ≡ false }
    ensures size { has_code_0 (1 ∷ 1 ∷ 1 ∷ 1 ∷ 1 ∷ 1 ∷ 0 ∷ 0 ∷ 0 ∷ 0 ∷ 1 ∷ []) ≡ true }
{}
