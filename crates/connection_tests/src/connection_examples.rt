//! Worked examples: what the definitions take, and what they refuse.

ghost use Rattle.std.specs.Prelude.{◌≡◌, [], ◌∷◌, Some, None, true, false};
ghost use Rattle.tab_spec.specs.Count.{largest_count};
ghost use Rattle.tab_spec.specs.Reply.{error_reply};
ghost use Rattle.tab_spec.specs.declared.TheConstants.{RC_DEVICE_ANSWER, RC_JOURNAL_FULL};
ghost use Rattle.tab_spec.specs.declared.TheConstants.{RC_CANCELED, RC_MEMORY};
ghost use Rattle.history_spec.specs.Entry.{canceled_entry};
ghost use Rattle.history_spec.specs.declared.EntryKind.TheVariants.{Command};
ghost use Rattle.broker_lock.specs.Known.{Origin};
ghost use Rattle.connection_core.specs.declared.ends.Ending.TheVariants as endings;
ghost use Rattle.connection_tests.specs.Book.{answer, asked, book_entry, canceled_client};
ghost use Rattle.connection_tests.specs.Book.{one_client, with_limit};
ghost use Rattle.connection_core.specs.Links.{AreEntriesFrom, DecideFrom, Decides, HasEndingCause};
ghost use Rattle.connection_core.specs.Links.{IsCanceledUpTo, IsTold};
ghost use Rattle.connection_core.specs.Rounds.{IsAtEnd, IsTakenFrom};

// Client 0 has an entry of its first command and none of its second. Before its close 224 bytes are
// kept or reserved for it, so the second command lacks room below a limit of 4,396 bytes.
fn a_client_is_told_its_replies()
    ensures entered { IsTold (with_limit None 4408) false one_client 0 1 asked (answer 1) }
    ensures another_reply { IsTold (with_limit None 4408) false one_client 0 1 asked (answer 2)
        → ⊥ }
    ensures another_command { IsTold (with_limit None 4408) false one_client 0 1 [] (answer 1) → ⊥ }
    // It makes no object.
    ensures memory { IsTold (with_limit None 4408) false one_client 0 2 asked
        (error_reply RC_MEMORY) → ⊥ }
    ensures full { IsTold (with_limit None 4395) false one_client 0 2 asked
        (error_reply RC_JOURNAL_FULL) }
    ensures not_full { IsTold (with_limit None 4396) false one_client 0 2 asked
        (error_reply RC_JOURNAL_FULL) → ⊥ }
    ensures untold { IsTold (with_limit None 4408) true one_client 0 2 asked
        (error_reply RC_DEVICE_ANSWER) }
    ensures none_came { IsTold (with_limit None 4408) false one_client 0 2 asked
        (error_reply RC_DEVICE_ANSWER) → ⊥ }
    ensures told { (base : Origin)
        → IsTold (with_limit (Some base) 4408) false one_client 0 2 asked
        (error_reply RC_DEVICE_ANSWER) → ⊥ }
{}

// The first of two commands has the entry.
fn commands_have_one_entry_or_none()
    ensures first { AreEntriesFrom (with_limit None 4300) one_client 0 1 (asked ∷ asked ∷ [])
        (book_entry 0 1 Command (Some 1) ∷ []) }
    ensures of_none { AreEntriesFrom (with_limit None 4300) one_client 0 1 []
        (book_entry 0 1 Command (Some 1) ∷ []) → ⊥ }
    ensures of_another { AreEntriesFrom (with_limit None 4300) one_client 0 2 (asked ∷ [])
        (book_entry 0 1 Command (Some 1) ∷ []) → ⊥ }
{}

// Of two commands the first one was canceled up to itself.
fn commands_are_canceled()
    ensures first { AreEntriesFrom (with_limit None 4300) canceled_client 0 1 (asked ∷ asked ∷ [])
        (canceled_entry 0 1 1 asked (error_reply RC_CANCELED) ∷ []) }
    ensures below { IsCanceledUpTo 0 1 0 asked
        (canceled_entry 0 1 0 asked (error_reply RC_CANCELED)) → ⊥ }
    ensures told { IsTold (with_limit None 4408) false canceled_client 0 1 asked
        (error_reply RC_CANCELED) }
    ensures answered { IsTold (with_limit None 4408) false canceled_client 0 1 asked (answer 1)
        → ⊥ }
{}

// The word that was loaded before a command says whether its entry is a canceled one.
fn a_word_decides()
    ensures canceled { Decides canceled_client 0 1 1 }
    ensures further { Decides canceled_client 0 1 2 → ⊥ }
    ensures uncovered { Decides canceled_client 0 1 0 → ⊥ }
    ensures run { Decides one_client 0 1 0 }
    ensures covered { Decides one_client 0 1 1 → ⊥ }
    ensures of_none { Decides one_client 0 2 2 }
{}

// Two commands came, with a cancel behind the first. The word was raised before the first was run.
fn a_seat_has_a_word_for_each_command()
    ensures one { DecideFrom canceled_client 0 1 (1 ∷ 1 ∷ []) }
    ensures another { DecideFrom canceled_client 0 1 (0 ∷ 1 ∷ []) → ⊥ }
    ensures run { DecideFrom one_client 0 1 (0 ∷ 1 ∷ []) }
{}

fn a_fault_is_counted()
    ensures read { HasEndingCause endings.ReadFault 3 4 0 0 }
    ensures at_its_end { HasEndingCause endings.ReadFault largest_count largest_count 0 0 }
    ensures not_read { HasEndingCause endings.ReadFault 3 3 0 1 → ⊥ }
    ensures written { HasEndingCause endings.WriteFault 3 3 0 1 }
    ensures read_on { HasEndingCause endings.WriteFault 3 4 0 1 }
    ensures not_written { HasEndingCause endings.WriteFault 3 4 0 0 → ⊥ }
    ensures read_back { HasEndingCause endings.WriteFault 4 3 0 1 → ⊥ }
    ensures ended { HasEndingCause endings.EndOfInput 3 3 0 0 }
    ensures not_ended { HasEndingCause endings.EndOfInput 3 4 0 0 → ⊥ }
    ensures not_bad { HasEndingCause (endings.BadFrame 9) 3 3 0 1 → ⊥ }
{}

fn bytes_are_taken_in_order()
    ensures one { IsTakenFrom (Some (7 ∷ 8 ∷ [])) (Some (8 ∷ [])) (7 ∷ []) }
    ensures another { IsTakenFrom (Some (7 ∷ 8 ∷ [])) (Some (8 ∷ [])) (8 ∷ []) → ⊥ }
    ensures none { IsTakenFrom (Some (7 ∷ 8 ∷ [])) (Some (8 ∷ [])) [] → ⊥ }
    ensures at_end { IsAtEnd (Some []) (Some []) }
    ensures not_at_end { IsAtEnd (Some (7 ∷ [])) (Some (7 ∷ [])) → ⊥ }
{}
