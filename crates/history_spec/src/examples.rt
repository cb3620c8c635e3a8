//! Worked examples: what the definitions make of them, and what they refuse.

ghost use Rattle.std.specs.Prelude.{◌≡◌, ◌≤◌, ◌+◌, ◌*◌, List, [], ◌∷◌, ◌++◌, codes, take};
ghost use Rattle.history_spec.specs.declared.Pick.TheVariants.{Session, Sequence};
ghost use Rattle.history_spec.specs.declared.TheConstants.{SILENT_LIMIT};
ghost use Rattle.history_spec.specs.Entry.{Entry, HasRoom, HasRoomForClient, clients_of};
ghost use Rattle.history_spec.specs.Entry.{close_entry, command_entry};
ghost use Rattle.history_spec.specs.Entry.{kept, open_entry, own, part_before, reserved};
ghost use Rattle.history_spec.specs.AuditText.{audit_line, audit_text};
ghost use Rattle.history_spec.specs.Told.{Answers, MayBeTold};
ghost use Rattle.history_spec.specs.Examples.{canceled_before, eight_reply, failed_entry};
ghost use Rattle.history_spec.specs.Examples.{four_reply, full_reply, get_random, load_object};
ghost use Rattle.history_spec.specs.Examples.{memory_reply};
ghost use Rattle.history_spec.specs.Examples.{plain_entry, two_clients, limit_of, tpm_limit_of};
ghost use Rattle.history_spec.specs.Examples.{load_st_clear};

// Each of the seven entries counts as 64 bytes, beside the 36 of the commands and the 54 of the
// replies.
fn a_history_has_entries_and_bytes()
    ensures own { own two_clients 0
        ≡ open_entry 0 ∷ plain_entry 0 1 (get_random 8) eight_reply
        ∷ plain_entry 0 2 (get_random 4) four_reply ∷ close_entry 0 ∷ [] }
    ensures kept { kept two_clients ≡ 538 }
{}

// A client is told the replies of its entries, in their order.
fn a_client_is_told_its_entry()
    ensures entry { MayBeTold two_clients (limit_of 538) 0 2 (get_random 4) four_reply }
    ensures other { MayBeTold two_clients (limit_of 538) 0 2 (get_random 4) memory_reply → ⊥ }
    ensures in_order { Answers two_clients (limit_of 538) 0 (get_random 8 ∷ get_random 4 ∷ [])
        (eight_reply ++ four_reply) }
{}

// Only a command without an entry is told that memory lacked, and that only where it makes an
// object.
fn memory_lacks_for_objects_alone()
    ensures no_entry { MayBeTold two_clients (limit_of 538) 0 3 load_object memory_reply }
    ensures makes_none { MayBeTold two_clients (limit_of 538) 0 3 (get_random 4) memory_reply → ⊥ }
    // A context with the handle 0x80000002 makes an object on other TPMs alone.
    ensures no_object { MayBeTold two_clients (limit_of 538) 0 3 load_st_clear memory_reply → ⊥ }
    ensures tpm { MayBeTold two_clients (tpm_limit_of 538) 0 3 load_st_clear memory_reply }
{}

// Only a command without an entry is told that the journal lacks room: that was told after the
// history up to the client's next entry.
fn a_journal_is_told_to_be_full()
    ensures full { MayBeTold two_clients (limit_of 4709) 0 3 (get_random 4) full_reply }
    ensures not_full { MayBeTold two_clients (limit_of 4710) 0 3 (get_random 4) full_reply → ⊥ }
    ensures full_before { part_before 0 1 two_clients ≡ take 4 two_clients }
{}

// 64 bytes and 4,096 stay free for an entry beside its command, and 64 for the close of each
// client.
fn a_journal_has_room()
    ensures reserved { reserved (take 4 two_clients) ≡ 64 * 6 + 24 + 38 }
    ensures all { reserved two_clients ≡ 538 }
    ensures least { HasRoom 4618 (take 4 two_clients) (get_random 4) }
    ensures a_byte_less { HasRoom 4617 (take 4 two_clients) (get_random 4) → ⊥ }
    ensures client { HasRoomForClient 574 (take 4 two_clients) }
    ensures client_a_byte_less { HasRoomForClient 573 (take 4 two_clients) → ⊥ }
{}

// However many bytes there are, no more clients are opened than there are numbers.
fn clients_have_numbers()
    ensures last { (history : List Entry) → (clients_of history).opened ≡ 4294967294
        → reserved history + 128 ≤ SILENT_LIMIT → HasRoomForClient SILENT_LIMIT history }
    ensures none { (history : List Entry) → (clients_of history).opened ≡ 4294967295
        → HasRoomForClient SILENT_LIMIT history → ⊥ }
{}

// A line for each entry: numbers in decimal, bytes in lower case, and a dash for what isn't there.
fn entries_are_lines()
    ensures opened { audit_line (open_entry 0) ≡ codes "0 0 open - 0 - -\n" }
    ensures command { audit_line (plain_entry 0 1 (get_random 8) eight_reply)
        ≡ codes
        "0 1 command - 0 80010000000c0000017b0008 80010000001400000000000876b8e0ada0f13d90\n" }
    ensures closed { audit_line (close_entry 0) ≡ codes "0 0 close - 0 - -\n" }
    ensures session { audit_line
        (command_entry 4294967295 10 (Session 63) (0x80 ∷ []) (0x0a ∷ 0xbf ∷ []))
        ≡ codes "4294967295 10 command session:63 0 80 0abf\n" }
    ensures sequence { audit_line
        (command_entry 7 18446744073709551615 (Sequence 255) (0xff ∷ []) (0 ∷ []))
        ≡ codes "7 18446744073709551615 command sequence:255 0 ff 00\n" }
    ensures canceled { audit_line (canceled_before 1 1)
        ≡ codes "0 1 canceled:1 - 0 80010000000c0000017b0008 80010000000a00000909\n" }
    ensures largest { audit_line (canceled_before 7 18446744073709551615)
        ≡ codes
        "0 7 canceled:18446744073709551615 - 0 80010000000c0000017b0008 80010000000a00000909\n" }
    ensures fault { audit_line (failed_entry 2 12)
        ≡ codes "0 2 fault - 12 80010000000c0000017b0008 80010000000a000b0002\n" }
{}

// The lines stand in the order of the entries.
fn a_history_is_a_text()
    ensures none { audit_text [] ≡ [] }
    ensures three { audit_text
        (open_entry 0 ∷ plain_entry 0 1 (get_random 8) eight_reply ∷ close_entry 0 ∷ [])
        ≡ codes "0 0 open - 0 - -\n0 1 command - 0 80010000000c0000017b0008 80010000001400000000000876b8e0ada0f13d90\n0 0 close - 0 - -\n" }
{}
