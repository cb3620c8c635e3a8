//! The first lines of a workload, as `tools/workload_lines` writes them.

ghost use Rattle.std.specs.Prelude.{◌≡◌, ◌-◌, ◌*◌, ◌^◌, [], codes};
ghost use Rattle.script_spec.specs.Workload.{line_at, workload_key, workload_text};

fn lines_begin()
    ensures first { workload_text 7 3
        ≡ codes "7 80010000000e0000018903000007\n2 800200000041000001820000000b0000000940000009000000000000000001000b0000000000000000000000000000000000000000000000000000000000000000\n0 80010000000e0000018903000007\n" }
    ensures none { workload_text 7 0 ≡ [] }
{}

fn lines_of_each_kind()
    ensures closes { line_at (workload_key 7) (3 * 21) ≡ codes "0 close\n" }
    ensures draws { line_at (workload_key 7) (3 * 6) ≡ codes "0 80010000000c0000017b001b\n" }
    ensures makes_a_key { line_at (workload_key 7) (3 * 22)
        ≡ codes "2 80020000003900000131400000010000000940000009000000000000040000000000100008000b0004007200000005000b0000000000000000\n" }
    ensures starts_a_session { line_at (workload_key 7) (3 * 17)
        ≡ codes "7 80010000003b000001764000000740000007002000000000000000000000000000000000000000000000000000000000000000000000010010000b\n" }
    ensures flushes { line_at (workload_key 7) (3 * 10) ≡ codes "7 80010000000e0000016580000002\n" }
    ensures reads_public { line_at (workload_key 7) (3 * 9)
        ≡ codes "2 80010000000e0000017380000001\n" }
    ensures lists { line_at (workload_key 7) (3 * 3)
        ≡ codes "7 8001000000160000017a0000000180000000000000fe\n" }
{}

fn lines_of_the_largest_start()
    ensures { line_at (workload_key (2 ^ 64 - 1)) 0 ≡ codes "1 80010000000e0000018903000028\n" }
{}
