//! Worked examples: which devices words name, and which they don't.

ghost use Rattle.std.specs.Prelude.{◌≡◌, [], ◌∷◌, ◌++◌, codes, length, replicate, List, ℕ, Some};
ghost use Rattle.std.specs.Prelude.{None};
ghost use Rattle.std.specs.Option.{option_map};
ghost use Rattle.command_line.specs.Words.{accepted, device_of, settings_of};
ghost use Rattle.command_line.specs.declared.words.DeviceWord.TheVariants.{Memory, Tpm, Unix};
ghost use Rattle.command_line.specs.declared.words.Setting.TheVariants.{Device};

// The seed of a device in memory is 64 hexadecimal digits, in either case.
#[tactic(auto, unfolding(hex::specs::Hex::decode_pairs))]
fn a_device_in_memory_has_a_seed()
    ensures seed { device_of (codes
        "memory:00000000000000000000000000000000000000000000000000000000000000aF")
        ≡ Some (Memory (replicate 31 0 ++ 175 ∷ [])) }
    ensures short { device_of (codes "memory:00") ≡ None }
    ensures empty { device_of (codes "memory:") ≡ None }
    ensures no_digit { device_of (codes
        "memory:000000000000000000000000000000000000000000000000000000000000000g") ≡ None }
    ensures other_case { device_of (codes
        "Memory:0000000000000000000000000000000000000000000000000000000000000000") ≡ None }
{}

// The path of a socket is 1 to 100 bytes, `:` and `=` among them.
fn a_device_behind_a_socket_has_a_path()
    ensures one { device_of (codes "unix:/a") ≡ Some (Unix (codes "/a")) }
    ensures colon { device_of (codes "unix::") ≡ Some (Unix (codes ":")) }
    ensures empty { device_of (codes "unix:") ≡ None }
    ensures no_colon { device_of (codes "unix") ≡ None }
    ensures other_case { device_of (codes "Unix:/a") ≡ None }
    ensures other_kind { device_of (codes "tcp:/a") ≡ None }
    ensures longest { (path : List ℕ) → length path ≡ 100
        → device_of (codes "unix:" ++ path) ≡ Some (Unix path) }
    ensures too_long { (path : List ℕ) → length path ≡ 101
        → device_of (codes "unix:" ++ path) ≡ None }
{}

// So is that of a TPM that isn't of the profile.
fn a_tpm_has_a_path()
    ensures one { device_of (codes "tpm:/a") ≡ Some (Tpm (codes "/a")) }
    ensures colon { device_of (codes "tpm::") ≡ Some (Tpm (codes ":")) }
    ensures other_word { device_of (codes "tpm:unix:/a") ≡ Some (Tpm (codes "unix:/a")) }
    ensures empty { device_of (codes "tpm:") ≡ None }
    ensures no_colon { device_of (codes "tpm") ≡ None }
    ensures other_case { device_of (codes "Tpm:/a") ≡ None }
    ensures other_kind { device_of (codes "tpm2:/a") ≡ None }
    ensures longest { (path : List ℕ) → length path ≡ 100
        → device_of (codes "tpm:" ++ path) ≡ Some (Tpm path) }
    ensures too_long { (path : List ℕ) → length path ≡ 101
        → device_of (codes "tpm:" ++ path) ≡ None }
{}

// The device stands behind `=` or in the next word.
fn an_option_names_the_device()
    ensures behind { settings_of (codes "--device=unix:/a=b" ∷ [])
        ≡ Some (Device (Unix (codes "/a=b")) ∷ []) }
    ensures next { settings_of (codes "--device" ∷ codes "unix:/a" ∷ [])
        ≡ Some (Device (Unix (codes "/a")) ∷ []) }
    ensures nothing { settings_of (codes "--device=unix:" ∷ []) ≡ None }
    ensures behind_tpm { settings_of (codes "--device=tpm:/a=b" ∷ [])
        ≡ Some (Device (Tpm (codes "/a=b")) ∷ []) }
    ensures next_tpm { settings_of (codes "--device" ∷ codes "tpm:/a" ∷ [])
        ≡ Some (Device (Tpm (codes "/a")) ∷ []) }
    ensures nothing_tpm { settings_of (codes "--device=tpm:" ∷ []) ≡ None }
{}

// Each command takes each kind of device. There is no `check`.
fn a_command_takes_the_device()
    ensures run { option_map (λ plan. plan.device)
        (accepted (codes "run" ∷ codes "--device=unix:/a" ∷ [])) ≡ Some (Unix (codes "/a")) }
    ensures serve { option_map (λ plan. plan.device) (accepted (codes "serve"
        ∷ codes "--device=unix:/a" ∷ codes "--socket=/b" ∷ codes "--connections=4" ∷ []))
        ≡ Some (Unix (codes "/a")) }
    ensures workload { option_map (λ plan. plan.device) (accepted (codes "workload"
        ∷ codes "--device=unix:/a" ∷ codes "--start=7" ∷ codes "--lines=20" ∷ []))
        ≡ Some (Unix (codes "/a")) }
    ensures run_over_tpm { option_map (λ plan. plan.device)
        (accepted (codes "run" ∷ codes "--device=tpm:/a" ∷ [])) ≡ Some (Tpm (codes "/a")) }
    ensures serve_over_tpm { option_map (λ plan. plan.device) (accepted (codes "serve"
        ∷ codes "--device=tpm:/a" ∷ codes "--socket=/b" ∷ codes "--connections=4" ∷ []))
        ≡ Some (Tpm (codes "/a")) }
    ensures workload_over_tpm { option_map (λ plan. plan.device) (accepted (codes "workload"
        ∷ codes "--device=tpm:/a" ∷ codes "--start=7" ∷ codes "--lines=20" ∷ []))
        ≡ Some (Tpm (codes "/a")) }
    ensures check { accepted (codes "check" ∷ codes "--device=tpm:/a" ∷ []) ≡ None }
{}
