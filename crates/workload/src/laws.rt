ghost use Rattle.std.specs.Prelude.{◌≡◌, ◌<◌, ◌≤◌, ◌*◌, ◌^◌, ℕ, List, length};
ghost use Rattle.std.specs.List.{AllByRecursion};
ghost use Rattle.history_spec.specs.Told.{Limits};
ghost use Rattle.tab_spec.specs.Values.{AreBytes};
ghost use Rattle.script_spec.specs.Script.{end, script};
ghost use Rattle.script_spec.specs.Calls.{Call, calls};
ghost use Rattle.script_spec.specs.Plays.{PlaysTo, Stage};
ghost use Rattle.script_spec.specs.Summary.{AreTold, replies_to};
ghost use Rattle.script_spec.specs.Workload.{workload_text};

/// The script of a workload has no bad line, where it has at most 100,000 lines, and an item for
/// each line. No line has more than 133 bytes.
pub fn workloads_have_no_bad_line()
    ensures ending { (start lines : ℕ) → lines ≤ 100000
        → (script (workload_text start lines)).ending ≡ end }
    ensures items { (start lines : ℕ) → lines ≤ 100000
        → length (script (workload_text start lines)).items ≡ lines }
    ensures short { (start lines : ℕ) → length (workload_text start lines) ≤ 133 * lines }
{}

/// The calls of a workload have few replies, so that each count of them fits a u64.
pub fn workloads_have_few_replies()
    ensures { (start lines : ℕ) → lines ≤ 100000
        → replies_to (calls (script (workload_text start lines)).items) < 2 ^ 64 }
{}

/// Calls add the lines of replies to the output: one for each command and each bad size. The
/// replies are of bytes where those of the journal's entries are.
pub fn replies_are_told()
    ensures { (limit : Limits) (before after : Stage) (calls : List Call)
        → PlaysTo limit before calls after → AllByRecursion (λ e. AreBytes e.reply) after.history
        → AreTold calls before.output after.output }
{}
