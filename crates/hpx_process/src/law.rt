//! What several processes wrote together: the contracts are the laws.
ghost use Rattle.std.specs.Prelude.{◌≡◌, ◌≤◌, ◌<◌, ◌++◌, ℕ, Bool, List, Some, length};
ghost use Rattle.std.specs.List.{concat};
ghost use Rattle.hpx_value.specs.declared.profile.Profile.{Profile};
ghost use Rattle.hpx_journal.specs.Laws.{count_events, is_refused_count};
ghost use Rattle.hpx_journal.specs.Whole.{IsJoin, IsQuiet, replayed};
ghost use Rattle.hpx_part.specs.Data.{Entry};
ghost use Rattle.hpx_ports.specs.Told.{followed};
ghost use Rattle.hpx_steps.specs.Rest.{rules_of};
ghost use Rattle.hpx_top.specs.Acts.{act_of};
ghost use Rattle.hpx_top.specs.Runs.{Ports};
ghost use Rattle.app_console.specs.Console.{prompt};
ghost use Rattle.app_console.specs.Lines.{lines_of};
ghost use Rattle.app_console.specs.Plain.{opened};
ghost use Rattle.app_console.specs.Text.{lines_text};
ghost use Rattle.app_console.specs.declared.table.Console.TheVariants.{Accumulator as AccumulatorConsole};
ghost use Rattle.hpx_top.specs.Texts.{commands};
ghost use Rattle.hpx_top.specs.declared.consoles.UserConsole.TheVariants.{Accumulator};
ghost use Rattle.hpx_process.specs.Joined.{AreHeard, AreJoined, problem_texts};
ghost use Rattle.hpx_process.specs.Members.{HasReckoned, HasSat, Left};
ghost use Rattle.hpx_process.specs.Memberships.{IsProblem, problem_line};
ghost use Rattle.hpx_process.specs.declared.problem.Problem.{Problem};

/// The journals of all members, in any order in which nothing comes that was not sent, are one legal journal (`join`). Where the console ended well,
/// and has counted what the members told, nothing is under way anywhere (`rest`); and where besides no ask for credit was refused, what it wrote is the
/// number, or the rows of the ring (`computed`). What it wrote for a session is what one plain space says, wherever it ended well and no ask for credit was
/// refused, with fewer than 4,000,000,000 lines (`said`).
pub fn joined_law()
    ensures join { (n : ℕ) (p : Profile) (settles : Bool) (ms : ℕ → Left) (es : List Entry) → 1 ≤ n → n ≤ 64 → AreJoined n p settles ms es → IsJoin (rules_of act_of n p) es }
    ensures rest { (n : ℕ) (p : Profile) (settles : Bool) (ms : ℕ → Left) (es : List Entry) → 1 ≤ n → n ≤ 64 → (j : AreJoined n p settles ms es) → (ms 0).status ≡ 0
        → AreHeard (rules_of act_of n p) es j.console.asked.asked.turns → IsQuiet (rules_of act_of n p) (replayed (rules_of act_of n p) es) }
    ensures computed { (n : ℕ) (p : Profile) (settles : Bool) (ms : ℕ → Left) (es : List Entry) (problem : Problem) (x z : Ports) → 1 ≤ n → n ≤ 64
        → (j : AreJoined n p settles ms es) → (ms 0).status ≡ 0 → AreHeard (rules_of act_of n p) es j.console.asked.asked.turns
        → count_events is_refused_count es ≡ 0 → IsProblem problem → HasReckoned (rules_of act_of n p) (problem_line problem) (ms 0) x z
        → z.text ≡ followed x.text (concat (problem_texts problem)) }
    ensures said { (n : ℕ) (p : Profile) (settles : Bool) (ms : ℕ → Left) (es : List Entry) (x z : Ports) (input : List ℕ) → 1 ≤ n → n ≤ 64
        → AreJoined n p settles ms es → (ms 0).status ≡ 0 → count_events is_refused_count es ≡ 0 → HasSat (rules_of act_of n p) (ms 0) x z → x.left ≡ Some input
        → length (lines_of input) < 4000000000
        → z.text ≡ followed x.text (commands Accumulator ++ (lines_text AccumulatorConsole n (opened n) (lines_of input) ++ prompt)) }
{}
