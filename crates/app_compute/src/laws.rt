//! What all actions keep: the contracts are the laws.
ghost use Rattle.std.specs.Prelude.{◌≡◌, ◌≢◌, ◌<◌, ◌≤◌, ℕ};
ghost use Rattle.std.specs.List.{AllByRecursion};
ghost use Rattle.hpx_value.specs.Values.{bare_act, bare_state, message_of, named};
ghost use Rattle.hpx_value.specs.Shapes.{IsAct, IsState};
ghost use Rattle.hpx_value.specs.Laws.{KeepsLaws};
ghost use Rattle.app_compute.specs.Types.{Act, State};
ghost use Rattle.app_compute.specs.Acts.{compute_outcome};
ghost use Rattle.app_compute.specs.Computing.{computing_outcome};
ghost use Rattle.app_compute.specs.Session.{computes};

/// What an action on a plain object, on a part of a ring, or on any other object that is not of the session's kind does
/// keeps the laws of actions, and looks neither at the action's name nor at the credits of ids.
pub fn acts_law()
    ensures keeps { (n kind here : ℕ) (s : State) (a : Act) → 1 ≤ n → here < n → IsState s → IsAct a
        → KeepsLaws n kind here s a (compute_outcome n kind here s a) }
    ensures blind { (n kind here : ℕ) (s : State) (a : Act)
        → compute_outcome n kind here s a ≡ compute_outcome n kind here (bare_state s) (named 0 0 (message_of (bare_act a))) }
{}

/// The same of what the session does where numbers or a ring are asked for; and whether it does that is told alike. It moves
/// nothing (`still`).
pub fn session_acts_law()
    ensures keeps { (n here : ℕ) (s : State) (a : Act) → 1 ≤ n → IsState s → IsAct a → KeepsLaws n 1 here s a (computing_outcome n s a) }
    ensures blind { (n : ℕ) (s : State) (a : Act) → computing_outcome n s a ≡ computing_outcome n (bare_state s) (named 0 0 (message_of (bare_act a))) }
    ensures still { (n : ℕ) (s : State) (a : Act) → AllByRecursion (λ x. x.code ≢ 1) (computing_outcome n s a).sends }
    ensures tells { (s : State) (a : Act) → computes s a ≡ computes (bare_state s) (named 0 0 (message_of (bare_act a))) }
{}
