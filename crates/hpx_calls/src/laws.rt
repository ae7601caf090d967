//! Laws of the outcomes that calls come to.
ghost use Rattle.std.specs.Prelude.{◌≡◌, ◌≢◌, ◌<◌, ◌≤◌, ◌∷◌, ℕ, Bool, List, [], Option, pos, map};
ghost use Rattle.std.specs.List.{AllByRecursion};
ghost use Rattle.hpx_value.specs.Ids.{Id};
ghost use Rattle.hpx_value.specs.Values.{bare_act, bare_state, message_of, named};
ghost use Rattle.hpx_value.specs.Shapes.{IsAct, IsState};
ghost use Rattle.hpx_value.specs.Laws.{KeepsLaws, birth_state};
ghost use Rattle.hpx_calls.specs.Values.{Value, mapped, plain};
ghost use Rattle.hpx_calls.specs.Contents.{Content, content_of, layout};
ghost use Rattle.hpx_calls.specs.Requests.{request_of};
ghost use Rattle.hpx_calls.specs.Tables.{called};
ghost use Rattle.hpx_calls.specs.Outcomes.{outcome_of};
ghost use Rattle.hpx_value.specs.Hands.{Slot};
ghost use Rattle.hpx_calls.specs.Histories.{Call, Object, Setting, own, run, says};
ghost use Rattle.hpx_calls.specs.Ids.{IsBirth, IsCalled, IsReadable, Turn, object_in, call_of, calls_of, due_for, due_then, lived, numbered, setting_of, state_of};
ghost use Rattle.hpx_calls.specs.Mapped.{called_seen, content_seen, request_seen};

use crate::request::Request;
use hpx_value::value::{Act, State};

/// Neither the name of an action nor the credits of ids matter.
pub fn blind_law()
    ensures { (n kind here : ℕ) (s : State) (a : Act)
        → outcome_of n kind here s a ≡ outcome_of n kind here (bare_state s) (named 0 0 (message_of (bare_act a))) }
{}

/// Actions on objects of every kind but the plain one keep the laws, at a place that there is: those on promises,
/// dataflows, channels, latches and barriers, on symbols, components, localities and shelves, and on accumulators and
/// partitions.
pub fn acts_law()
    ensures { (n kind here : ℕ) (s : State) (a : Act) → here < n → kind ≢ 7 → IsState s → IsAct a
        → KeepsLaws n kind here s a (outcome_of n kind here s a) }
{}

/// An action on a state is a call on the plain object that the state shows: a well-formed state is that object over ids
/// (`states`), which shows its content (`shown`), and the outcome of each action is the call's effect on it (`called`).
pub fn called_law()
    ensures states { (n kind : ℕ) (s : State) → IsState s → s ≡ state_of s.drawn (object_in n kind s) }
    ensures shown { (n kind : ℕ) (s : State) → IsState s → IsReadable n kind (object_in n kind s) }
    ensures called { (n kind here drawn : ℕ) (o : Object (Value Id) Slot) (a : Act) (made : List Id) → IsReadable n kind o → IsAct a
        → IsCalled n kind here drawn o a made }
{}

/// What is made at its birth is a plain object (`born`) that shows its content (`births`). The states that outcomes leave
/// from birth on, whatever the actions, are the plain object after their calls (`lives`), and what the next outcome leaves
/// due is what the next call is told (`tells`). A list of actions has the latest first.
pub fn life_law()
    ensures born { (n kind : ℕ) (x : Content (Value Id)) → IsBirth n kind x
        → birth_state (record { kind = kind; values = numbered 0 (layout (plain Id) x) }) ≡ state_of 0 (record { content = x; waiting = [] }) }
    ensures births { (n kind : ℕ) (x : Content (Value Id)) → IsBirth n kind x → IsReadable n kind (record { content = x; waiting = [] }) }
    ensures lives { (n kind here drawn : ℕ) (x : Content (Value Id)) (made : List Id) (ts : List Turn) → IsReadable n kind (record { content = x; waiting = [] })
        → AllByRecursion (λ t. IsAct t.act) ts
        → lived n kind here (state_of drawn (record { content = x; waiting = [] })) ts ≡ state_of drawn (run (setting_of kind here made) x (calls_of ts)) }
    ensures tells { (n kind here drawn : ℕ) (x : Content (Value Id)) (ts : List Turn) (t : Turn) → IsReadable n kind (record { content = x; waiting = [] })
        → AllByRecursion (λ t. IsAct t.act) ts → IsAct t.act
        → due_then n kind here (state_of drawn (record { content = x; waiting = [] })) ts t ≡ due_for here (says (setting_of kind here t.made) x (calls_of ts) (call_of t.act)) }
{}

/// WHERE tells the place, for each managed kind, whatever the object holds, and is no call: it changes nothing.
pub fn place_law<V, W>()
    ensures tells { (g : Setting V) (x : Content V) (h : List (Call V W)) (w : Option W) → 16 ≤ g.kind
        → says g x h (record { request = Request.Where; waiter = w }) ≡ own w (g.sort.int (pos g.here)) }
    ensures stays { (g : Setting V) (x : Content V) (h : List (Call V W)) (w : Option W)
        → run g x (record { request = Request.Where; waiter = w } ∷ h) ≡ run g x h }
{}

/// The tables do not look at what values refer to: with other references in their stead, whatever those are, the same is
/// asked (`asks`), the same content is shown (`shows`), and the same is done (`does`).
pub fn map_law<Q, R>()
    ensures asks { (see : Q → R) (code : ℕ) (waits : Bool) (vs : List (Value Q))
        → request_of (plain R) code waits (map (mapped see) vs) ≡ request_seen see (request_of (plain Q) code waits vs) }
    ensures shows { (see : Q → R) (n kind waiting : ℕ) (vs : List (Value Q))
        → content_of (plain R) n kind waiting (map (mapped see) vs) ≡ content_seen see (content_of (plain Q) n kind waiting vs) }
    ensures does { (see : Q → R) (here kind waiting : ℕ) (waits : Bool) (x : Content (Value Q)) (r : Request (Value Q))
        → called (plain R) here kind waiting waits (content_seen see x) (request_seen see r)
        ≡ called_seen see (called (plain Q) here kind waiting waits x r) }
{}
