//! What dealing keeps: objects, and credits.
ghost use Rattle.std.specs.Prelude.{◌≡◌, ◌<◌, ◌≤◌, ◌+◌, ◌-◌, ◌*◌, ◌++◌, [], ℕ, List, Option, is_some, length, map, flat_map, take, drop};
ghost use Rattle.std.specs.List.{sum_by, filter, AllByRecursion};
ghost use Rattle.hpx_value.specs.Ids.{Id, bare};
ghost use Rattle.hpx_value.specs.Hands.{id_at, hand_ids};
ghost use Rattle.hpx_value.specs.Shapes.{IsState, IsAct};
ghost use Rattle.hpx_value.specs.Laws.{KeepsLaws};
ghost use Rattle.hpx_value.specs.Values.{bare_message};
ghost use Rattle.hpx_value.specs.declared.outcome.Due.{Due};
ghost use Rattle.hpx_value.specs.declared.outcome.Due.TheVariants.{Message as MessageDue, Print as PrintDue};
ghost use Rattle.hpx_value.specs.declared.outcome.Outcome.{Outcome};
ghost use Rattle.hpx_value.specs.declared.value.Cont.{Cont};
ghost use Rattle.hpx_value.specs.declared.value.Message.{Message};
ghost use Rattle.hpx_value.specs.declared.value.State.{State};
ghost use Rattle.hpx_value.specs.declared.value.Act.{Act};
ghost use Rattle.hpx_commit.specs.Deals.{is_managed, log_of, half, named, places_named, dealt, shared_from, Lasts, AllLast, AreWithin, filled, unused, filled_due, ids_due, ids_named};
ghost use Rattle.hpx_commit.specs.Failures.{action_ids, ids_had, state_failed, due_failed, ups_failed};
ghost use Rattle.hpx_commit.specs.Stocks.{Stock, take_half, ahead, halved, parts_from, short_places, others, replaced, replaced_from, stripped, Lasting, SameNames, SameDeal, IsAhead, IsHalf};

/// Each who names a place gets an id of its object. What is dealt are the shares of all places.
pub fn deal_law()
    ensures names { (hand : List Id) (places : List ℕ) → map bare (dealt hand places) ≡ map (λ p. bare (id_at hand p)) places }
    ensures sums { (f : Id → ℕ) (hand : List Id) (places : List ℕ) → AreWithin hand places →
        sum_by f (dealt hand places) ≡ sum_by f (shared_from 0 hand places) }
{}

/// Ids that are filled name the same objects, where what was dealt does. What is not used names the rest.
pub fn fill_law()
    ensures same { (ids ds rest : List Id) → map bare ds ≡ filter is_managed (map bare ids) ++ rest → map bare (filled ids ds) ≡ map bare ids }
    ensures left { (ids ds rest : List Id) → map bare ds ≡ filter is_managed (map bare ids) ++ rest → map bare (unused ids ds) ≡ rest }
    ensures sums { (f : Id → ℕ) (ids ds rest : List Id) → map bare ds ≡ filter is_managed (map bare ids) ++ rest →
        sum_by f (filter is_managed (filled ids ds)) + sum_by f (unused ids ds) ≡ sum_by f ds }
    ensures due { (due : List Due) (ds : List Id) →
        flat_map ids_due (filled_due due ds) ≡ filled (flat_map ids_due due) ds }
{}

/// By the laws of actions, the managed ids of a new state and of what is due are those at the managed places that the
/// outcome names, in order.
pub fn naming_law()
    ensures names { (n kind here : ℕ) (s : State) (a : Act) (made : List Id) (out : Outcome) → IsState s → IsAct a → KeepsLaws n kind here s a out →
        filter is_managed (map bare (ids_named s a made out)) ≡ map (λ p. bare (id_at (hand_ids s a made) p)) (places_named s a made out) }
    ensures within { (n kind here : ℕ) (s : State) (a : Act) (made : List Id) (out : Outcome) → KeepsLaws n kind here s a out → length made ≡ length out.makes →
        AreWithin (hand_ids s a made) (places_named s a made out) }
{}

/// A half that is taken ahead for the first of several who name a place: all get what they got before, and the two halves
/// stand in the place of the id.
pub fn half_law()
    ensures same { (s : Stock) (p : ℕ) → p < length s.hand → AreWithin s.hand s.places → 2 ≤ named s.places p → SameDeal s (take_half p s) }
    ensures sums { (f : Id → ℕ) (s : Stock) (p : ℕ) → p < length s.hand →
        sum_by f (take_half p s).hand + f (id_at s.hand p) ≡ sum_by f s.hand + 2 * f (half (id_at s.hand p)) }
{}

/// The first places of a stock are split ahead: all get what they got before, and an id that is short then has no log left.
pub fn ahead_law()
    ensures same { (n : ℕ) (s : Stock) → n ≤ length s.hand → AreWithin s.hand s.places → SameDeal s (ahead n s) }
    ensures split { (n : ℕ) (s : Stock) → n ≤ length s.hand → AreWithin s.hand s.places → IsAhead n s (ahead n s) }
    ensures sums { (f : Id → ℕ) (n : ℕ) (s : Stock) → n ≤ length s.hand → AreWithin s.hand s.places →
        sum_by f (ahead n s).hand ≡ sum_by f (parts_from n 0 s.hand s.places) }
    ensures front { (n : ℕ) (s : Stock) → n ≤ length s.hand → AreWithin s.hand s.places →
        map bare (take (length s.hand) (ahead n s).hand) ≡ map bare s.hand }
    ensures credit { (n : ℕ) (s : Stock) → n ≤ length s.hand → AreWithin s.hand s.places → (p : ℕ) → p < length s.hand →
        is_some (id_at (ahead n s).hand p).log ≡ is_some (id_at s.hand p).log }
    ensures short { (n : ℕ) (s : Stock) → n ≤ length s.hand → AreWithin s.hand s.places → short_places n (ahead n s) ≡ short_places n s }
    ensures empty { (n : ℕ) (s : Stock) → n ≤ length s.hand → AreWithin s.hand s.places → (p : ℕ) → p < n → (Lasting s p → ⊥) →
        (log_of (id_at (ahead n s).hand p).log ≡ 0) × (2 ≤ named (ahead n s).places p) }
    ensures lasts { (n : ℕ) (s : Stock) → n ≤ length s.hand → AreWithin s.hand s.places → (p : ℕ) →
        (p < length s.hand → Lasting s p) → Lasting (ahead n s) p }
    ensures few { (n : ℕ) (s : Stock) → n ≤ length s.hand → AreWithin s.hand s.places →
        length (ahead n s).hand ≤ length s.hand + length s.places }
    ensures halves { (n : ℕ) (s : Stock) → n ≤ length s.hand → AreWithin s.hand s.places →
        AllByRecursion (IsHalf n s) (drop (length s.hand) (ahead n s).hand) }
{}

/// What is split ahead does not depend on the ids behind the first places: those of made objects may be others later.
pub fn later_law()
    ensures one { (n q : ℕ) (id : Id) (s : Stock) → n ≤ q → q < length s.hand → ahead n (replaced q id s) ≡ replaced q id (ahead n s) }
    ensures made { (n : ℕ) (front old new : List Id) (places : List ℕ) → n ≤ length front → length new ≡ length old →
        ahead n (record { hand = front ++ new; places = places })
        ≡ replaced_from (length front) new (ahead n (record { hand = front ++ old; places = places })) }
{}

/// An id of a stock that is halved so often.
pub fn halved_law()
    ensures object { (k : ℕ) (id : Id) → bare (halved k id) ≡ bare id }
    ensures log { (k : ℕ) (id : Id) → log_of (halved k id).log ≡ log_of id.log - k }
    ensures credit { (k : ℕ) (id : Id) → is_some (halved k id).log ≡ is_some id.log }
{}

/// Another id of the same object is put in the place of one that is short. Once none is short, all last, as where each is
/// one of a log that is large enough.
pub fn replaced_law()
    ensures names { (s : Stock) (p : ℕ) (id : Id) → AreWithin s.hand s.places → bare id ≡ bare (id_at s.hand p) → 1 ≤ named s.places p →
        SameNames s (replaced p id s) }
    ensures short { (n : ℕ) (s : Stock) (p : ℕ) (id : Id) → p < length s.hand → Lasts id (named s.places p) →
        short_places n (replaced p id s) ≡ others p (short_places n s) }
    ensures none { (n : ℕ) (s : Stock) → short_places n s ≡ [] → ((p : ℕ) → n ≤ p → Lasting s p) → AllLast s.hand s.places }
    ensures refilled { (log n : ℕ) (s : Stock) (hand : List Id) → ((p : ℕ) → n ≤ p → Lasting s p) → ((p : ℕ) → named s.places p ≤ log + 1) →
        ((p : ℕ) → Lasting s p → id_at hand p ≡ id_at s.hand p) →
        ((p : ℕ) → p < n → (Lasting s p → ⊥) → (id_at hand p).log ≡ Some log) → AllLast hand s.places }
{}

/// The short places of a stock, in rising order, and what is left of it where their ids lose their credit.
pub fn short_law()
    ensures none { (n : ℕ) (s : Stock) (p : ℕ) → Lasting s p → named (short_places n s) p ≡ 0 }
    ensures once { (n : ℕ) (s : Stock) (p : ℕ) → p < n → (Lasting s p → ⊥) → named (short_places n s) p ≡ 1 }
    ensures few { (n : ℕ) (s : Stock) → length (short_places n s) ≤ n }
    ensures there { (ps : List ℕ) (s : Stock) (p : ℕ) → p < length s.hand → 1 ≤ named ps p → id_at (stripped ps s).hand p ≡ bare (id_at s.hand p) }
    ensures elsewhere { (ps : List ℕ) (s : Stock) (p : ℕ) → named ps p ≡ 0 → id_at (stripped ps s).hand p ≡ id_at s.hand p }
    ensures sums { (f : Id → ℕ) → ((id : Id) → f (bare id) ≡ 0) → (ps : List ℕ) (s : Stock) → AreWithin s.hand ps → ((p : ℕ) → named ps p ≤ 1) →
        sum_by f (stripped ps s).hand + sum_by f (map (id_at s.hand) ps) ≡ sum_by f s.hand }
{}

/// An action that fails: the state, the action and what is due name the objects that they named, and the new state, what is
/// due and what is given up weigh together what the action had.
pub fn failure_law()
    ensures state { (s : State) (a : Act) (made ids : List Id) → map bare (take (length (hand_ids s a made)) ids) ≡ map bare (hand_ids s a made) →
        map bare (state_failed s ids).ids ≡ map bare s.ids }
    ensures action { (s : State) (a : Act) (made ids : List Id) → map bare (take (length (hand_ids s a made)) ids) ≡ map bare (hand_ids s a made) →
        map bare (action_ids s a ids) ≡ map bare a.ids }
    ensures due { (g : Due → Due) → ((m : Message) → g (MessageDue m) ≡ MessageDue (bare_message m)) →
        ((bytes : List ℕ) → g (PrintDue bytes) ≡ PrintDue bytes) → (ids : List Id) (cont : Option Cont) →
        map g (due_failed ids cont) ≡ due_failed (map bare ids) cont }
    ensures sums { (f : Id → ℕ) (s : State) (a : Act) (makes : ℕ) (ids : List Id) →
        sum_by f (filter is_managed (state_failed s ids).ids)
        + (sum_by f (filter is_managed (flat_map ids_due (due_failed (action_ids s a ids) a.cont))) + sum_by f (ups_failed s a makes ids))
        ≡ sum_by f (filter is_managed (ids_had s a makes ids)) }
{}
