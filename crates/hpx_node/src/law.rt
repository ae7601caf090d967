//! What it says of a locality's part that its tables stand for it.
ghost use Rattle.std.specs.Prelude.{◌≡◌, ◌≤◌, ◌+◌, ◌++◌, [], ℕ, List, is_some, length};
ghost use Rattle.std.specs.List.{AllByRecursion, sum_by, count_by, find};
ghost use Rattle.hpx_journal.specs.Data.{Id};
ghost use Rattle.hpx_journal.specs.Entries.{Rules};
ghost use Rattle.hpx_journal.specs.Laws.{outs, ins, RefusesForCause, FreesTheDead};
ghost use Rattle.hpx_journal.specs.Local.{is_standing};
ghost use Rattle.hpx_journal.specs.Names.{names};
ghost use Rattle.hpx_journal.specs.Tokens.{is_held};
ghost use Rattle.hpx_journal.specs.Weights.{HasRoom};
ghost use Rattle.hpx_journal.specs.Whole.{part, run_local, IsClean, IsQuietAt};
ghost use Rattle.hpx_part.specs.Data.{Entry};
ghost use Rattle.hpx_part.specs.Parts.{at_boot};
ghost use Rattle.hpx_commit.specs.Deals.{AreWithin};
ghost use Rattle.hpx_commit.specs.Stocks.{Stock, ahead};
ghost use Rattle.hpx_tables.specs.Splits.{first_cuts, splits_from};
ghost use Rattle.hpx_tables.specs.Awaited.{awaited_here, awaited_at};
ghost use Rattle.hpx_tables.specs.Tables.{Tables, IsPassive, fired_acts};
ghost use Rattle.hpx_steps.specs.Rows.{Row, Landeds, IsRowAt, goes, causes, hops, moves_done, sets_out};
ghost use Rattle.hpx_steps.specs.Rest.{grants_in, unpaid, StandsAtRest, StandsWith};
ghost use Rattle.hpx_steps.specs.Sound.{SendsOwn, gone, grants_left, leads_on};
ghost use Rattle.hpx_steps.specs.Frames.{IsSpelled};
ghost use Rattle.hpx_steps.specs.Onward.{HaveGone};
ghost use Rattle.hpx_tables.specs.Free.{NoneIsFree};
ghost use Rattle.hpx_tables.specs.Jobs.{Starts, IsRunning};
ghost use Rattle.hpx_node.specs.Handled.{Tends};
ghost use Rattle.hpx_value.specs.declared.acts.Job.{Job};
ghost use Rattle.hpx_steps.specs.Limits.{IsWithin, AddsATurn};
ghost use Rattle.hpx_tables.specs.Kept.{stands_here, held_here, owed_here, held_worth, owed_worth};

/// Between calls nothing of the part is fresh, and nothing is due, up to a foreign arrival; where the node is passive, nothing waits,
/// is fired or travels either, and no credit is owed. Nothing accepted is stuck: where nothing runs and no commit waits, some accepted
/// action is free, if there is one.
/// Calls say `Stands` of a node. From there a reader comes to what this law, the idle and the numbers laws ask for (`StandsWith`) by
/// `tables_law` of hpx_steps, its clause `told`.
pub fn settled_law()
    ensures fresh { (r : Rules) (t : Tables) (entries : List Entry) → StandsWith r t [] [] entries →
        IsClean r (at_boot r t.here) (part t.here entries) → (run_local r (at_boot r t.here) (part t.here entries)).fresh ≡ [] }
    ensures due { (r : Rules) (t : Tables) (entries : List Entry) → StandsWith r t [] [] entries →
        IsClean r (at_boot r t.here) (part t.here entries) → (run_local r (at_boot r t.here) (part t.here entries)).due ≡ [] }
    ensures quiet { (r : Rules) (t : Tables) (entries : List Entry) → StandsWith r t [] [] entries → IsPassive t →
        IsClean r (at_boot r t.here) (part t.here entries) → IsQuietAt (run_local r (at_boot r t.here) (part t.here entries)) }
    ensures stuck { (r : Rules) (t : Tables) (entries : List Entry) → StandsWith r t [] [] entries →
        NoneIsFree (fired_acts t) t.objects t.accepted → t.running ≡ [] → t.pending ≡ [] → t.accepted ≡ [] }
{}

/// A passive node has no action to start, no job to finish, nothing to tend to and no frame to send: the next entry that it writes is a
/// line that is fed, or a frame that comes.
pub fn sleep_law()
    ensures starts { (t t' : Tables) (job : Job) → IsPassive t → Starts t t' job → ⊥ }
    ensures finishes { (t : Tables) (job : Job) → IsPassive t → IsRunning t job → ⊥ }
    ensures tends { (t t' : Tables) (entries entries' : List Entry) → IsPassive t → Tends t t' entries entries' → ⊥ }
    ensures sends { (t : Tables) (to : ℕ) (frame : List ℕ) → IsPassive t → IsSpelled t to frame → ⊥ }
{}

/// Nothing idle: in each row what has gone and what is still here is what was caused, from boot on, and from any moment on
/// at which the node was passive; the rows of one object's moves are kept away from where these begin. And so actions go through
/// messages after their objects no more often than they came or were sent. An id goes or is handed over with no more credit no more
/// often than one came so or was refused here. Where the node is passive each dead object of its home was freed here or a Free of it
/// was sent, and each Free that came has freed its object.
/// Of moves: no more messages tell that an object has landed than MOVEs are done, from boot on and from any moment on at which the node
/// was passive. Each frame goes to where its message may go. An Apply, a Move or a Go is sent only where that had to go on, at some
/// length of the part from which on it has waited here: its object did not stand here, or a MOVE of that from here waited, or it is one
/// itself; and it is sent to the home of the object, or from the home to where the object was by what had come and was granted. And an
/// action on an object of this home goes on from here only after a move of the object from here was granted: it has left, unless the
/// grant is still to be dealt with here.
pub fn idle_law()
    ensures boot { (r : Rules) (t : Tables) (entries : List Entry) → StandsWith r t [] [] entries → (row : Row) → IsRowAt t.localities t.here row →
        sum_by (λ (e : Entry). goes r row e.event) (part t.here entries) + unpaid row t
        ≡ sum_by (λ (e : Entry). causes r row e.event) (part t.here entries) }
    ensures since { (r : Rules) (t t' : Tables) (entries later : List Entry) → StandsWith r t [] [] entries → IsPassive t →
        StandsWith r t' [] [] (entries ++ later) → t'.here ≡ t.here → (row : Row) →
        IsRowAt t.localities t.here row → IsRowAt t'.localities t'.here row →
        sum_by (λ (e : Entry). goes r row e.event) (part t.here later) + unpaid row t'
        ≡ sum_by (λ (e : Entry). causes r row e.event) (part t.here later) }
    ensures once { (r : Rules) (t : Tables) (entries : List Entry) → StandsWith r t [] [] entries →
        sum_by (λ (e : Entry). hops r e.event) (part t.here entries) ≤ sum_by (λ (e : Entry). sets_out r e.event) (part t.here entries) }
    ensures once_since { (r : Rules) (t t' : Tables) (entries later : List Entry) → StandsWith r t [] [] entries → IsPassive t →
        StandsWith r t' [] [] (entries ++ later) → t'.here ≡ t.here →
        sum_by (λ (e : Entry). hops r e.event) (part t.here later) ≤ sum_by (λ (e : Entry). sets_out r e.event) (part t.here later) }
    ensures refuses { (r : Rules) (t : Tables) (entries : List Entry) → StandsWith r t [] [] entries → RefusesForCause r (part t.here entries) }
    ensures frees { (r : Rules) (t : Tables) (entries : List Entry) → StandsWith r t [] [] entries → IsPassive t →
        FreesTheDead r t.here (part t.here entries) }
    ensures landeds { (r : Rules) (t : Tables) (entries : List Entry) → StandsWith r t [] [] entries →
        IsClean r (at_boot r t.here) (part t.here entries) →
        sum_by (λ (e : Entry). goes r Landeds e.event) (part t.here entries) ≤ moves_done (run_local r (at_boot r t.here) (part t.here entries)) }
    ensures landeds_since { (r : Rules) (t t' : Tables) (entries later : List Entry) → StandsWith r t [] [] entries → IsPassive t →
        StandsWith r t' [] [] (entries ++ later) → t'.here ≡ t.here → IsClean r (at_boot r t.here) (part t.here (entries ++ later)) →
        sum_by (λ (e : Entry). goes r Landeds e.event) (part t.here later) + moves_done (run_local r (at_boot r t.here) (part t.here entries))
        ≤ moves_done (run_local r (at_boot r t.here) (part t.here (entries ++ later))) }
    ensures ways { (r : Rules) (t : Tables) (entries : List Entry) → StandsAtRest r t entries →
        AllByRecursion (λ (e : Entry). SendsOwn r t.localities t.here t.profile.credit_log e.event) (part t.here entries) }
    ensures strict { (r : Rules) (t : Tables) (entries : List Entry) → StandsAtRest r t entries → HaveGone r t.here (part t.here entries) }
    ensures onward { (r : Rules) (t : Tables) (entries : List Entry) (o : Id) → StandsAtRest r t entries →
        1 ≤ sum_by (λ (e : Entry). gone r (leads_on t.here o) e.event) (part t.here entries) →
        1 ≤ sum_by (λ (e : Entry). grants_left o e.event) (part t.here entries) + grants_in o t }
    ensures left { (r : Rules) (t : Tables) (entries : List Entry) (o : Id) → StandsAtRest r t entries → IsPassive t →
        1 ≤ sum_by (λ (e : Entry). gone r (leads_on t.here o) e.event) (part t.here entries) →
        1 ≤ sum_by (λ (e : Entry). grants_left o e.event) (part t.here entries) }
{}

/// A commit that waits splits what it has ahead, and splits the rest once it goes on: in all as often as one that does not wait,
/// which splits each id of its hand once less often than it is named.
pub fn cuts_law()
    ensures { (n : ℕ) (s : Stock) (hand : List Id) → n ≤ length s.hand → AreWithin s.hand s.places → length hand ≡ length (ahead n s).hand →
        length (first_cuts n 0 s.hand s.places) + length (splits_from 0 hand (ahead n s).places) ≡ length (splits_from 0 s.hand s.places) }
{}

/// What calls tell of a node is so at its locality, where its part leads, up to a foreign arrival: which objects stand there, the
/// credit that is held and owed there, how many answers the session waits for, and of a passive one that as many credits are held
/// as objects are named.
pub fn numbers_law()
    ensures holds { (r : Rules) (t : Tables) (entries : List Entry) (o : Id) → StandsWith r t [] [] entries →
        IsClean r (at_boot r t.here) (part t.here entries) →
        stands_here t o ≡ is_some (find (is_standing o) (run_local r (at_boot r t.here) (part t.here entries)).objects) }
    ensures held { (r : Rules) (t : Tables) (entries : List Entry) (o : Id) → StandsWith r t [] [] entries →
        IsClean r (at_boot r t.here) (part t.here entries) →
        sum_by (held_worth o) (run_local r (at_boot r t.here) (part t.here entries)).tokens ≡ held_here t o }
    ensures owed { (r : Rules) (t : Tables) (entries : List Entry) (o : Id) → StandsWith r t [] [] entries →
        IsClean r (at_boot r t.here) (part t.here entries) →
        sum_by (owed_worth o) (run_local r (at_boot r t.here) (part t.here entries)).tokens ≡ owed_here t o }
    ensures frames { (r : Rules) (t : Tables) (entries : List Entry) → StandsWith r t [] [] entries →
        (t.sent ≡ length (outs (part t.here entries))) × (t.taken ≡ length (ins (part t.here entries))) }
    ensures rest { (r : Rules) (t : Tables) (entries : List Entry) (o : Id) → StandsWith r t [] [] entries → IsPassive t → 16 ≤ o.kind →
        IsClean r (at_boot r t.here) (part t.here entries) →
        count_by (is_held o) (run_local r (at_boot r t.here) (part t.here entries)).tokens
        ≡ names o (run_local r (at_boot r t.here) (part t.here entries)) }
    ensures answers { (r : Rules) (t : Tables) (entries : List Entry) → StandsWith r t [] [] entries →
        IsClean r (at_boot r t.here) (part t.here entries) →
        awaited_here t ≡ awaited_at (run_local r (at_boot r t.here) (part t.here entries)) }
{}

/// Where there is room, a call leaves a journal within its limits.
pub fn limits_law()
    ensures { (old new : List Entry) → HasRoom old → AddsATurn old new → IsWithin new }
{}
