//! Which entries lead from what a locality is seen to have to what it is seen to have then: one law for each entry, whatever
//! the journal. Where a law asks that a view stays covered, the entry alone does not tell.
ghost use Rattle.std.specs.Prelude.{ℕ, Bool, true, false, cond, List, [], ◌∷◌, ◌++◌, ◌≡◌, ◌≢◌, ◌≤◌, ◌<◌, ◌+◌, ◌-◌, ◌^◌, ◌==◌, ◌⊎◌, Option, Some, None, IfSome, length, map};
ghost use Rattle.std.specs.List.{find, list_any, count_by};
ghost use Rattle.hpx_value.specs.Ids.{same_object};
ghost use Rattle.hpx_value.specs.Values.{named};
ghost use Rattle.hpx_value.specs.Hands.{state_after};
ghost use Rattle.hpx_value.specs.Riders.{plain, due_with};
ghost use Rattle.hpx_value.specs.Shapes.{IsState};
ghost use Rattle.hpx_parcel.specs.Parcels.{IsParcel};
ghost use Rattle.hpx_journal.specs.Data.{Id, Act, State, Message, Outcome, Due, MessageDue, PrintDue, Parcel, Free};
ghost use Rattle.hpx_journal.specs.Entries.{Rules, name_of, target_of, move_to, line_act};
ghost use Rattle.hpx_journal.specs.Tokens.{held_token, owed_token, same_token};
ghost use Rattle.hpx_journal.specs.Local.{is_act, is_standing, is_travel, is_recorded, acts_on, is_busy, count_in, failure, leaving, stood};
ghost use Rattle.hpx_journal.specs.Rows.{AreMade, IsManaged, is_refused, is_move_of};
ghost use Rattle.hpx_part.specs.Data.{Event, Line, Fire, Split, Born, Done, Sent, Print, Merge, Up, Asked, Given, Count, Returned, Granted, Refused, Freed, Left, Landed, Looked, Mail, Out, In, Entry, Standing, Travel, Token, Recorded, Refusal};
ghost use Rattle.hpx_part.specs.View.{View, IsCovered};
ghost use Rattle.hpx_part.specs.Shows.{Follows, Leads, SaysLess};
ghost use Rattle.hpx_part.specs.Loads.{Load, Exchanges, load_of, standing_load, travel_load, with_load, nothing};
ghost use Rattle.hpx_part.specs.Parts.{StandsFor, Trades, Adds, MayLeave, at_all, view_at_boot, next_in};

/// At boot the roots stand, and nothing else is there.
pub fn boot_law()
    ensures { (r : Rules) (k : ℕ) → StandsFor r (view_at_boot r.localities k) [] }
{}

/// Entries that lead from what is seen to what is seen then keep the locality's part.
pub fn grow_law()
    ensures { (r : Rules) (v w : View) (entries : List Entry) (events : List Event) →
        StandsFor r v entries → Leads r v events w → StandsFor r w (entries ++ at_all v.here events) }
{}

/// One way after another.
pub fn chain_law()
    ensures { (r : Rules) (v m w : View) (xs ys : List Event) → Leads r v xs m → Leads r m ys w → Leads r v (xs ++ ys) w }
{}

/// A line that is fed waits.
pub fn line_law()
    ensures { (r : Rules) (v : View) (l m : List Act) (bytes : List ℕ) → v.due ≡ [] → v.fresh ≡ [] →
        v.here ≡ 0 → length bytes ≤ 1025 → v.waiting ≡ l ++ m →
        Follows r v (Line (next_in v) bytes)
        (record v { serial = v.serial + 1; waiting = l ++ line_act (next_in v) bytes ∷ m; last = Some (Line (next_in v) bytes) }) }
{}

/// A waiting action is fired where its object stands and is not busy.
pub fn fire_law()
    ensures { (r : Rules) (v : View) (l m fl fm : List Act) (act : Act) (x : Standing) → v.due ≡ [] → v.fresh ≡ [] →
        v.waiting ≡ l ++ act ∷ m → v.fired ≡ fl ++ fm → find (is_standing (target_of act)) v.objects ≡ Some x →
        is_busy (target_of act) v.fired ≡ false → IfSome (move_to act) (λ t. t ≡ v.here) →
        Follows r v (Fire (name_of act))
        (record v { waiting = l ++ m; fired = fl ++ act ∷ fm; last = Some (Fire (name_of act)) }) }
{}

/// An id is halved.
pub fn split_law()
    ensures { (r : Rules) (v : View) (o : Id) (log : ℕ) (tokens : List Token) → v.due ≡ [] → o.log ≡ None → 1 ≤ log →
        1 ≤ count_by (same_token (held_token o log)) v.tokens →
        Trades v.tokens (held_token o log ∷ []) (held_token o (log - 1) ∷ held_token o (log - 1) ∷ []) tokens →
        Follows r v (Split o log) (record v { tokens = tokens; last = Some (Split o log) }) }
{}

/// An object is made.
pub fn born_law()
    ensures { (r : Rules) (v : View) (o : Id) (state : State) (l m : List Standing) (tokens : List Token) (live : List Recorded) →
        v.due ≡ [] → o.log ≡ None → o.home ≡ v.here → IsManaged o → o.number ≡ v.number + 1 →
        state.drawn ≡ 0 → state.conts ≡ [] → state.ids ≡ [] → IsState state → v.objects ≡ l ++ m →
        Trades v.tokens [] (held_token o r.credit_log ∷ []) tokens →
        ((x : Id) → x.home ≡ v.here → count_in (find (is_recorded x) live)
        ≡ cond (same_object x o) (2 ^ r.credit_log) (count_in (find (is_recorded x) v.live))) →
        Follows r v (Born o state)
        (record v {
          number = v.number + 1;
          objects = l ++ record { object = o; state = state } ∷ m;
          fresh = v.fresh ++ o ∷ [];
          tokens = tokens;
          live = live;
          last = Some (Born o state);
        }) }
{}

/// A fired action is committed: its target has the state of the outcome of the action without its rider, and what that
/// outcome leaves is due, an answer that rides with its rider.
pub fn done_law()
    ensures { (r : Rules) (v : View) (fl fm : List Act) (l m : List Standing) (act : Act) (x : Standing) (out : Outcome) →
        v.due ≡ [] → v.fired ≡ fl ++ act ∷ fm → v.objects ≡ l ++ x ∷ m → find (is_standing (target_of act)) v.objects ≡ Some x →
        out ≡ r.outcome_of x.object.kind v.here x.state (plain act) → AreMade out.makes v.fresh v.objects →
        (IsCovered v → IsCovered (record v {
          fired = fl ++ fm;
          objects = l ++ record { object = x.object; state = state_after x.state (plain act) v.fresh out } ∷ m;
          fresh = [];
          due = due_with x.state (plain act) v.fresh out;
          last = Some (Done (name_of act) false);
        })) →
        Follows r v (Done (name_of act) false)
        (record v {
          fired = fl ++ fm;
          objects = l ++ record { object = x.object; state = state_after x.state (plain act) v.fresh out } ∷ m;
          fresh = [];
          due = due_with x.state (plain act) v.fresh out;
          last = Some (Done (name_of act) false);
        }) }
{}

/// A fired action fails: its target stays as it is, and the failure is due.
pub fn fail_law()
    ensures { (r : Rules) (v : View) (fl fm : List Act) (act : Act) (x : Standing) (n : ℕ) →
        v.due ≡ [] → v.fresh ≡ [] → v.fired ≡ fl ++ act ∷ fm → find (is_standing (target_of act)) v.objects ≡ Some x →
        list_any (is_refused act x.state) v.refusals ≡ true → v.failing ≡ n + 1 →
        (IsCovered v → IsCovered (record v { fired = fl ++ fm; due = failure act; failing = n; last = Some (Done (name_of act) true) })) →
        Follows r v (Done (name_of act) true)
        (record v { fired = fl ++ fm; due = failure act; failing = n; last = Some (Done (name_of act) true) }) }
{}

/// The first of what is due is sent: it waits under the next name.
pub fn sent_law()
    ensures { (r : Rules) (v : View) (message : Message) (rest : List Due) (l m : List Act) → v.fresh ≡ [] →
        v.due ≡ MessageDue message ∷ rest → v.waiting ≡ l ++ m →
        Follows r v (Sent (next_in v))
        (record v { serial = v.serial + 1; waiting = l ++ named v.here (v.serial + 1) message ∷ m; due = rest; last = Some (Sent (next_in v)) }) }
{}

/// The first of what is due is printed.
pub fn print_law()
    ensures { (r : Rules) (v : View) (bytes : List ℕ) (rest : List Due) → v.fresh ≡ [] → v.due ≡ PrintDue bytes ∷ rest →
        Follows r v (Print bytes) (record v { due = rest; last = Some (Print bytes) }) }
{}

/// A rider and an id of its object, of one log, become one id of the log above.
pub fn merge_law()
    ensures { (r : Rules) (v : View) (o : Id) (log : ℕ) (tokens : List Token) → v.due ≡ [] → v.fresh ≡ [] → o.log ≡ None → log < r.credit_log →
        2 ≤ count_by (same_token (held_token o log)) v.tokens →
        Trades v.tokens (held_token o log ∷ held_token o log ∷ []) (held_token o (log + 1) ∷ []) tokens →
        (IsCovered v → IsCovered (record v { tokens = tokens; last = Some (Merge o log) })) →
        Follows r v (Merge o log) (record v { tokens = tokens; last = Some (Merge o log) }) }
{}

/// An id is given up: its credit is owed to the home.
pub fn up_law()
    ensures { (r : Rules) (v : View) (o : Id) (log : ℕ) (tokens : List Token) → v.due ≡ [] → v.fresh ≡ [] → o.log ≡ None →
        1 ≤ count_by (same_token (held_token o log)) v.tokens →
        Trades v.tokens (held_token o log ∷ []) (owed_token o log ∷ []) tokens →
        (IsCovered v → IsCovered (record v { tokens = tokens; last = Some (Up o log) })) →
        Follows r v (Up o log) (record v { tokens = tokens; last = Some (Up o log) }) }
{}

/// An id of log 0 is asked for.
pub fn asked_law()
    ensures { (r : Rules) (v : View) (o : Id) (tokens : List Token) (asking asks : List Id) → v.due ≡ [] → v.fresh ≡ [] → o.log ≡ None →
        1 ≤ count_by (same_token (held_token o 0)) v.tokens →
        Trades v.tokens (held_token o 0 ∷ []) (owed_token o 0 ∷ []) tokens → Adds o v.asking asking → Adds o v.asks asks →
        Follows r v (Asked o) (record v { tokens = tokens; asking = asking; asks = asks; last = Some (Asked o) }) }
{}

/// What was asked for is given. With log 0 it refuses each action that is fired.
pub fn given_law()
    ensures { (r : Rules) (v : View) (o : Id) (log : ℕ) (tokens : List Token) (asking asks : List Id) → v.due ≡ [] → v.fresh ≡ [] →
        o.log ≡ None → (log ≡ 0) ⊎ (log ≡ r.credit_log) → 1 ≤ count_by (same_token (owed_token o log)) v.tokens →
        Trades v.tokens (owed_token o log ∷ []) (held_token o log ∷ []) tokens → Adds o asking v.asking → Adds o asks v.asks →
        Follows r v (Given o log)
        (record v {
          tokens = tokens;
          asking = asking;
          asks = asks;
          refusals = cond (log == 0) (map (λ act. record { action = name_of act; object = o }) v.fired) [] ++ v.refusals;
          failing = cond (log == 0) (v.failing + 1) v.failing;
          last = Some (Given o log);
        }) }
{}

/// Credit comes home. An object whose count is 0 then is dead.
pub fn returned_law()
    ensures { (r : Rules) (v : View) (o : Id) (log count : ℕ) (tokens : List Token) (live : List Recorded) → v.due ≡ [] → v.fresh ≡ [] →
        o.log ≡ None → o.home ≡ v.here → count_in (find (is_recorded o) v.live) ≡ count + 2 ^ log →
        1 ≤ count_by (same_token (owed_token o log)) v.tokens → Trades v.tokens (owed_token o log ∷ []) [] tokens →
        ((x : Id) → x.home ≡ v.here → count_in (find (is_recorded x) live)
        ≡ cond (same_object x o) count (count_in (find (is_recorded x) v.live))) →
        (IsCovered v → IsCovered (record v {
          tokens = tokens;
          live = live;
          dead = cond (count == 0) (o ∷ []) [] ++ v.dead;
          last = Some (Count o count (Returned log));
        })) →
        Follows r v (Count o count (Returned log))
        (record v { tokens = tokens; live = live; dead = cond (count == 0) (o ∷ []) [] ++ v.dead; last = Some (Count o count (Returned log)) }) }
{}

/// More credit is granted.
pub fn granted_law()
    ensures { (r : Rules) (v : View) (o : Id) (old count : ℕ) (tokens : List Token) (live : List Recorded) → v.due ≡ [] → v.fresh ≡ [] →
        o.log ≡ None → o.home ≡ v.here → count_in (find (is_recorded o) v.live) ≡ old → 1 ≤ old →
        count + 1 ≡ old + 2 ^ r.credit_log → count ≤ r.credit_limit →
        1 ≤ count_by (same_token (owed_token o 0)) v.tokens →
        Trades v.tokens (owed_token o 0 ∷ []) (owed_token o r.credit_log ∷ []) tokens →
        ((x : Id) → x.home ≡ v.here → count_in (find (is_recorded x) live)
        ≡ cond (same_object x o) count (count_in (find (is_recorded x) v.live))) →
        Follows r v (Count o count Granted) (record v { tokens = tokens; live = live; last = Some (Count o count Granted) }) }
{}

/// More credit is refused.
pub fn refused_law()
    ensures { (r : Rules) (v : View) (o : Id) (count : ℕ) → v.due ≡ [] → v.fresh ≡ [] → o.log ≡ None → o.home ≡ v.here →
        count_in (find (is_recorded o) v.live) ≡ count → 1 ≤ count → r.credit_limit + 1 < count + 2 ^ r.credit_log →
        1 ≤ count_by (same_token (owed_token o 0)) v.tokens →
        Follows r v (Count o count Refused) (record v { last = Some (Count o count Refused) }) }
{}

/// A message to the own locality is handled.
pub fn mail_law()
    ensures { (r : Rules) (v : View) (kind : ℕ) → v.due ≡ [] → v.fresh ≡ [] → 1 ≤ kind → kind ≤ 10 →
        Follows r v (Mail kind) (record v { last = Some (Mail kind) }) }
{}

/// A dead object is freed, straight after what told so.
pub fn freed_law()
    ensures mailed { (r : Rules) (v : View) (o : Id) (x : Standing) (l m : List Standing) → v.due ≡ [] → v.fresh ≡ [] →
        IsManaged o → o.log ≡ None → v.objects ≡ l ++ x ∷ m → same_object o x.object ≡ true →
        list_any (acts_on o) v.waiting ≡ false → list_any (acts_on o) v.fired ≡ false →
        v.last ≡ Some (Mail 10) → o.home ≡ v.here → list_any (same_object o) v.dead ≡ true →
        Follows r v (Freed o) (record v { objects = l ++ m; last = Some (Freed o) }) }
    ensures taken { (r : Rules) (v : View) (o : Id) (x : Standing) (l m : List Standing) (bytes : List ℕ) → v.due ≡ [] → v.fresh ≡ [] →
        IsManaged o → o.log ≡ None → v.objects ≡ l ++ x ∷ m → same_object o x.object ≡ true →
        list_any (acts_on o) v.waiting ≡ false → list_any (acts_on o) v.fired ≡ false →
        v.last ≡ Some (In bytes) → r.parcel_of bytes ≡ Some (Free o) →
        Follows r v (Freed o) (record v { objects = l ++ m; last = Some (Freed o) }) }
{}

/// An object that is not busy leaves with a MOVE that waits: it is on its way to the place of the MOVE.
pub fn left_law()
    ensures { (r : Rules) (v w : View) (o : Id) (to : ℕ) (x : Standing) → v.due ≡ [] → v.fresh ≡ [] → IsManaged o → o.log ≡ None →
        find (is_standing o) v.objects ≡ Some x → is_busy o v.fired ≡ false → list_any (is_move_of o to) v.waiting ≡ true → to ≢ v.here →
        w ≡ record v { objects = w.objects; travels = w.travels; last = Some (Left o to) } →
        Exchanges (standing_load x) (travel_load (leaving to x)) v w → Follows r v (Left o to) w }
{}

/// An object that came to where it is to go stands there.
pub fn landed_law()
    ensures { (r : Rules) (v w : View) (o : Id) (x : Travel) → v.due ≡ [] → v.fresh ≡ [] → IsManaged o → o.log ≡ None →
        find (is_travel o) v.travels ≡ Some x → x.to ≡ v.here →
        w ≡ record v { objects = w.objects; travels = w.travels; last = Some (Landed o) } →
        Exchanges (travel_load x) (standing_load (stood x)) v w → Follows r v (Landed o) w }
{}

/// After an action was sent, the cache is asked where its object is.
pub fn looked_law()
    ensures { (r : Rules) (v : View) (o : Id) (hit : Bool) (act : Act) → v.fresh ≡ [] → o.log ≡ None → o.home ≢ v.here →
        v.last ≡ Some (Sent (name_of act)) → find (is_act (name_of act)) v.waiting ≡ Some act → same_object o (target_of act) ≡ true →
        Follows r v (Looked o hit) (record v { last = Some (Looked o hit) }) }
{}

/// A frame goes out, with what its parcel carries.
pub fn out_law()
    ensures { (r : Rules) (v w : View) (p : Parcel) (to : ℕ) (bytes : List ℕ) → v.due ≡ [] → v.fresh ≡ [] →
        to < r.localities → to ≢ v.here → r.parcel_of bytes ≡ Some p → MayLeave v to p →
        w ≡ record v { waiting = w.waiting; travels = w.travels; tokens = w.tokens; asks = w.asks; last = Some (Out to bytes) } →
        Exchanges (load_of p) nothing v w → (IsCovered v → IsCovered w) → Follows r v (Out to bytes) w }
{}

/// A frame comes in, with what its parcel carries.
pub fn in_law()
    ensures { (r : Rules) (v w : View) (p : Parcel) (bytes : List ℕ) → v.due ≡ [] → v.fresh ≡ [] → r.parcel_of bytes ≡ Some p → IsParcel p →
        w ≡ record v { waiting = w.waiting; travels = w.travels; tokens = w.tokens; asks = w.asks; last = Some (In bytes) } →
        Exchanges nothing (load_of p) v w → Follows r v (In bytes) w }
{}

/// One exchange after another is one; what goes and comes again does neither.
pub fn exchange_law()
    ensures after { (a b c d : Load) (v m w : View) → Exchanges a b v m → Exchanges c d m w → Exchanges (with_load a c) (with_load b d) v w }
    ensures less { (x a b : Load) (v w : View) → Exchanges (with_load x a) (with_load x b) v w → Exchanges a b v w }
{}

/// What says of a locality no more than is seen may be said.
pub fn weaken_law()
    ensures { (r : Rules) (v w : View) → SaysLess v w → Leads r v [] w }
{}
