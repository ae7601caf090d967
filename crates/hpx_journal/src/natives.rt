//! What comes over the road names only what there is: the contracts are laws over legal journals.
ghost use Rattle.std.specs.Prelude.{ℕ, List, ◌≤◌, ◌<◌};
ghost use Rattle.std.specs.List.{sum_by};
ghost use Rattle.hpx_value.specs.Ids.{Id};
ghost use Rattle.hpx_journal.specs.Entries.{Entry, Frame, Rules};
ghost use Rattle.hpx_journal.specs.Tokens.{worth};
ghost use Rattle.hpx_journal.specs.Frames.{tokens_in};
ghost use Rattle.hpx_journal.specs.Whole.{IsLegal, IsJoin, replayed, credit_sum, names_in};
ghost use Rattle.hpx_journal.specs.Laws.{KeepsActLaws, HasGrammar, IsOnRoad};
ghost use Rattle.hpx_journal.specs.Natives.{EachAct, EachName, IsRootIfSmall, IsRootId, StandsAtHome, IsAlive};

/// What has credit is at home at a locality that there is, was born, and neither died nor was freed. What is named has
/// credit, and so has what a frame on the road or a locality has tokens of.
pub fn homes_law()
    ensures homes { (r : Rules) (es : List Entry) (o : Id) → IsLegal r es → 1 ≤ credit_sum r o (replayed r es) → o.home < r.localities }
    ensures counts { (r : Rules) (es : List Entry) (o : Id) → IsLegal r es → 1 ≤ credit_sum r o (replayed r es) → IsAlive r es o }
    ensures credited { (r : Rules) (es : List Entry) (o : Id) → HasGrammar r → IsJoin r es → 16 ≤ o.kind →
        1 ≤ names_in r o (replayed r es) → 1 ≤ credit_sum r o (replayed r es) }
    ensures named { (r : Rules) (es : List Entry) → HasGrammar r → IsJoin r es →
        EachName r (λ o. 16 ≤ o.kind → 1 ≤ credit_sum r o (replayed r es)) (replayed r es) }
    ensures near { (r : Rules) (es : List Entry) → HasGrammar r → IsJoin r es →
        EachName r (λ o. 16 ≤ o.kind → o.home < r.localities) (replayed r es) }
    ensures alive { (r : Rules) (es : List Entry) → HasGrammar r → IsJoin r es →
        EachName r (λ o. 16 ≤ o.kind → IsAlive r es o) (replayed r es) }
    ensures on_road { (r : Rules) (es : List Entry) (f : Frame) (o : Id) → IsOnRoad f (replayed r es) →
        sum_by (worth o) (tokens_in (r.parcel_of f.1)) ≤ credit_sum r o (replayed r es) }
    ensures here { (r : Rules) (es : List Entry) (k : ℕ) (o : Id) → k < r.localities →
        sum_by (worth o) ((replayed r es).places k).tokens ≤ credit_sum r o (replayed r es) }
{}

/// Each action comes from a locality that there is, and each id of a root's kind is that of a root, which stands at its home.
pub fn natives_law()
    ensures origins { (r : Rules) (es : List Entry) → IsLegal r es → EachAct r (λ act. act.origin < r.localities) (replayed r es) }
    ensures roots { (r : Rules) (es : List Entry) → HasGrammar r → KeepsActLaws r → IsLegal r es →
        EachName r (IsRootIfSmall r.localities) (replayed r es) }
    ensures stand { (r : Rules) (es : List Entry) (o : Id) → 1 ≤ r.localities → IsLegal r es → IsRootId r.localities o →
        StandsAtHome r.localities (replayed r es) o }
    ensures near { (r : Rules) (es : List Entry) → HasGrammar r → KeepsActLaws r → 1 ≤ r.localities → IsJoin r es →
        EachName r (λ o. o.home < r.localities) (replayed r es) }
{}
