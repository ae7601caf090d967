//! What each step keeps: all that holds of a locality and its part of the journal, in the middle of a turn too.
ghost use Rattle.std.specs.Prelude.{◌++◌, ◌≤◌, List, None, length};
ghost use Rattle.hpx_journal.specs.Entries.{Rules};
ghost use Rattle.hpx_journal.specs.Weights.{HasRoom, total_weight};
ghost use Rattle.hpx_part.specs.Data.{Entry};
ghost use Rattle.hpx_part.specs.Parts.{at_all};
ghost use Rattle.hpx_tables.specs.Tables.{Tables};
ghost use Rattle.hpx_steps.specs.Limits.{AddsATurn, IsWithin};
ghost use Rattle.hpx_steps.specs.Numbered.{AreNumbered};
ghost use Rattle.hpx_steps.specs.Rest.{StandsAtRest};
ghost use Rattle.hpx_steps.specs.Sound.{AreRules, IsSound};
ghost use Rattle.hpx_steps.specs.Steps.{Label, Step, Steps, written, written_by};
ghost use Rattle.hpx_steps.specs.Turn.{Turn, at_rest};

/// One step, with its entry or without, and one step after another: where all holds before, it holds then, with what was written.
/// And where no two own Asks that are on their way have one number, none have then.
pub fn step_law()
    ensures step { (r : Rules) (s s' : Turn) (label : Label) (entries : List Entry) → IsSound r s entries → Step r s label s' →
        IsSound r s' (entries ++ at_all s.tables.here (written_by label)) }
    ensures steps { (r : Rules) (s s' : Turn) (labels : List Label) (entries : List Entry) → IsSound r s entries → Steps r s labels s' →
        IsSound r s' (entries ++ at_all s.tables.here (written labels)) }
    ensures numbered { (r : Rules) (s s' : Turn) (labels : List Label) (entries : List Entry) → IsSound r s entries → Steps r s labels s' →
        AreNumbered s → AreNumbered s' }
{}

/// Between turns the last entry need not be known.
pub fn rest_law()
    ensures { (r : Rules) (s : Turn) (entries : List Entry) → IsSound r s entries → IsSound r (record s { last = None }) entries }
{}

/// Between turns all that holds of a turn is what holds of the tables: that they stand for the part, own messages are in order, each
/// move was granted, and what waits lacks something.
pub fn tables_law()
    ensures told { (r : Rules) (t : Tables) (entries : List Entry) → IsSound r (at_rest t) entries → StandsAtRest r t entries }
    ensures back { (r : Rules) (t : Tables) (entries : List Entry) → AreRules r t → StandsAtRest r t entries → IsSound r (at_rest t) entries }
{}

/// A turn's limits are those of what it writes, and with room for a turn before, a journal is within its limits then.
pub fn limits_law()
    ensures turn { (r : Rules) (s s' : Turn) (labels : List Label) (entries : List Entry) → Steps r s labels s' → length (written labels) ≤ 1024 →
        total_weight (at_all s.tables.here (written labels)) ≤ 16777216 → AddsATurn entries (entries ++ at_all s.tables.here (written labels)) }
    ensures within { (old new : List Entry) → HasRoom old → AddsATurn old new → IsWithin new }
{}
