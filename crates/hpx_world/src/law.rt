//! What the localities together know of objects that move.
ghost use Rattle.std.specs.Prelude.{[], List, length};
ghost use Rattle.hpx_value.specs.declared.profile.Profile.{Profile};
ghost use Rattle.hpx_journal.specs.Laws.{KeepsActLaws};
ghost use Rattle.hpx_journal.specs.Whole.{IsCarried};
ghost use Rattle.hpx_part.specs.Data.{Entry};
ghost use Rattle.hpx_steps.specs.Rest.{rules_of};
ghost use Rattle.hpx_tables.specs.Tables.{Tables};
ghost use Rattle.hpx_world.specs.Sound.{IsSound, Meaning};
ghost use Rattle.hpx_world.specs.Tracks.{MovesAreTracked};

/// Where each frame that was accepted had been sent, the home of each object with credit out has it move to a locality exactly where
/// one thing is under way for that; and it stands where its home says, or where something of its move is under way.
pub fn tracks_law()
    ensures { (act_of : Meaning) (profile : Profile) (nodes : List Tables) (es : List Entry) → IsSound act_of profile nodes es →
        KeepsActLaws (rules_of act_of (length nodes) profile) → IsCarried (rules_of act_of (length nodes) profile) [] es →
        MovesAreTracked (rules_of act_of (length nodes) profile) nodes es }
{}
