//! What actions on plain objects and on parts of a ring do.
ghost use Rattle.std.specs.Prelude.{◌≡◌, ◌<◌, ◌⊎◌, IfOk};
ghost use Rattle.app_compute.specs.Acts.{compute_outcome};

use crate::plain::plain_act;
use hpx_numbers::act::number_act;
use hpx_value::codes::PLAIN;
use hpx_value::memory::OutOfMemory;
use hpx_value::outcome::Outcome;
use hpx_value::value::{Act, State};
use std::alloc::Global;

/// The outcome of an action on a plain object, kind 7, or on a part of a ring, kind 17, at a locality of so many. An `Err`
/// is for want of memory, or where a hand has more than 65,535 places or continuations, as none has that is well formed.
#[tactic(auto, unfolding(crate::specs::Acts::compute_outcome))]
pub fn compute_act(
    alloc: Global,
    kind: u32,
    here: u32,
    localities: u32,
    state: &State,
    action: &Act,
) -> Result<Outcome, OutOfMemory>
    requires kind { (kind ≡ 7) ⊎ (kind ≡ 17) }
    requires place { here < localities }
    ensures { IfOk result (λ outcome. outcome ≡ compute_outcome localities kind here state.now action.now) }
{
    if kind == PLAIN {
        plain_act(alloc, here, localities, state, action)
    } else {
        number_act(alloc, kind, here, state, action)
    }
}
