//! What all actions do: sessions, name services, numbers and control objects, by their kinds.
ghost use Rattle.std.specs.Prelude.{◌≡◌, IfOk};
ghost use Rattle.hpx_top.specs.Acts.{act_of};

use app_compute::act::compute_act;
use app_compute::computing::computing_act;
use app_compute::session::computes;
use app_console::act::{ACCUMULATOR_KIND, console_act};
use app_console::stay::refused;
use hpx_lco::act::lco_act;
use hpx_names::act::names_act;
use hpx_numbers::act::number_act;
use hpx_value::acts::Acts;
use hpx_value::codes::{FIRST_MANAGED, LAST_MOVABLE, PLAIN, SESSION};
use hpx_value::memory::OutOfMemory;
use hpx_value::outcome::Outcome;
use hpx_value::value::{Act, State};
use std::alloc::Global;

/// What actions do at a number of localities from 1 to 64: a session reads the lines of both consoles, or computes.
#[derive(Clone, Copy, Debug, PartialEq, Eq)]
pub struct AllActs {
    pub localities: u32,
}

const MOST_LOCALITIES: u32 = 64;

impl Acts for AllActs {
    ghost use Rattle.hpx_top.specs.Acts.{act_of};
    ghost use Rattle.hpx_top.specs.ActLaws.{keeps_laws, is_blind};

    ghost count = { λ acts. acts.localities };

    ghost act_of = { act_of };

    fn localities(&self) -> u32 {
        self.localities
    }

    fn act(
        &self,
        alloc: Global,
        kind: u32,
        here: u32,
        state: &State,
        action: &Act,
    ) -> Result<Outcome, OutOfMemory> {
        all_act(alloc, self.localities, kind, here, state, action)
    }

    ghost keeps_laws = { keeps_laws };

    ghost is_blind = { is_blind };
}

/// The outcome of an action on an object of any kind. An
/// `Err` is for want of memory, or where a hand has more than 65,535 places or continuations, as none has that is well formed.
#[tactic(auto, unfolding(crate::specs::Acts::act_of, app_console::specs::Session::act_of))]
pub fn all_act(
    alloc: Global,
    localities: u32,
    kind: u32,
    here: u32,
    state: &State,
    action: &Act,
) -> Result<Outcome, OutOfMemory>
    ensures { IfOk result (λ outcome. outcome ≡ act_of localities kind here state.now action.now) }
{
    if here >= localities || localities > MOST_LOCALITIES {
        return refused(alloc, state, action);
    }
    match kind {
        SESSION if computes(state, action) => {
            computing_act(alloc, here, localities, state, action)
        }
        SESSION | ACCUMULATOR_KIND => { console_act(alloc, kind, here, localities, state, action) }
        PLAIN => compute_act(alloc, kind, here, localities, state, action),
        _ if kind < FIRST_MANAGED => names_act(alloc, kind, here, localities, state, action),
        _ if kind <= LAST_MOVABLE => number_act(alloc, kind, here, state, action),
        _ => lco_act(alloc, kind, here, state, action),
    }
}
