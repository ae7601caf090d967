//! The acts of hpx_trial at any number of localities, and jobs that find no memory.
ghost use Rattle.std.specs.Prelude.{◌≡◌, ◌∷◌, [], IfOk};
ghost use Rattle.hpx_trial.specs.Trial.{byte_in};
ghost use Rattle.hpx_world_tests.specs.Trials.{makes, making};

use hpx_journal::cargo::one;
use hpx_trial::trial::Trial;
use hpx_value::acts::Acts;
use hpx_value::codes::{COMPONENTS, LINE, SESSION};
use hpx_value::items::Items;
use hpx_value::memory::OutOfMemory;
use hpx_value::outcome::{NewState, Outcome, SendCont, Sending, Target};
use hpx_value::value::{Act, State, Value};
use std::alloc::Global;

/// The code that asks for a number to be made.
const NEW: u16 = 5;

/// The acts at so many localities.
#[derive(Clone, Copy)]
pub struct Trials {
    pub localities: u32,
    /// Whether no job finds memory to be run.
    pub is_full: bool,
}

/// The byte of a line of one byte; 0 for any other.
fn byte_in(args: &[Value]) -> u8
    ensures { result ≡ byte_in args.now }
{
    let [Value::Text(text)] = args else {
        return 0;
    };
    match text.as_slice() {
        [byte] => *byte,
        _ => 0,
    }
}

/// Whether this is the line n where the session keeps nothing.
fn makes(kind: u32, state: &State, action: &Act) -> bool
    ensures { result ≡ makes kind state.now action.now }
{
    state.conts.is_empty()
        && action.cont.is_none()
        && kind == SESSION
        && state.drawn < 100
        && action.code == LINE
        && state.values.is_empty()
        && byte_in(action.args.as_slice()) == b'n'
}

/// A number is to be made at the last locality.
fn making(alloc: Global, localities: u32, state: &State) -> Result<Outcome, OutOfMemory>
    ensures { IfOk result (λ out. out ≡ making localities state.now) }
{
    let Some(drawn) = state.drawn.checked_add(1) else {
        return Err(OutOfMemory);
    };
    let send = Sending {
        target: Target::Root {
            kind: COMPONENTS,
            at: localities.saturating_sub(1),
        },
        code: NEW,
        args: Items::new(alloc),
        cont: SendCont::Here { slot: state.drawn },
    };
    Ok(Outcome {
        state: NewState {
            drawn,
            values: Items::new(alloc),
            conts: Items::new(alloc),
        },
        makes: Items::new(alloc),
        sends: one(alloc, send)?,
        replies: Items::new(alloc),
        prints: Items::new(alloc),
    })
}

impl Acts for Trials {
    ghost use Rattle.hpx_trial.specs.Trial.{trial};
    ghost use Rattle.hpx_trial.specs.TrialLaws.{trial_keeps, trial_blind};

    ghost count = { λ acts. acts.localities };

    ghost act_of = { trial };

    fn localities(&self) -> u32 {
        self.localities
    }

    #[tactic(auto, using(crate::proofs::Elsewhere::same_elsewhere, crate::proofs::Elsewhere::makes_there))]
    fn act(
        &self,
        alloc: Global,
        kind: u32,
        here: u32,
        state: &State,
        action: &Act,
    ) -> Result<Outcome, OutOfMemory> {
        if self.is_full {
            return Err(OutOfMemory);
        }
        if makes(kind, state, action) {
            return making(alloc, self.localities, state);
        }
        Trial.act(alloc, kind, here, state, action)
    }

    ghost keeps_laws = { trial_keeps };

    ghost is_blind = { trial_blind };
}
