//! Whether the program is to be one locality of several processes, and which.
ghost use Rattle.std.specs.Prelude.{◌≡◌, IfSome};
ghost use Rattle.hpx_process.specs.Memberships.{IsMembership, errand_of, membership_in, membership_of, node_of, role_of};

use crate::problem::Problem;
use hpx_options::options::read;
use hpx_options::settings::{Counters, Mode, OptionFault, Settings};
use hpx_top::consoles::UserConsole;
use hpx_top::task::{Task, are_places, is_tuned, task_of};
use hpx_value::items::Texts;
use hpx_value::profile::Profile;

/// Which locality a process is.
#[derive(Clone, Copy, Debug, PartialEq, Eq)]
pub enum Role {
    /// Locality 0, which reads and writes. With `settles` it feeds each line but the first behind a round whose counts agree.
    Console { settles: bool },
    /// Another locality, which does neither.
    Worker { node: u32 },
}

impl Role {
    /// The number of the locality.
    pub fn node(self) -> u32
        ensures { result ≡ node_of self }
    {
        match self {
            Role::Console { settles: _ } => 0,
            Role::Worker { node } => node,
        }
    }
}

/// What the processes do together.
#[derive(Clone, Copy, Debug, PartialEq, Eq)]
pub enum Errand {
    /// A session of the accumulator's console.
    Session,
    /// Something is computed.
    Problem(Problem),
}

/// One locality of several processes: which it is, what they do, at which port locality 0 listens, and the counters that the console writes at the
/// end.
#[derive(Drop)]
pub struct Membership {
    pub role: Role,
    pub errand: Errand,
    pub localities: u32,
    pub port: u16,
    pub profile: Profile,
    pub counters: Counters,
}

/// The role of a process of so many, and the port of locality 0; None where there is one process alone.
fn role_of(mode: Mode, settles: bool, localities: u32) -> Option<(Role, u16)>
    ensures { result ≡ role_of mode settles localities }
{
    match mode {
        Mode::Hosted => None,
        Mode::Console { port } => Some((Role::Console { settles }, port)),
        Mode::Worker { node, port } => {
            (1 <= node && node < localities).then_some((Role::Worker { node }, port))
        }
    }
}

/// What several processes do for a task, where they do it.
fn errand_of(task: Task) -> Option<Errand>
    ensures { result ≡ errand_of task }
{
    match task {
        Task::Console(UserConsole::Accumulator) => Some(Errand::Session),
        Task::Fib(question) => Some(Errand::Problem(Problem::Number(question))),
        Task::Stencil(shape) => Some(Errand::Problem(Problem::Ring(shape))),
        Task::Console(UserConsole::Space) => None,
        Task::Load(_) => None,
    }
}

/// The membership that settings ask for, if they ask for one.
fn membership_of(settings: Settings) -> Option<Membership>
    ensures { result ≡ membership_of settings }
{
    if settings.journal || !are_places(settings.localities) || !is_tuned(settings.profile) {
        return None;
    }
    let (role, port) = role_of(settings.mode, settings.settle, settings.localities)?;
    let errand = errand_of(task_of(settings.app)?)?;
    Some(Membership {
        role,
        errand,
        localities: settings.localities,
        port,
        profile: settings.profile,
        counters: settings.counters,
    })
}

/// The membership that words ask for, if they ask for one.
pub fn membership_in(words: &Texts) -> Option<Membership>
    ensures is { result ≡ membership_in words.now }
    ensures fits { IfSome result IsMembership }
{
    match read(words) {
        Ok(settings) => membership_of(settings),
        Err(OptionFault { place: _ }) => None,
    }
}
