//! What the words ask for.
ghost use Rattle.std.specs.Prelude.{◌≡◌};
ghost use Rattle.hpx_top.specs.Usage.{are_asked, are_places, are_threads, is_load, is_plain, is_ring, is_tuned, request_in, request_of, setup_of, task_of};

use crate::consoles::UserConsole;
use app_compute::line::Question;
use app_compute::shape::Shape;
use hpx_options::options::read;
use hpx_options::settings::{App, Counters, Mode, OptionFault, Settings};
use hpx_value::items::Texts;
use hpx_value::profile::Profile;

/// A session that is made from a number to start with: how many lines follow from it.
#[derive(Clone, Copy, Debug, PartialEq, Eq)]
pub struct Workload {
    pub start: u32,
    pub lines: u32,
}

/// An application that is run.
#[derive(Clone, Copy, Debug, PartialEq, Eq)]
pub enum Task {
    /// A console serves its input.
    Console(UserConsole),
    /// A Fibonacci number is computed.
    Fib(Question),
    /// A ring of points is stepped.
    Stencil(Shape),
    /// A made session is fed.
    Load(Workload),
}

/// An application, the localities and the profile that it is run over, by how many threads, and the counters that are printed behind it.
#[derive(Drop)]
pub struct Setup {
    pub task: Task,
    pub localities: u32,
    pub threads: u32,
    pub profile: Profile,
    pub counters: Counters,
}

/// What is printed where nothing is run.
#[derive(Clone, Copy, Debug, PartialEq, Eq)]
pub enum Notice {
    Help,
    Version,
    /// The names of all counters of so many localities.
    Counters(u32),
}

/// What the words ask for.
#[derive(Drop)]
pub enum Request {
    Print(Notice),
    Run(Setup),
}

const MOST_LOCALITIES: u32 = 64;

const MOST_THREADS: u32 = 64;

const GREATEST_NUMBER: u32 = 92;

const LEAST_THRESHOLD: u32 = 2;

const MOST_POINTS: u32 = 1024;

const MOST_PARTS: u32 = 32;

const MOST_STEPS: u32 = 1000;

const MOST_LINES: u32 = 20_000;

const GREATEST_START: u32 = 2_147_483_647;

/// A number and a threshold in their ranges.
fn are_asked(number: u32, threshold: u32) -> bool
    ensures { result ≡ are_asked number threshold }
{
    number <= GREATEST_NUMBER && LEAST_THRESHOLD <= threshold && threshold <= GREATEST_NUMBER
}

/// The numbers of a ring in their ranges, in parts of the same size.
fn is_ring(shape: Shape) -> bool
    ensures { result ≡ is_ring shape.points shape.parts shape.steps }
{
    let Shape {
        points,
        parts,
        steps,
    } = shape;
    1 <= points
        && points <= MOST_POINTS
        && 1 <= parts
        && parts <= MOST_PARTS
        && steps <= MOST_STEPS
        && points % parts == 0
}

/// A number to start with and how many lines follow from it, in their ranges.
fn is_load(start: u32, lines: u32) -> bool
    ensures { result ≡ is_load start lines }
{
    start <= GREATEST_START && lines <= MOST_LINES
}

/// From 1 to 64 localities.
pub fn are_places(localities: u32) -> bool
    ensures { result ≡ are_places localities }
{
    1 <= localities && localities <= MOST_LOCALITIES
}

/// From 1 to 64 threads.
fn are_threads(threads: u32) -> bool
    ensures { result ≡ are_threads threads }
{
    1 <= threads && threads <= MOST_THREADS
}

/// The settings of credit and cache in their ranges.
pub fn is_tuned(profile: Profile) -> bool
    ensures { result ≡ is_tuned profile }
{
    8 <= profile.credit_log
        && profile.credit_log <= 31
        && 1u128 << profile.credit_log as u32 <= profile.credit_limit
        && profile.credit_limit <= 1u128 << 100u32
        && 1 <= profile.cache
        && profile.cache <= 4096
}

/// An application, where it is built.
pub fn task_of(app: App) -> Option<Task>
    ensures { result ≡ task_of app }
{
    match app {
        App::Accumulator => Some(Task::Console(UserConsole::Accumulator)),
        App::Space => Some(Task::Console(UserConsole::Space)),
        App::Fib { n, threshold } => are_asked(n, threshold).then_some(Task::Fib(Question {
            number: n,
            threshold,
        })),
        App::Stencil {
            points,
            parts,
            steps,
        } => {
            let shape = Shape {
                points,
                parts,
                steps,
            };
            is_ring(shape).then_some(Task::Stencil(shape))
        }
        App::Load { start, lines } => {
            is_load(start, lines).then_some(Task::Load(Workload { start, lines }))
        }
        _ => None,
    }
}

/// Whether it is run in one process, on 1 to 64 threads, and writes no journal.
fn is_plain(settings: &Settings) -> bool
    ensures { result ≡ is_plain settings.now }
{
    are_threads(settings.threads)
        && matches!(settings.mode, Mode::Hosted)
        && !settings.settle
        && !settings.journal
}

/// What settings ask to be run, where it is built.
fn setup_of(settings: Settings) -> Option<Setup>
    ensures { result ≡ setup_of settings }
{
    if !is_plain(&settings) || !are_places(settings.localities) || !is_tuned(settings.profile) {
        return None;
    }
    Some(Setup {
        task: task_of(settings.app)?,
        localities: settings.localities,
        threads: settings.threads,
        profile: settings.profile,
        counters: settings.counters,
    })
}

/// What settings ask for, where it is built.
fn request_of(settings: Settings) -> Option<Request>
    ensures { result ≡ request_of settings }
{
    match settings.app {
        App::Help => Some(Request::Print(Notice::Help)),
        App::Version => Some(Request::Print(Notice::Version)),
        App::ListCounters => {
            let notice = Notice::Counters(settings.localities);
            are_places(settings.localities).then_some(Request::Print(notice))
        }
        _ => Some(Request::Run(setup_of(settings)?)),
    }
}

/// What words ask for. An `Err` is the place, from 1, of a word that does not fit; 0 where a word is missing, words clash, or
/// what they mean is not built.
pub fn request_in(words: &Texts) -> Result<Request, u32>
    ensures { result ≡ request_in words.now }
{
    match read(words) {
        Ok(settings) => request_of(settings).ok_or(0),
        Err(OptionFault { place }) => Err(place),
    }
}
