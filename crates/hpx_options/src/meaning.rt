//! What a line that was read to its end means.
ghost use Rattle.std.specs.Prelude.{◌≡◌, ◌+◌};
ghost use Rattle.hpx_options.specs.Words.{value_at};
ghost use Rattle.hpx_options.specs.Meanings.{number_at, log_from, limit_from, op_from, port_from, is_given, usual_threshold, run_of, app_of, divides, suits, covers, profile_of, is_hosted, has_role, has_port, is_member, member_of, is_alone, mode_of, settings_of};

use crate::line::{Datum, Line};
use crate::settings::{App, Mode, Op, Settings};
use crate::table::{Application, MOST_CREDIT, OptionName};
use hpx_value::profile::Profile;

impl Line {
    /// The number that an option was given, or another one.
    fn number(&self, option: OptionName, otherwise: u32) -> u32
        ensures { result ≡ number_at self.now option otherwise }
    {
        match self.value(option) {
            Some(Datum::Number(number)) => number,
            _ => otherwise,
        }
    }

    /// The port that an option was given.
    fn port(&self, option: OptionName) -> Option<u16>
        ensures { result ≡ port_from (value_at self.now option) }
    {
        match self.value(option) {
            Some(Datum::Port(port)) => Some(port),
            _ => None,
        }
    }

    /// Whether an option was given.
    fn is_given(&self, option: OptionName) -> bool
        ensures { result ≡ is_given self.now option }
    {
        self.value(option).is_some()
    }

    /// The operation that was given, or a sum.
    fn op(&self) -> Op
        ensures { result ≡ op_from Op.Reduce (value_at self.now OptionName.CollectOp) }
    {
        match self.value(OptionName::CollectOp) {
            Some(Datum::Op(op)) => op,
            _ => Op::Reduce,
        }
    }

    /// An application with its numbers.
    fn run(&self, application: Application) -> App
        ensures { result ≡ run_of self.now application }
    {
        match application {
            Application::Accumulator => App::Accumulator,
            Application::Space => App::Space,
            Application::Fib => {
                let n = self.number(OptionName::FibNumber, 10);
                let threshold = self.number(OptionName::FibThreshold, usual_threshold(n));
                App::Fib { n, threshold }
            }
            Application::Stencil => App::Stencil {
                points: self.number(OptionName::StencilPoints, 16),
                parts: self.number(OptionName::StencilParts, 1),
                steps: self.number(OptionName::StencilSteps, 4),
            },
            Application::Load => App::Load {
                start: self.number(OptionName::LoadStart, 1),
                lines: self.number(OptionName::LoadLines, 1000),
            },
            Application::Check => App::Check,
            Application::Collect => App::Collect {
                op: self.op(),
                start: self.number(OptionName::CollectStart, 1),
            },
            Application::Vector => App::Vector {
                points: self.number(OptionName::VectorPoints, 16),
                parts: self.number(OptionName::VectorParts, 1),
            },
        }
    }

    /// What is to be run, or printed.
    fn app(&self) -> Option<App>
        ensures { result ≡ app_of self.now }
    {
        if self.is_given(OptionName::Help) {
            return Some(App::Help);
        }
        if self.is_given(OptionName::Version) {
            return Some(App::Version);
        }
        if self.is_given(OptionName::ListCounters) {
            return Some(App::ListCounters);
        }
        Some(self.run(self.application?))
    }

    /// Whether the application's words go with each other.
    fn suits(&self) -> bool
        ensures { result ≡ suits self.now self.now.application }
    {
        match self.application {
            Some(Application::Stencil) => divides(
                self.number(OptionName::StencilParts, 1),
                self.number(OptionName::StencilPoints, 16),
            ),
            Some(Application::Vector) => divides(
                self.number(OptionName::VectorParts, 1),
                self.number(OptionName::VectorPoints, 16),
            ),
            Some(Application::Check) => {
                self.counters.is_empty() && self.number(OptionName::Journal, 0) == 0
            }
            _ => true,
        }
    }

    /// The profile; None where the limit of credit is below the credit of a new object.
    fn profile(&self) -> Option<Profile>
        ensures { result ≡ profile_of self.now }
    {
        let credit_log = match self.value(OptionName::CreditLog) {
            Some(Datum::Log(log)) => log,
            _ => 31,
        };
        let credit_limit = match self.value(OptionName::CreditLimit) {
            Some(Datum::Limit(limit)) => limit,
            _ => MOST_CREDIT,
        };
        if !covers(credit_limit, credit_log) {
            return None;
        }
        Some(Profile {
            credit_log,
            credit_limit,
            cache: self.number(OptionName::CacheSize, 64),
        })
    }

    /// Whether all is in one process, or this is one of many; None where words on that are missing or clash.
    fn mode(&self) -> Option<Mode>
        ensures { result ≡ mode_of self.now }
    {
        match self.port(OptionName::Agas) {
            None => self.is_alone().then_some(Mode::Hosted),
            Some(port) => self.member(self.number(OptionName::Node, 0), port),
        }
    }

    /// Whether no word on members was given.
    fn is_alone(&self) -> bool
        ensures { result ≡ is_alone self.now }
    {
        !self.is_given(OptionName::Node)
            && !self.is_given(OptionName::Hpx)
            && !self.is_given(OptionName::Console)
            && !self.is_given(OptionName::Worker)
            && self.number(OptionName::Settle, 0) == 0
    }

    /// The member that a process is, if it may be that.
    fn member(&self, node: u32, port: u16) -> Option<Mode>
        ensures { result ≡ member_of self.now node port }
    {
        if !self.is_member(node, port) {
            return None;
        }
        if self.is_given(OptionName::Console) {
            Some(Mode::Console { port })
        } else {
            Some(Mode::Worker { node, port })
        }
    }

    /// Whether a process may be this member.
    fn is_member(&self, node: u32, port: u16) -> bool
        ensures { result ≡ is_member self.now node port }
    {
        self.has_role(node)
            && node < self.number(OptionName::Localities, 1)
            && self.has_port(node, port)
            && self.number(OptionName::Threads, 1) == 1
            && !is_hosted(self.application)
    }

    /// Whether it is the console and locality 0, or a worker and another one.
    fn has_role(&self, node: u32) -> bool
        ensures { result ≡ has_role self.now node }
    {
        if self.is_given(OptionName::Console) {
            !self.is_given(OptionName::Worker) && node == 0
        } else {
            self.is_given(OptionName::Worker) && node > 0
        }
    }

    /// Whether the own port, where one was given, is that of locality 0 and the own number.
    fn has_port(&self, node: u32, port: u16) -> bool
        ensures { result ≡ has_port (port_from (value_at self.now OptionName.Hpx)) (port + node) }
    {
        match self.port(OptionName::Hpx) {
            None => true,
            Some(own) => u64::from(own) == u64::from(port) + u64::from(node),
        }
    }

    /// The settings; None where a word is missing, or words clash.
    pub(crate) fn settings(self) -> Option<Settings>
        ensures { result ≡ settings_of self }
    {
        if self.awaited.is_some() || !self.suits() {
            return None;
        }
        let app = self.app()?;
        let profile = self.profile()?;
        let mode = self.mode()?;
        Some(Settings {
            app,
            localities: self.number(OptionName::Localities, 1),
            threads: self.number(OptionName::Threads, 1),
            profile,
            mode,
            settle: self.number(OptionName::Settle, 0) == 1,
            journal: self.number(OptionName::Journal, 0) == 1,
            counters: self.counters,
        })
    }
}

/// The threshold of a Fibonacci number where none is given.
fn usual_threshold(n: u32) -> u32
    ensures { result ≡ usual_threshold n }
{
    if n <= 16 { 2 } else { n - 14 }
}

/// Whether a limit of credit is at least the credit of a new object.
fn covers(limit: u128, log: u8) -> bool
    ensures { result ≡ covers limit log }
{
    log < 128 && 1u128 << log as u32 <= limit
}

/// Whether a number from 1 on divides another.
fn divides(parts: u32, points: u32) -> bool
    ensures { result ≡ divides parts points }
{
    parts > 0 && points % parts == 0
}

/// Whether an application runs in one process alone.
fn is_hosted(application: Option<Application>) -> bool
    ensures { result ≡ is_hosted application }
{
    match application {
        None => false,
        Some(Application::Accumulator | Application::Fib | Application::Stencil) => false,
        Some(_) => true,
    }
}
