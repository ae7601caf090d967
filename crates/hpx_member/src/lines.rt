//! Those who hand a console its lines, and are shown what it writes.
ghost use Rattle.std.specs.Prelude.{ℕ, Bool, List};

use hpx_journal::journal::Journal;
use hpx_value::items::Text;
use std::alloc::Global;
use thiserror::Error;

/// Why a line was not handed out, or entries were not shown.
#[derive(Clone, Copy, Debug, PartialEq, Eq, Error)]
pub enum LineFault {
    /// Where the lines come from failed.
    #[error("read failed")]
    Read,
    /// Where the text goes failed.
    #[error("write failed")]
    Write,
    /// There was no memory.
    #[error("out of memory")]
    OutOfMemory,
    /// No more is read, though there may be more.
    #[error("input full")]
    InputFull,
}

/// Where a console's lines come from, and what is shown of its journal.
pub trait Lines {
    ghost use Rattle.std.specs.Prelude.{◌≡◌, ◌≤◌, ◌∷◌, ◌++◌, [], IfOk, IfErr, IfSome, OnOk, length, drop};
    ghost use Rattle.hpx_member.specs.Talks.{IsLineCause, Shown, Talk, talk_of};
    ghost use Rattle.hpx_member.specs.declared.lines.LineFault.{LineFault};

    /// How often where the lines come from has failed.
    ghost reads: { Self → ℕ };

    /// How often where the text goes has failed.
    ghost writes: { Self → ℕ };

    /// Whether no more may be read.
    ghost full: { Self → Bool };

    /// From the first state, what was said since leads to the second.
    ghost went: { Self → Self → List Talk → Type 0 };

    /// What was said, and then was to be said but for this fault, leads there.
    ghost broke: { Self → Self → LineFault → List Talk → List Talk → Type 0 };

    /// The next line that is to be fed, None where they are over.
    fn next(&mut self, alloc: Global) -> Result<Option<Text>, LineFault>
        ensures short { IfOk result (λ next. IfSome next (λ line. length line ≤ 1025)) }
        ensures said { (first : _) (talk : List Talk) → went first self.old talk → IfOk result (λ next. went first self.new (talk ++ talk_of next)) }
        ensures unsaid { (first : _) (talk : List Talk) → went first self.old talk → IfErr result (λ fault. broke first self.new fault talk []) }
        ensures calm { OnOk result ((reads self.new ≡ reads self.old) × (writes self.new ≡ writes self.old)) }
        ensures cause { IfErr result (IsLineCause (reads self.old) (reads self.new) (writes self.old) (writes self.new) (full self.new)) };

    /// Takes what a journal has behind a cut.
    fn show(&mut self, journal: &Journal, cut: u64) -> Result<(), LineFault>
        requires within { cut ≤ length journal.now.entries }
        ensures said { (first : _) (talk : List Talk) → went first self.old talk →
            OnOk result (went first self.new (talk ++ Shown (drop cut journal.now.entries) ∷ [])) }
        ensures unsaid { (first : _) (talk : List Talk) → went first self.old talk →
            IfErr result (λ fault. broke first self.new fault talk (Shown (drop cut journal.now.entries) ∷ [])) }
        ensures calm { OnOk result ((reads self.new ≡ reads self.old) × (writes self.new ≡ writes self.old)) }
        ensures cause { IfErr result (IsLineCause (reads self.old) (reads self.new) (writes self.old) (writes self.new) (full self.new)) };
}
