//! Feeding: a line waits as an action on the session.
ghost use Rattle.std.specs.Prelude.{◌++◌, ◌≡◌, ◌≤◌, ◌<◌, ◌+◌, ◌^◌, ◌∷◌, [], OnOk, OnErr, IfOk, length};
ghost use Rattle.hpx_journal.specs.Entries.{line_act};
ghost use Rattle.hpx_journal.specs.Weights.{HasRoom};
ghost use Rattle.hpx_part.specs.Data.{Line};
ghost use Rattle.hpx_tables.specs.Fit.{IsFit};
ghost use Rattle.hpx_steps.specs.Rest.{Stands};
ghost use Rattle.hpx_node.specs.Changes.{OnlySpare, Writes};
ghost use Rattle.hpx_steps.specs.Limits.{AddsATurn};
ghost use Rattle.hpx_steps.specs.Ways.{with_act};

use crate::node::Node;
use hpx_journal::entry::{Entry, Event, Name};
use hpx_journal::journal::Journal;
use hpx_value::acts::Acts;
use hpx_value::codes::{LINE, SESSION};
use hpx_value::exact::Exact;
use hpx_value::gid::Gid;
use hpx_value::items::{Items, Text};
use hpx_value::memory::OutOfMemory;
use hpx_value::value::{Act, Value};
use std::alloc::Global;

/// The action on the session that a line is.
fn line_act(alloc: Global, action: Name, line: &Text) -> Result<Act, OutOfMemory>
    requires { length line.now ≤ 1025 }
    ensures act { IfOk result (λ act. act ≡ line_act action line.now) }
    ensures fit { IfOk result IsFit }
{
    let mut args = Items::new(alloc);
    args.push(Value::Text(line.duplicate(alloc)?))?;
    let mut ids = Items::new(alloc);
    ids.push(Gid::new(0, SESSION, 1))?;
    Ok(Act {
        origin: action.origin,
        serial: action.serial,
        code: LINE,
        args,
        cont: None,
        ids,
    })
}

impl<A: Acts + Copy> Node<A> {
    fn enter_line(&mut self, book: &mut Journal, action: Name, act: Act, bytes: Text)
        requires action { action ≡ record { origin = self.old.tables.here; serial = self.old.tables.serial + 1 } }
        requires act { act ≡ line_act action bytes }
        requires fit { IsFit act }
        requires spare { 1 ≤ self.old.spare }
        requires page { 1 ≤ book.old.spare }
        requires few { self.old.tables.serial + 1 < 2 ^ 64 }
        ensures line { Writes (Line action bytes ∷ []) self.old.tables self.new.tables book.old.entries book.new.entries }
        ensures waits { self.new.tables ≡ with_act act (record self.old.tables { serial = self.old.tables.serial + 1 }) }
        ensures running { self.new.tables.running ≡ self.old.tables.running }
    {
        let at = self.here;
        self.serial += 1;
        self.post(act);
        book.push(Entry {
            at,
            event: Event::Line { action, bytes },
        });
    }

    /// Accepts a line, as an action on the session, the last in the queue: the session stands at locality 0 always. Nothing changes
    /// without memory.
    pub fn feed(&mut self, alloc: Global, book: &mut Journal, line: Text) -> Result<(), OutOfMemory>
        requires here { self.old.tables.here ≡ 0 }
        requires short { length line ≤ 1025 }
        requires room { HasRoom book.old.entries }
        requires stands { Stands A.act_of self.old.tables book.old.entries }
        ensures stands { Stands A.act_of self.new.tables book.new.entries }
        ensures running { self.new.tables.running ≡ self.old.tables.running }
        ensures waits { OnOk result (self.new.tables ≡ with_act (line_act (record { origin = self.old.tables.here; serial = self.old.tables.serial + 1 }) line)
            (record self.old.tables { serial = self.old.tables.serial + 1 })) }
        ensures accepted { OnOk result (self.new.tables.accepted ≡ self.old.tables.accepted ++ line_act (record { origin = self.old.tables.here; serial = self.old.tables.serial + 1 }) line ∷ []) }
        ensures turn { AddsATurn book.old.entries book.new.entries }
        ensures line { OnOk result (Writes (Line (record { origin = self.old.tables.here; serial = self.old.tables.serial + 1 }) line ∷ []) self.old.tables self.new.tables book.old.entries book.new.entries) }
        ensures err { OnErr result (OnlySpare self.old.tables self.new.tables book.old book.new) }
    {
        let action = Name {
            origin: self.here as u16,
            serial: self.serial + 1,
        };
        let act = line_act(alloc, action, &line)?;
        self.reserve(1)?;
        book.reserve(1)?;
        self.enter_line(book, action, act, line);
        Ok(())
    }
}
