//! Firing: a job is handed out.
ghost use Rattle.std.specs.Prelude.{◌≡◌, ◌≤◌, ◌<◌, ◌∷◌, ◌++◌, [], Some, OnErr, IfOk, IfSome, IfNone, length, slice_get};
ghost use Rattle.std.specs.List.{remove};
ghost use Rattle.hpx_journal.specs.Entries.{name_of};
ghost use Rattle.hpx_journal.specs.Weights.{HasRoom};
ghost use Rattle.hpx_part.specs.Data.{Fire};
ghost use Rattle.hpx_tables.specs.Free.{NoneIsFree};
ghost use Rattle.hpx_tables.specs.Jobs.{Starts};
ghost use Rattle.hpx_tables.specs.Tables.{fired_acts};
ghost use Rattle.hpx_steps.specs.Rest.{Stands};
ghost use Rattle.hpx_node.specs.Changes.{OnlySpare, Writes};
ghost use Rattle.hpx_steps.specs.Limits.{AddsATurn};

use crate::node::Node;
use hpx_journal::entry::{Entry, Event};
use hpx_journal::journal::Journal;
use hpx_tables::find::first_free;
use hpx_value::acts::{Acts, Job};
use hpx_value::exact::Exact;
use hpx_value::memory::OutOfMemory;
use std::alloc::Global;

impl<A: Acts + Copy> Node<A> {
    fn job(&self, alloc: Global, i: usize, j: usize) -> Result<Job, OutOfMemory>
        requires action { i < length self.now.tables.accepted }
        requires object { j < length self.now.tables.objects }
        ensures here { IfOk result (λ job. job.at ≡ self.now.tables.here) }
        ensures action { IfOk result (λ job. slice_get self.now.tables.accepted i ≡ Some job.action) }
        ensures object { IfOk result (λ job. (x : _) → slice_get self.now.tables.objects j ≡ Some x → (job.kind ≡ x.object.kind) × (job.state ≡ x.state)) }
    {
        let kept = self.objects.at(j);
        let accepted = &self.accepted[i];
        Ok(Job {
            at: self.here,
            kind: kept.object().kind(),
            state: kept.state().duplicate(alloc)?,
            action: accepted.act().duplicate(alloc)?,
        })
    }

    fn start(&mut self, book: &mut Journal, i: usize)
        requires inside { i < length self.old.tables.accepted }
        requires spare { 1 ≤ self.old.spare }
        requires page { 1 ≤ book.old.spare }
        ensures fired { (act : _) → slice_get self.old.tables.accepted i ≡ Some act → Writes (Fire (name_of act) ∷ []) self.old.tables self.new.tables book.old.entries book.new.entries }
        ensures started { (act : _) → slice_get self.old.tables.accepted i ≡ Some act → self.new.tables
            ≡ record self.old.tables { accepted = remove self.old.tables.accepted i; running = self.old.tables.running ++ act ∷ [] } }
    {
        if let Some(act) = self.accepted.remove(i) {
            let action = act.name();
            self.running.push_reserved(act);
            book.push(Entry {
                at: self.here,
                event: Event::Fire { action },
            });
        }
    }

    /// Takes the first accepted action whose object is free, to be run. Nothing changes without memory, and there is
    /// want of it only where there is a job.
    pub fn fire(&mut self, alloc: Global, book: &mut Journal) -> Result<Option<Job>, OutOfMemory>
        requires room { HasRoom book.old.entries }
        requires stands { Stands A.act_of self.old.tables book.old.entries }
        ensures stands { Stands A.act_of self.new.tables book.new.entries }
        ensures turn { AddsATurn book.old.entries book.new.entries }
        ensures fired { IfOk result (λ o. IfSome o (λ job. Writes (Fire (name_of job.action) ∷ []) self.old.tables self.new.tables book.old.entries book.new.entries)) }
        ensures job { IfOk result (λ o. IfSome o (Starts self.old.tables self.new.tables)) }
        ensures none { IfOk result (λ o. IfNone o (NoneIsFree (fired_acts self.old.tables) self.old.tables.objects self.old.tables.accepted × OnlySpare self.old.tables self.new.tables book.old book.new)) }
        ensures err { OnErr result (OnlySpare self.old.tables self.new.tables book.old book.new) }
        ensures waits { OnErr result (NoneIsFree (fired_acts self.old.tables) self.old.tables.objects self.old.tables.accepted → ⊥) }
    {
        let (i, j) = match first_free(
            &self.accepted,
            self.running.as_slice(),
            self.pending.as_slice(),
            &self.objects,
        ) {
            Some(spot) => spot,
            None => return Ok(None),
        };
        let job = self.job(alloc, i, j)?;
        self.reserve(1)?;
        book.reserve(1)?;
        self.start(book, i);
        Ok(Some(job))
    }
}
