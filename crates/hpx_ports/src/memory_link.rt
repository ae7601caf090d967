//! A link in memory, which is told what comes.
ghost use Rattle.std.specs.Prelude.{◌≡◌, ◌≤◌, ◌↔◌, ◌∷◌, ◌++◌, [], Err, IsTrue, IfOk, OnOk, OnErr, IsErrOf};
ghost use Rattle.hpx_ports.specs.Faults.{Rose, raised};
ghost use Rattle.hpx_ports.specs.Links.{latest_of, posts_of};
ghost use Rattle.hpx_ports.specs.Plans.{fails_next, after_call};

use crate::fault::raise;
use crate::link::{Latest, Link, LinkFault, Post};
use crate::plan::Plan;
use hpx_value::exact::Exact;
use hpx_value::items::{Bytes, Lengths};
use std::alloc::Global;
use std::collections::VecDeque;
use std::marker::Model;

/// A link in memory: the bodies that it is given come one after another, and then it fails.
#[derive(Drop)]
pub struct MemLink {
    alloc: Global,
    coming: VecDeque<(u32, Bytes)>,
    trace: Vec<Post>,
    latest: Latest,
    sends: Plan,
    receives: Plan,
    faults: u64,
}

impl Model for MemLink {
    ghost use Rattle.hpx_ports.specs.Links.{LinkState};

    ghost Value = { LinkState };

    ghost view = { λ l. record {
      coming = l.coming.items;
      trace = l.trace.items;
      latest = l.latest;
      sends = l.sends;
      receives = l.receives;
      faults = l.faults;
    } };
}

impl MemLink {
    /// These bodies come. The sends and the receives with these numbers are to fail, from 1.
    pub fn new(
        alloc: Global,
        coming: VecDeque<(u32, Bytes)>,
        sends: Lengths,
        receives: Lengths,
    ) -> MemLink
        ensures { result ≡ record {
          coming = coming.items;
          trace = [];
          latest = Latest.Never;
          sends = record { numbers = sends; calls = 0 };
          receives = record { numbers = receives; calls = 0 };
          faults = 0;
        } }
    {
        MemLink {
            alloc,
            coming,
            trace: Vec::new(alloc),
            latest: Latest::Never,
            sends: Plan {
                numbers: sends,
                calls: 0,
            },
            receives: Plan {
                numbers: receives,
                calls: 0,
            },
            faults: 0,
        }
    }

    /// What happened, oldest first.
    pub fn trace(&self) -> &[Post]
        ensures { result.now ≡ self.now.trace }
    {
        self.trace.as_slice()
    }
}

impl Link for MemLink {
    ghost use Rattle.std.specs.Prelude.{Some};

    ghost faults = { λ l. l.faults };

    ghost latest = { λ l. l.latest };

    ghost trace = { λ l. Some l.trace };

    fn send(&mut self, to: u32, body: &[u8]) -> Result<(), LinkFault>
        ensures planned { IsErrOf result LinkFault.Failed ↔ IsTrue (fails_next self.old.sends) }
        ensures ok { OnOk result (self.new ≡ record self.old { trace = self.old.trace ++ Post.Sent to body.now ∷ []; sends = after_call self.old.sends }) }
        ensures failed { IsErrOf result LinkFault.Failed → self.new ≡ record self.old { sends = after_call self.old.sends; faults = raised self.old.faults } }
        ensures no_memory { IsErrOf result LinkFault.OutOfMemory → self.new ≡ record self.old { sends = after_call self.old.sends } }
        ensures trace_err { OnErr result (self.new.trace ≡ self.old.trace) }
        ensures latest { self.new.latest ≡ self.old.latest }
        ensures cause { IsErrOf result LinkFault.Failed → Rose self.old.faults self.new.faults }
        ensures never_falls { self.old.faults ≤ self.new.faults }
    {
        if self.sends.next_fails() {
            self.faults = raise(self.faults);
            return Err(LinkFault::Failed);
        }
        let body = copy(self.alloc, body)?;
        if self.trace.push(Post::Sent { to, body }).is_err() {
            return Err(LinkFault::OutOfMemory);
        }
        Ok(())
    }

    fn recv(&mut self) -> Result<(u32, Bytes), LinkFault>
        ensures next { IfOk result (λ got. self.old.coming ≡ got ∷ self.new.coming) }
        ensures ok { IfOk result (λ got. self.new.trace ≡ self.old.trace ++ posts_of got) }
        ensures err { OnErr result ((self.new.coming ≡ self.old.coming) × (self.new.trace ≡ self.old.trace)) }
        ensures latest { self.new.latest ≡ latest_of result }
        ensures cause { IsErrOf result LinkFault.Failed → Rose self.old.faults self.new.faults }
        ensures stands { (IsErrOf result LinkFault.Failed → ⊥) → self.new.faults ≡ self.old.faults }
        ensures never_falls { self.old.faults ≤ self.new.faults }
    {
        if self.receives.next_fails() {
            return self.failed();
        }
        let (from, body) = match self.coming.front() {
            Some(first) => (first.0, &first.1),
            None => return self.failed(),
        };
        let copies = copies(self.alloc, from, body);
        self.latest = Latest::Fault;
        let (told, kept) = copies?;
        if self.trace.push(told).is_err() {
            return Err(LinkFault::OutOfMemory);
        }
        match self.coming.pop_front() {
            Some(got) => {
                self.latest = kept;
                Ok(got)
            }
            None => unreachable!(),
        }
    }
}

impl MemLink {
    /// A receive that fails, and is counted.
    fn failed(&mut self) -> Result<(u32, Bytes), LinkFault>
        ensures result { result ≡ Err LinkFault.Failed }
        ensures never_falls { self.old.faults ≤ self.new.faults }
        ensures rest { self.new ≡ record self.old { latest = Latest.Fault; faults = raised self.old.faults } }
    {
        self.latest = Latest::Fault;
        self.faults = raise(self.faults);
        Err(LinkFault::Failed)
    }
}

/// A body twice: for the trace, and as the latest.
fn copies(alloc: Global, from: u32, body: &Bytes) -> Result<(Post, Latest), LinkFault>
    ensures told { IfOk result (λ x. x.0 ≡ Post.Received from body.now) }
    ensures kept { IfOk result (λ x. x.1 ≡ Latest.Got from body.now) }
    ensures err { OnErr result (result ≡ Err LinkFault.OutOfMemory) }
{
    let told = body.duplicate(alloc)?;
    let kept = body.duplicate(alloc)?;
    Ok((
        Post::Received { from, body: told },
        Latest::Got { from, body: kept },
    ))
}

/// A body as bytes of its own.
fn copy(alloc: Global, body: &[u8]) -> Result<Bytes, LinkFault>
    ensures ok { IfOk result (λ b. b ≡ body.now) }
    ensures err { OnErr result (result ≡ Err LinkFault.OutOfMemory) }
{
    match Vec::from_slice(alloc, body) {
        Ok(bytes) => Ok(Bytes::from_vec(bytes)),
        Err(_) => Err(LinkFault::OutOfMemory),
    }
}
