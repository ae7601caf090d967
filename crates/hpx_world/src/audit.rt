//! The audit: of each live object how much credit is out, and where.
ghost use Rattle.std.specs.Prelude.{◌≡◌, ◌<◌, ◌≤◌, ◌++◌, ◌∷◌, [], length, map, take, IfOk, OnOk, slice_get, option_map, Some};
ghost use Rattle.hpx_tables.specs.Kept.{HasRecords};
ghost use Rattle.hpx_node.specs.Locality.{tables_of};
ghost use Rattle.hpx_world.specs.Audit.{held_in_all, audit_line, lines_at, audit_lines, HaveRecords};

use crate::locals::Locals;
use hpx_node::node::Node;
use hpx_value::acts::Acts;
use hpx_value::gid::Gid;
use hpx_value::items::Items;
use hpx_value::memory::OutOfMemory;
use std::alloc::Global;

/// The credit of an object that is out.
#[derive(Clone, Copy, Debug, PartialEq, Eq)]
pub struct AuditLine {
    pub gid: Gid,
    /// What its home has recorded.
    pub recorded: u128,
    /// What is held in states and actions at localities, their messages included.
    pub held: u128,
    /// What is in frames on their way, and in messages that bring it home or ask for more.
    pub flight: u128,
    /// Where the record says that it is.
    pub at: u32,
}

/// Lines of an audit, in order.
pub type AuditLines = Items<AuditLine>;

/// The credit of an object that is held, at all localities.
fn held_in_all<A: Acts + Copy>(nodes: &[Node<A>], o: Gid) -> u128
    ensures { result ≡ held_in_all o (tables_of nodes.now) }
{
    let mut sum = 0u128;
    for i in 0..nodes.len() {
        sum = sum.saturating_add(nodes[i].held(o));
    }
    sum
}

/// The line of the live object at place i of a node.
fn line_of<A: Acts + Copy>(nodes: &[Node<A>], node: &Node<A>, i: u32) -> Option<AuditLine>
    requires records { HasRecords node.now.tables }
    ensures { result ≡ option_map (audit_line (tables_of nodes.now)) (slice_get node.now.tables.records i) }
{
    let gid = node.live(i)?;
    let recorded = node.count(gid);
    let held = held_in_all(nodes, gid);
    Some(AuditLine {
        gid,
        recorded,
        held,
        flight: recorded.saturating_sub(held),
        at: node.place(gid)?,
    })
}

/// Adds the lines of the live objects of a node.
fn push_lines<A: Acts + Copy>(
    nodes: &[Node<A>],
    node: &Node<A>,
    lines: &mut AuditLines,
) -> Result<(), OutOfMemory>
    ensures lines { OnOk result (lines.new ≡ lines.old ++ lines_at (tables_of nodes.now) node.now.tables) }
    ensures records { OnOk result (HasRecords node.now.tables) }
{
    for i in 0..node.number() {
        match line_of(nodes, node, i) {
            Some(line) => lines.push(line)?,
            None => return Ok(()),
        }
    }
    Ok(())
}

impl<A: Acts + Copy> Locals<A> {
    /// A line for each live object, by home, and then by number.
    pub fn audit(&self, alloc: Global) -> Result<AuditLines, OutOfMemory>
        ensures lines { IfOk result (λ lines. lines ≡ audit_lines (tables_of self.now.nodes.items)) }
        ensures records { OnOk result (HaveRecords (tables_of self.now.nodes.items)) }
    {
        let mut lines = Items::new(alloc);
        for node in self.nodes.iter() {
            push_lines(self.nodes.as_slice(), node, &mut lines)?;
        }
        Ok(lines)
    }

    /// The records of each node are its own.
    pub fn records_law(&self)
        ensures { HaveRecords (tables_of self.now.nodes.items) }
    {
        for node in self.nodes.iter() {
            let _ = node.number();
        }
    }
}
