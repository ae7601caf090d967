ghost use Rattle.std.specs.Prelude.{◌≡◌, ◌≤◌, ◌<◌, ◌+◌, ◌-◌, ◌^◌, ◌==◌, ◌∷◌, ◌++◌, [], ℕ, length, drop, Some, None, IsTrue, IsSome, IsSomeAnd, IfSome, IfOk, MatchOption, option_map, option_copied, is_some, slice_get, min, sum_by};
ghost use Rattle.hpx_agas.specs.declared.record.Record.{Record};
ghost use Rattle.hpx_agas.specs.Lines.{AreBelow, AreFrom, line_of, records_of, waiting_of, in_place, left_behind, blank, IsLive, IsLike};
ghost use Rattle.hpx_agas.specs.Queues.{Weighs};
ghost use Rattle.hpx_agas.specs.Trees.{lines_of, IsCut};

use crate::line::Line;
use crate::queue::Queue;
use crate::record::Record;
use hpx_value::gid::Gid;
use std::alloc::{AllocError, Global};
use std::marker::Model;
use std::mem;

/// Lines by rising number: a tree of lines, in which each fork parts the lower numbers from the others.
#[cycle(lines)]
#[derive(Drop)]
pub(crate) struct Tree<Q> {
    node: Node<Q>,
}

#[cycle(lines)]
#[derive(Drop)]
enum Node<Q> {
    Empty,
    Leaf(Line<Q>),
    Fork(Box<Tree<Q>>, Cut, Box<Tree<Q>>),
}

/// Where a fork parts its lines.
#[derive(Clone, Copy)]
struct Cut {
    /// The numbers below this one are in the lower side.
    split: u64,
    /// How many leading bits the numbers of the fork have in common.
    shared: u32,
    /// How many live records the lower side has.
    before: u64,
}

/// Memory for one more fork: two empty trees.
#[derive(Drop)]
pub(crate) struct Pair<Q> {
    low: Box<Tree<Q>>,
    high: Box<Tree<Q>>,
}

impl<Q> Model for Tree<Q> {
    ghost use Rattle.std.specs.Prelude.{List, length};
    ghost use Rattle.std.specs.Coded.{coded_list};
    ghost use Rattle.hpx_agas.specs.declared.line.Line.{Line};
    ghost use Rattle.hpx_agas.specs.Codes.{line_code};

    ghost Value = { List (Line Q) };

    ghost coded = { coded_list (line_code Q.code) };

    ghost use Rattle.hpx_agas.specs.Trees.{lines_of, IsCut};

    ghost view = { λ t. lines_of t.node };

    ghost invariant = { λ t. IsCut t.node };

    ghost size = { length };

    ghost use Rattle.std.proofs.Common.{arith, length-append};

    ghost size_decreases = { λ a h. Prim.grind (arith, length-append) };
}

impl<Q> Model for Pair<Q> {
    ghost use Rattle.std.specs.Prelude.{ℕ, ◌≡◌, []};

    ghost Value = { ℕ };

    ghost view = { λ _. 0 };

    ghost invariant = { λ p. (p.low.value ≡ []) × (p.high.value ≡ []) };
}

impl Cut {
    /// The cut before a number that is above those of a subtree, of which one is given.
    fn new(there: u64, number: u64, before: u64) -> Cut
        ensures split { result.split ≡ number }
        ensures before { result.before ≡ before }
    {
        Cut {
            split: number,
            shared: (there ^ number).leading_zeros(),
            before,
        }
    }

    /// Whether a number has the leading bits of this fork's numbers.
    fn reaches(&self, number: u64) -> bool
        ensures { IsTrue result → self.now.split ≤ number }
    {
        self.split <= number && (self.split ^ number).leading_zeros() >= self.shared
    }
}

impl<Q> Pair<Q> {
    /// Memory for one more fork.
    pub(crate) fn new(alloc: Global) -> Result<Pair<Q>, AllocError> {
        let low = Tree::boxed(alloc)?;
        match Tree::boxed(alloc) {
            Ok(high) => Ok(Pair { low, high }),
            Err(error) => {
                Box::into_inner(low).end();
                Err(error)
            }
        }
    }

    /// Gives the memory back.
    pub(crate) fn end(self) {
        Box::into_inner(self.low).end();
        Box::into_inner(self.high).end();
    }

    /// A fork of the lines of a node and one more, above them.
    fn fork(self, node: Node<Q>, cut: Cut, line: Line<Q>) -> Node<Q>
        requires node { IsCut node }
        requires some { 1 ≤ length (lines_of node) }
        requires above { AreBelow line.number (lines_of node) }
        requires split { cut.split ≡ line.number }
        requires before { cut.before ≡ length (records_of (lines_of node)) }
        ensures lines { lines_of result ≡ lines_of node ++ line ∷ [] }
        ensures cut { IsCut result }
    {
        let Pair { mut low, mut high } = self;
        low.close(node);
        high.close(Node::Leaf(line));
        Node::Fork(low, cut, high)
    }
}

/// What is left of a line whose object died: nothing, unless something waits.
fn after_death<Q>(line: Line<Q>) -> Node<Q>
    ensures lines { lines_of result ≡ left_behind line }
    ensures cut { IsCut result }
{
    if line.queue.len() == 0 {
        line.queue.end();
        return Node::Empty;
    }
    Node::Leaf(Line { live: None, ..line })
}

/// A fork of two sides, of which one may be empty.
fn joined<Q>(low: Box<Tree<Q>>, cut: Cut, high: Box<Tree<Q>>) -> Node<Q>
    requires below { AreBelow cut.split low.value }
    requires from { AreFrom cut.split high.value }
    requires before { cut.before ≡ length (records_of low.value) }
    ensures lines { lines_of result ≡ low.value ++ high.value }
    ensures cut { IsCut result }
{
    if low.is_empty() {
        Box::into_inner(low).end();
        return Box::into_inner(high).node;
    }
    if high.is_empty() {
        Box::into_inner(high).end();
        return Box::into_inner(low).node;
    }
    Node::Fork(low, cut, high)
}

impl<Q> Tree<Q> {
    /// No lines.
    pub(crate) fn new() -> Tree<Q>
        ensures { result ≡ [] }
    {
        Tree { node: Node::Empty }
    }

    /// An empty tree in a box.
    fn boxed(alloc: Global) -> Result<Box<Tree<Q>>, AllocError>
        ensures { IfOk result (λ tree. tree.value ≡ []) }
    {
        match Box::new(alloc, Tree::new()) {
            Ok(tree) => Ok(tree),
            Err(failed) => {
                failed.value.end();
                Err(AllocError)
            }
        }
    }

    /// Ends an empty tree.
    fn end(self)
        requires { self ≡ [] }
    {
        let Tree { node } = self;
        let Node::Empty = node else { unreachable!() };
    }

    /// Whether there is no line.
    fn is_empty(&self) -> bool
        ensures { result ≡ (length self.now == 0) }
    {
        match self.node {
            Node::Empty => true,
            _ => false,
        }
    }

    /// Puts a node into an empty tree.
    fn close(&mut self, node: Node<Q>)
        requires empty { self.old ≡ [] }
        requires cut { IsCut node }
        ensures { self.new ≡ lines_of node }
    {
        let old = mem::replace(&mut self.node, node);
        let Node::Empty = old else { unreachable!() };
    }

    /// The line of a number.
    pub(crate) fn find(&self, number: u64) -> Option<&Line<Q>>
        ensures { option_copied result ≡ line_of number self.now }
    {
        match &self.node {
            Node::Empty => None,
            Node::Leaf(line) => {
                if line.number == number {
                    Some(line)
                } else {
                    None
                }
            }
            Node::Fork(low, cut, high) => {
                if number < cut.split {
                    low.find(number)
                } else {
                    high.find(number)
                }
            }
        }
    }

    /// The id of the live record at a place.
    pub(crate) fn nth(&self, i: u64) -> Option<Gid>
        ensures { result ≡ option_map (λ (r : Record). r.gid) (slice_get (records_of self.now) i) }
    {
        match &self.node {
            Node::Empty => None,
            Node::Leaf(line) => { if i == 0 { Some(line.live?.gid) } else { None } }
            Node::Fork(low, cut, high) => {
                if i < cut.before {
                    low.nth(i)
                } else {
                    high.nth(i - cut.before)
                }
            }
        }
    }

    /// What all items weigh together, or the greatest number.
    pub(crate) fn weight<F: Fn(&Q) -> u128>(&self, weigh: &F) -> u128
        requires { F.IsAlwaysCallable weigh.now }
        ensures { (w : Q → ℕ) → Weighs F.Fn weigh.now w → result ≡ min (2 ^ 128 - 1) (sum_by (λ x. w x.item) (waiting_of self.now)) }
    {
        match &self.node {
            Node::Empty => 0,
            Node::Leaf(line) => line.queue.weight(weigh),
            Node::Fork(low, _, high) => low.weight(weigh).saturating_add(high.weight(weigh)),
        }
    }

    /// One more line, above all others. It takes no memory.
    pub(crate) fn append(&mut self, line: Line<Q>, live: u64, pair: Pair<Q>)
        requires above { AreBelow line.number self.old }
        requires live { live ≡ length (records_of self.old) }
        ensures { self.new ≡ self.old ++ line ∷ [] }
    {
        let node = match mem::replace(&mut self.node, Node::Empty) {
            Node::Empty => {
                pair.end();
                Node::Leaf(line)
            }
            Node::Leaf(there) => {
                let cut = Cut::new(there.number, line.number, live);
                pair.fork(Node::Leaf(there), cut, line)
            }
            Node::Fork(low, cut, mut high) => {
                if cut.reaches(line.number) {
                    high.append(line, live - cut.before, pair);
                    Node::Fork(low, cut, high)
                } else {
                    let wider = Cut::new(cut.split, line.number, live);
                    pair.fork(Node::Fork(low, cut, high), wider, line)
                }
            }
        };
        self.close(node);
    }

    /// Puts a line in the place of that of the same number, which it then is.
    fn swap(&mut self, line: &mut Line<Q>)
        requires { IsSomeAnd (line_of line.old.number self.old) (IsLike line.old) }
        ensures line { line_of line.old.number self.old ≡ Some line.new }
        ensures lines { self.new ≡ in_place line.old.number (λ _. line.old ∷ []) self.old }
    {
        match &mut self.node {
            Node::Empty => {}
            Node::Leaf(there) => mem::swap(there, line),
            Node::Fork(low, cut, high) => {
                if line.number < cut.split {
                    low.swap(line);
                } else {
                    high.swap(line);
                }
            }
        }
    }

    /// The object of a number has died. Its line goes, unless something waits.
    pub(crate) fn kill(&mut self, number: u64)
        requires { IsSomeAnd (line_of number self.old) IsLive }
        ensures { self.new ≡ in_place number left_behind self.old }
    {
        let node = match mem::replace(&mut self.node, Node::Empty) {
            Node::Empty => Node::Empty,
            Node::Leaf(line) => after_death(line),
            Node::Fork(mut low, mut cut, mut high) => {
                if number < cut.split {
                    low.kill(number);
                    cut.before -= 1;
                    joined(low, cut, high)
                } else {
                    high.kill(number);
                    joined(low, cut, high)
                }
            }
        };
        self.close(node);
    }

    /// Takes the line of a number out. One without items stands in its place until it is laid back.
    fn lift(&mut self, alloc: Global, number: u64) -> Line<Q>
        requires { IsSome (line_of number self.old) }
        ensures line { line_of number self.old ≡ Some result }
        ensures lines { self.new ≡ in_place number (λ _. blank result ∷ []) self.old }
    {
        let live = match self.find(number) {
            Some(line) => line.live,
            None => None,
        };
        let mut line = Line {
            number,
            live,
            queue: Queue::new(alloc),
        };
        self.swap(&mut line);
        line
    }

    /// Lays a line back in place of one without items.
    fn lay(&mut self, mut line: Line<Q>)
        requires like { IsSomeAnd (line_of line.number self.old) (IsLike line) }
        requires blank { IsSomeAnd (line_of line.number self.old) (λ l. l.queue ≡ []) }
        ensures { self.new ≡ in_place line.number (λ _. line ∷ []) self.old }
    {
        self.swap(&mut line);
        line.queue.end();
    }

    /// Another record in place of that of a number. It takes no memory.
    pub(crate) fn set(&mut self, alloc: Global, number: u64, made: Record)
        requires { IsSomeAnd (line_of number self.old) IsLive }
        ensures { self.new ≡ in_place number (λ l. record l { live = Some made } ∷ []) self.old }
    {
        let mut line = self.lift(alloc, number);
        line.live = Some(made);
        self.lay(line);
    }

    /// More items at the end of the queue of a number. It takes no memory.
    pub(crate) fn push(&mut self, alloc: Global, number: u64, more: Queue<Q>)
        requires there { IsSome (line_of number self.old) }
        requires fit { length (waiting_of self.old) + length more < 2 ^ 63 }
        ensures { self.new ≡ in_place number (λ l. record l { queue = l.queue ++ more } ∷ []) self.old }
    {
        let mut line = self.lift(alloc, number);
        line.queue.append(more);
        self.lay(line);
    }

    /// Takes the oldest item of a queue.
    pub(crate) fn pop(&mut self, alloc: Global, number: u64) -> Option<Q>
        requires { IsSome (line_of number self.old) }
        ensures item { IfSome (line_of number self.old) (λ l. MatchOption result (l.queue ≡ []) (λ item. l.queue ≡ item ∷ drop 1 l.queue)) }
        ensures lines { self.new ≡ in_place number (λ l. record l { queue = drop 1 l.queue } ∷ []) self.old }
    {
        let mut line = self.lift(alloc, number);
        let item = line.queue.pop();
        self.lay(line);
        item
    }
}
