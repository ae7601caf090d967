ghost use Rattle.std.specs.Prelude.{◌≡◌, ◌+◌, ◌<◌, ◌∷◌, ◌++◌, [], IsTrue, ◌↔◌, IfOk, OnOk, OnErr, length, set};

use crate::exact::Exact;
use crate::memory::OutOfMemory;
use std::alloc::Global;
use std::collections::VecDeque;
use std::marker::Model;

/// A list of values.
#[derive(Drop)]
pub struct Items<T> {
    items: Vec<T>,
}

/// A text, as bytes.
pub type Text = Items<u8>;
/// Bytes, as those of a frame.
pub type Bytes = Items<u8>;
/// Numbers of 32 bits.
pub type Numbers = Items<u32>;
/// Numbers with a sign.
pub type Ints = Items<i64>;
/// Lengths, or counts of calls.
pub type Lengths = Items<u64>;
/// Keys of a table.
pub type Keys = Items<usize>;
/// Frames, in order.
pub type Frames = Items<Bytes>;
/// Texts, as the words of a command line.
pub type Texts = Items<Text>;

impl<T> Model for Items<T> {
    ghost use Rattle.std.specs.Prelude.{List};

    ghost Value = { List T };

    ghost view = { λ v. v.items.items };
}

impl<T> Items<T> {
    /// The empty list, which takes no memory.
    pub fn new(alloc: Global) -> Items<T>
        ensures { result ≡ [] }
    {
        Items {
            items: Vec::new(alloc),
        }
    }

    /// The elements of a vector.
    pub fn from_vec(items: Vec<T>) -> Items<T>
        ensures { result ≡ items.items }
    {
        Items { items }
    }

    /// The elements, as a vector.
    pub fn into_vec(self) -> Vec<T>
        ensures { result.items ≡ self }
    {
        self.items
    }

    /// The elements, as a queue.
    pub fn into_deque(self) -> VecDeque<T>
        ensures { result.items ≡ self }
    {
        VecDeque::from_vec(self.items)
    }

    /// Whether there is none.
    pub fn is_empty(&self) -> bool
        ensures { IsTrue result ↔ (self.now ≡ []) }
    {
        self.items.is_empty()
    }

    /// How many there are.
    pub fn len(&self) -> usize
        ensures { result ≡ length self.now }
    {
        self.items.len()
    }

    /// The elements, to be looked at.
    pub fn as_slice(&self) -> &[T]
        ensures { result.now ≡ self.now }
    {
        self.items.as_slice()
    }
}

impl<T: Drop> Items<T> {
    /// Another element in place of one.
    pub fn set(&mut self, i: usize, item: T)
        requires { i < length self.old }
        ensures { self.new ≡ set self.old i item }
    {
        self.items[i] = item;
    }

    /// One more element, at the end. Without memory nothing changes.
    pub fn push(&mut self, item: T) -> Result<(), OutOfMemory>
        ensures ok { OnOk result (self.new ≡ self.old ++ item ∷ []) }
        ensures err { OnErr result (self.new ≡ self.old) }
    {
        self.items.push(item)?;
        Ok(())
    }
}

/// Copies of some elements, in order.
pub(crate) fn copied<T: Exact>(alloc: Global, xs: &[T]) -> Result<Vec<T>, OutOfMemory>
    ensures { IfOk result (λ copy. copy.items ≡ xs.now) }
{
    let mut items = Vec::new(alloc);
    for x in xs {
        items.push(x.duplicate(alloc)?)?;
    }
    Ok(items)
}

impl<T: Exact> Exact for Items<T> {
    fn duplicate(&self, alloc: Global) -> Result<Items<T>, OutOfMemory> {
        Ok(Items {
            items: copied(alloc, self.items.as_slice())?,
        })
    }

    fn same(&self, other: &Items<T>) -> bool {
        same_slices(self.items.as_slice(), other.items.as_slice())
    }
}

/// Whether two lists are equal, one element after the other.
fn same_slices<T: Exact>(xs: &[T], ys: &[T]) -> bool
    ensures { IsTrue result ↔ (xs.now ≡ ys.now) }
{
    if xs.len() != ys.len() {
        return false;
    }
    let mut i = 0;
    while i < xs.len() {
        if !xs[i].same(&ys[i]) {
            return false;
        }
        i += 1;
    }
    true
}
