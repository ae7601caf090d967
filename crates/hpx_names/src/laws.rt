//! What calls on name services are answered, as functions of the whole list of calls.
//!
//! A list of calls has the latest first. Values are of any sort, and waiters are of any type. The clause `every` is about
//! each call there is, listed or not.
ghost use Rattle.std.specs.Prelude.{◌≡◌, ◌≤◌, ℕ, ℤ, List, [], Option, Some, None, true, is_some, length, pos};
ghost use Rattle.hpx_value.specs.Ids.{Id};
ghost use Rattle.hpx_value.specs.Hands.{Slot};
ghost use Rattle.hpx_calls.specs.Values.{Value};
ghost use Rattle.hpx_calls.specs.Outcomes.{kind_of};
ghost use Rattle.hpx_calls.specs.Histories.{Call, Setting, called_on, own, run, says};
ghost use Rattle.hpx_calls.specs.Ids.{IsBirth};
ghost use Rattle.hpx_names.specs.Every.{maker_says, size_says, table_says};
ghost use Rattle.hpx_names.specs.Maps.{has, in_order, keys, new_answer, register_answer, resolve_answer, shape_under, spaced, stands_for, unregister_answer};

use hpx_calls::content::Content;
use hpx_calls::effect::Effect;
use hpx_calls::request::Request;

/// A table that is empty at its birth (Symbols, a Shelf) is one ordered map.
pub fn table_law<V, W>()
    ensures register { (g : Setting V) (h : List (Call V W)) (key : List ℕ) (to : V) (w : Option W)
        → says g (Content.Table []) h (record { request = Request.Register key to; waiter = w }) ≡ own w (register_answer g.sort (stands_for h key) (length (keys h))) }
    ensures resolve { (g : Setting V) (h : List (Call V W)) (key : List ℕ) (w : Option W)
        → says g (Content.Table []) h (record { request = Request.Resolve key; waiter = w }) ≡ own w (resolve_answer g.sort (stands_for h key)) }
    ensures unregister { (g : Setting V) (h : List (Call V W)) (key : List ℕ) (w : Option W)
        → says g (Content.Table []) h (record { request = Request.Unregister key; waiter = w }) ≡ own w (unregister_answer g.sort (stands_for h key)) }
    ensures list { (g : Setting V) (h : List (Call V W)) (w : Option W)
        → says g (Content.Table []) h (record { request = Request.Keys; waiter = w }) ≡ own w (g.sort.text (spaced (keys h))) }
    ensures every { (g : Setting V) (h : List (Call V W)) (r : Request V) (w : Option W) → g.kind ≤ 15
        → says g (Content.Table []) h (record { request = r; waiter = w }) ≡ table_says g h r w }
    ensures same { (h : List (Call V W)) (key : List ℕ) → has key (keys h) ≡ is_some (stands_for h key) }
    ensures order { (h : List (Call V W)) → in_order (keys h) ≡ true }
{}

/// Components answer each NEW by its own name and values alone, whatever came before.
pub fn maker_law<V, W>()
    ensures new { (g : Setting V) (h : List (Call V W)) (name : List ℕ) (values : List V) (w : Option W)
        → says g Content.Maker h (record { request = Request.New name values; waiter = w }) ≡ own w (new_answer g.sort g.made (shape_under g.sort name values)) }
    ensures every { (g : Setting V) (h : List (Call V W)) (r : Request V) (w : Option W) → g.kind ≤ 15
        → says g Content.Maker h (record { request = r; waiter = w }) ≡ maker_says g r w }
{}

/// Localities answer each COUNT their number.
pub fn localities_law<V, W>()
    ensures count { (g : Setting V) (n : ℕ) (h : List (Call V W)) (w : Option W)
        → says g (Content.Size n) h (record { request = Request.Count; waiter = w }) ≡ own w (g.sort.int (pos n)) }
    ensures every { (g : Setting V) (n : ℕ) (h : List (Call V W)) (r : Request V) (w : Option W) → g.kind ≤ 15
        → says g (Content.Size n) h (record { request = r; waiter = w }) ≡ size_says g n r w }
{}

/// What NEW makes is at its birth: so its whole life is the one of a plain object (`hpx_calls::laws::life_law`).
pub fn births_law()
    ensures { (n : ℕ) (g : Setting (Value Id)) (h : List (Call (Value Id) Slot)) (name : List ℕ) (values : List (Value Id)) (w : Option Slot) (x : Content (Value Id))
        → (called_on g (run g Content.Maker h) (record { request = Request.New name values; waiter = w })).effect ≡ Effect.Makes x → IsBirth n (kind_of x) x }
{}
