//! What calls on control objects are answered, as functions of the whole list of calls.
//!
//! A list of calls has the latest first. Values are of any sort, and waiters are of any type. The clause `every` is about
//! each call there is, listed or not.
ghost use Rattle.std.specs.Prelude.{◌≡◌, ◌≤◌, ◌&&◌, ℕ, ℤ, List, [], Option, Some, None, true, false, if◌then◌else◌};
ghost use Rattle.hpx_calls.specs.Values.{is_number_or_text, is_small};
ghost use Rattle.hpx_calls.specs.Tables.{is_first};
ghost use Rattle.hpx_calls.specs.Histories.{Call, Setting, says};
ghost use Rattle.hpx_lco.specs.Answered.{accepted, arrivals, arrive_says, close_says, closed, down_says, first_set, get_from, get_says, gets, put_says, set_says, wait_says};
ghost use Rattle.hpx_lco.specs.Every.{barrier_says, channel_says, dataflow_says, latch_says, promise_says};
ghost use Rattle.hpx_lco.specs.Flows.{ask_says, give_says, has_get, is_full, starts, story};

use hpx_calls::content::Content;
use hpx_calls::request::Request;

/// A latch of n.
pub fn latch_law<V, W>()
    ensures down { (g : Setting V) (n : ℕ) (h : List (Call V W)) (w : Option W)
        → says g (Content.Latch n) h (record { request = Request.Down; waiter = w }) ≡ down_says g.sort n h w }
    ensures wait { (g : Setting V) (n : ℕ) (h : List (Call V W)) (w : W)
        → says g (Content.Latch n) h (record { request = Request.Wait; waiter = Some w }) ≡ wait_says g.sort n h (Some w) }
    ensures every { (g : Setting V) (n : ℕ) (h : List (Call V W)) (r : Request V) (w : Option W) → 32 ≤ g.kind
        → says g (Content.Latch n) h (record { request = r; waiter = w }) ≡ latch_says g n h r w }
{}

/// A promise that is empty at its birth.
pub fn promise_law<V, W>()
    ensures put { (g : Setting V) (h : List (Call V W)) (v : V) (w : Option W) → is_number_or_text (g.sort.look v) ≡ true
        → says g (Content.Promise None) h (record { request = Request.Put v; waiter = w }) ≡ set_says g.sort (first_set g.sort h) (gets h) v w }
    ensures set { (g : Setting V) (h : List (Call V W)) (slot : ℤ) (v : V) (w : Option W) → is_first slot ≡ true
        → says g (Content.Promise None) h (record { request = Request.Set slot v; waiter = w }) ≡ set_says g.sort (first_set g.sort h) (gets h) v w }
    ensures get { (g : Setting V) (h : List (Call V W)) (w : W)
        → says g (Content.Promise None) h (record { request = Request.Get; waiter = Some w }) ≡ get_says g.sort (first_set g.sort h) (gets h) (Some w) }
    ensures every { (g : Setting V) (h : List (Call V W)) (r : Request V) (w : Option W) → 32 ≤ g.kind
        → says g (Content.Promise None) h (record { request = r; waiter = w }) ≡ promise_says g h r w }
{}

/// A channel that is open and empty at its birth.
pub fn channel_law<V, W>()
    ensures put { (g : Setting V) (h : List (Call V W)) (v : V) (w : Option W) → is_small (g.sort.look v) ≡ true
        → says g (Content.Channel false []) h (record { request = Request.Put v; waiter = w }) ≡ put_says g.sort (closed h) (accepted g.sort h) v w }
    ensures get { (g : Setting V) (h : List (Call V W)) (w : W)
        → says g (Content.Channel false []) h (record { request = Request.Get; waiter = Some w }) ≡ get_from g.sort (closed h) (accepted g.sort h) (Some w) }
    ensures close { (g : Setting V) (h : List (Call V W)) (w : Option W)
        → says g (Content.Channel false []) h (record { request = Request.Close; waiter = w }) ≡ close_says g.sort (closed h) (accepted g.sort h) w }
    ensures every { (g : Setting V) (h : List (Call V W)) (r : Request V) (w : Option W) → 32 ≤ g.kind
        → says g (Content.Channel false []) h (record { request = r; waiter = w }) ≡ channel_says g h r w }
{}

/// A barrier of n.
pub fn barrier_law<V, W>()
    ensures arrive { (g : Setting V) (n : ℕ) (h : List (Call V W)) (w : W) → 1 ≤ n
        → says g (Content.Barrier n) h (record { request = Request.Arrive; waiter = Some w }) ≡ arrive_says g.sort n (arrivals h) (Some w) }
    ensures every { (g : Setting V) (n : ℕ) (h : List (Call V W)) (r : Request V) (w : Option W) → 1 ≤ n → 32 ≤ g.kind
        → says g (Content.Barrier n) h (record { request = r; waiter = w }) ≡ barrier_says g n h r w }
{}

/// A dataflow of n inputs that starts an action with a code.
pub fn dataflow_law<V, W>()
    ensures put { (g : Setting V) (code n : ℕ) (h : List (Call V W)) (slot : ℤ) (v : V) (w : Option W)
        → says g (Content.Dataflow code n []) h (record { request = Request.PutAt slot v; waiter = w })
        ≡ give_says g.sort code n h (record { request = Request.PutAt slot v; waiter = w }) slot }
    ensures set { (g : Setting V) (code n : ℕ) (h : List (Call V W)) (slot : ℤ) (v : V) (w : Option W)
        → says g (Content.Dataflow code n []) h (record { request = Request.Set slot v; waiter = w })
        ≡ give_says g.sort code n h (record { request = Request.Set slot v; waiter = w }) slot }
    ensures get { (g : Setting V) (code n : ℕ) (h : List (Call V W)) (w : W)
        → says g (Content.Dataflow code n []) h (record { request = Request.Get; waiter = Some w }) ≡ ask_says g.sort code n h w }
    ensures every { (g : Setting V) (code n : ℕ) (h : List (Call V W)) (r : Request V) (w : Option W) → 32 ≤ g.kind
        → says g (Content.Dataflow code n []) h (record { request = r; waiter = w }) ≡ dataflow_says g code n h r w }
    ensures once { (g : Setting V) (code n : ℕ) (h : List (Call V W))
        → starts (story g (Content.Dataflow code n []) h) ≡ (if is_full g.sort n h && has_get h then 1 else 0) }
{}
