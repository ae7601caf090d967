//! Applications that compute: Fibonacci numbers by tasks that make tasks, a ring of points whose parts live on several
//! localities, and a long session that is made from a number.
#![tactic(auto)]

pub mod act;
pub mod codes;
pub mod computing;
pub mod fib_law;
pub mod laws;
pub mod line;
pub mod load;
mod plain;
pub mod ring;
pub mod ring_law;
pub mod session;
pub mod shape;
pub mod stencil;
pub mod stencil_law;
