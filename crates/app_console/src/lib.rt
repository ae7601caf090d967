//! The consoles: sessions by tables of commands, the acts of all objects, the lines of an input, and the law of what a
//! session prints.
#![tactic(auto)]

pub mod act;
pub mod console;
pub mod desk;
pub mod keep;
pub mod line;
pub mod lines;
pub mod plan;
pub mod read;
pub mod say;
pub mod session_law;
pub mod stay;
pub mod table;
