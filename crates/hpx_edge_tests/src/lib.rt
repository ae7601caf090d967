//! The edges of the program: its words, its greatest lines, its longest sessions, readers and writers that
//! fail, and fabrics that bring what was never sent.
#![tactic(auto)]

#[cfg(test)]
mod breaks;
#[cfg(test)]
mod lines;
#[cfg(test)]
mod long;
#[cfg(test)]
mod loose;
#[cfg(test)]
mod session;
#[cfg(test)]
mod words;
