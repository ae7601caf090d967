//! Tests of the journal, of `replay` and of the tables: journals by hand, legal and wrong ones; what is found and counted in tables.
#![tactic(auto)]

#[cfg(test)]
mod journal;
#[cfg(test)]
mod lines;
#[cfg(test)]
mod stories;
#[cfg(test)]
mod tables;
