//! The lines of made sessions, as tables.
#![tactic(auto)]

#[cfg(test)]
mod session;
