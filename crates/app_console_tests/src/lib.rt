//! What lines and answers do at a session, and how an input is cut into lines.
#![tactic(auto)]

#[cfg(test)]
mod desk;
#[cfg(test)]
mod lines;
pub mod rows;
#[cfg(test)]
mod sessions;
