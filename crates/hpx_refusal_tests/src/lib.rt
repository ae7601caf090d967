//! Each read, write, send and delivery of a session refused in turn: what is answered, and what stands.
#![tactic(auto)]

#[cfg(test)]
mod ended;
#[cfg(test)]
mod ports;
#[cfg(test)]
mod short;
#[cfg(test)]
mod working;
