//! Runs whose bodies several threads run: what they print, whether the judge accepts their journals, and that idle workers steal.
#![tactic(auto)]

#[cfg(test)]
mod ended;
#[cfg(test)]
mod gates;
#[cfg(test)]
mod sessions;
#[cfg(test)]
mod stealing;
