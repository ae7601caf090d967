//! Tests of the acts of objects that order work, that name objects, that count and that compute, as tables of calls and answers.
#![tactic(auto)]

#[cfg(test)]
mod computing;
#[cfg(test)]
mod computing_rows;
#[cfg(test)]
mod lco;
#[cfg(test)]
mod names;
#[cfg(test)]
mod numbers;
