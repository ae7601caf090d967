//! Tests of the lines that the top call handles itself, and of what is printed for them.
#![tactic(auto)]

#[cfg(test)]
mod lines;
#[cfg(test)]
mod texts;
