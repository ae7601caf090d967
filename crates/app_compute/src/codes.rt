//! Codes of the actions that compute.

/// Computes a Fibonacci number.
pub const FIB: u16 = 48;
/// Adds two numbers.
pub const SUM: u16 = 49;
