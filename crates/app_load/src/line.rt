//! The one line that is printed for a made session.
ghost use Rattle.std.specs.Prelude.{◌≡◌, IfOk, length};
ghost use Rattle.std.specs.List.{AllByRecursion};
ghost use Rattle.app_load.specs.Load.{is_error, summary, summary_of};

use hpx_value::memory::OutOfMemory;
use std::alloc::Global;

/// Whether what a line printed tells of a refusal or a fault.
pub fn is_error(text: &[u8]) -> bool
    ensures { result ≡ is_error text.now }
{
    text.starts_with(b"error: ")
}

/// The summary of a session of so many lines.
pub fn summary(
    alloc: Global,
    lines: u32,
    errors: u32,
    live: usize,
    sum: i128,
) -> Result<Vec<u8>, OutOfMemory>
    ensures { IfOk result (λ text. text.items ≡ summary_of lines errors live sum) }
{
    Ok(format!(in alloc; "lines {lines} errors {errors} live {live} sum {sum}\n")?.into_bytes())
}

/// A number to start with, how many lines are made, how many localities there are, and the summary.
pub type Row = (u32, u32, u32, &'static [u8]);

const ROWS: &[Row] = &[
    (1, 0, 1, b"lines 0 errors 0 live 8 sum 0\n"),
    (1, 4, 2, b"lines 4 errors 2 live 7 sum 0\n"),
    (1, 10, 2, b"lines 10 errors 4 live 7 sum 12\n"),
];

/// Worked sessions. What each comes to is said by the plain space.
pub fn rows() -> &'static [Row]
    ensures many { length result.now ≡ 3 }
    ensures plain { AllByRecursion (λ row. summary row.0 row.1 row.2 ≡ row.3.now) result.now }
{
    ROWS
}
