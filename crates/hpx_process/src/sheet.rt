//! How far the text of a session has come.

/// How far the text of a session has come.
#[derive(Clone, Copy, Debug, PartialEq, Eq)]
pub enum Sheet {
    /// Nothing was written.
    Blank,
    /// Lines are asked for.
    Open,
    /// The lines are over.
    Full,
}
