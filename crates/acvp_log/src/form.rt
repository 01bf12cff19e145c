//! How the lines are written.

/// How the lines of a log are written.
#[derive(Clone, Copy)]
pub enum LogForm {
    /// Words and numbers, with a space between.
    Words,

    /// A JSON object each.
    Json,
}
