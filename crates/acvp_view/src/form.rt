//! In which form something is shown.

/// In which form something is shown.
#[derive(Clone, Copy, Debug, PartialEq, Eq)]
pub enum Form {
    /// Lines of words, for people.
    Words,

    /// A JSON object, for programs.
    Json,
}
