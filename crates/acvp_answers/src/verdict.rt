//! What a test and a vector set come to.
/// What the answer to one test comes to.
#[derive(Clone, Copy, Debug, PartialEq, Eq)]
pub enum Verdict {
    /// It is the standard's.
    Passed,
    /// It isn't the standard's.
    Fail,
    /// There is none.
    Missing,
}

/// What the answers to a vector set come to.
#[derive(Clone, Copy, Debug, PartialEq, Eq)]
pub enum Disposition {
    /// Every test is passed.
    Passed,
    /// Some test is failed.
    Fail,
    /// None is failed, and some test isn't answered.
    Missing,
    /// There were no answers before the vector set's end.
    Expired,
    /// There are no answers yet.
    Unreceived,
}
