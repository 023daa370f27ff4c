//! The result of checking an answer.

/// Whether an answer is a certificate for its query.
#[derive(Clone, Copy, Debug, PartialEq, Eq)]
pub enum Verdict {
    /// The answer is a certificate for its query, so what it claims is true.
    Accepted,
    /// The answer is not a certificate for its query. Another answer, perhaps with the same first line, may be one.
    Rejected,
}
