//! What a run of a script writes.
use dd_certificate::Answer;
use dd_values::Items;

/// A script and the answers to its queries, in order.
#[derive(Debug, Drop)]
pub struct Output {
    /// The bytes of the script.
    pub script: Items<u8>,
    pub answers: Items<Answer>,
}
