//! Paragraphs as they are read.

use cob_base::{Items, Word};
use cob_tree::Paragraph;

/// The paragraphs so far.
#[derive(Debug, Drop)]
pub struct Outline {
    pub done: Items<Paragraph>,
    /// A section that has no paragraph yet.
    pub pending: Option<Word>,
    /// Whether a section has begun.
    pub in_section: bool,
}
