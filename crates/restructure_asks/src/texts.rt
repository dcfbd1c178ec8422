//! What an ask writes.

use cob_base::Text;

/// What is written where nothing is refused.
#[derive(Drop)]
pub struct Texts {
    /// What goes to the result's sink.
    pub text: Text,
    /// What goes to the notes, after the text.
    pub report: Option<Text>,
}
