//! What an arm begins with.

/// The phrase before an arm; the second arm has NOT before it.
#[derive(Clone, Copy, Debug, PartialEq, Eq)]
pub enum Phrase {
    /// `[AT] END`, of READ.
    End,
    /// `[ON] SIZE ERROR`, of arithmetic.
    Size,
}
