//! What surrounds a statement.

/// What holds a statement, which decides what some jumps mean.
#[derive(Clone, Copy, Debug, PartialEq, Eq)]
pub struct Scope {
    /// In an inline PERFORM.
    pub in_loop: bool,
    /// In a section.
    pub in_section: bool,
}
