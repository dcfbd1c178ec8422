//! Faults of names, which don't end a reading.

ghost use Rattle.std.specs.Prelude.{◌≡◌};
ghost use Rattle.parser_combinators.specs.Note as notes;

/// What is wrong with a name or clause. Of several faults at one token the first in this order
/// counts.
#[derive(Clone, Copy, Debug, PartialEq, Eq)]
pub enum NameKind {
    /// Declared twice.
    Duplicate,
    /// Fits nothing that is declared.
    Unknown,
    /// Fits several things that are declared.
    Ambiguous,
    Level,
    Picture,
    Redefines,
    Value,
    Usage,
}

/// Where a token is.
#[derive(Clone, Copy, Debug, PartialEq, Eq)]
pub struct Position {
    /// How many tokens come before it.
    pub index: usize,
    /// Its line of the source, from 1.
    pub line: u32,
}

/// A fault of a name, and where it is.
#[derive(Clone, Copy, Debug, PartialEq, Eq)]
pub struct Note {
    pub kind: NameKind,
    pub position: Position,
}

impl NameKind {
    fn rank(self) -> u8
        ensures { result ≡ notes.rank self }
    {
        match self {
            NameKind::Duplicate => 0,
            NameKind::Unknown => 1,
            NameKind::Ambiguous => 2,
            NameKind::Level => 3,
            NameKind::Picture => 4,
            NameKind::Redefines => 5,
            NameKind::Value => 6,
            NameKind::Usage => 7,
        }
    }
}

impl Note {
    /// Whether this fault counts before the other.
    pub fn precedes(self, other: Note) -> bool
        ensures { result ≡ notes.precedes self other }
    {
        if self.position.index == other.position.index {
            self.kind.rank() < other.kind.rank()
        } else {
            self.position.index < other.position.index
        }
    }
}
