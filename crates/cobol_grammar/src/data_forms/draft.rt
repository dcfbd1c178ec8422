//! What a text says about its files and data, before the rules on them are checked.

use cob_base::{Items, Text, Word};
use cob_tree::{Operand, Place, Usage};
use parser_combinators::Position;

/// THRU, and the value after it.
#[derive(Debug, Drop)]
pub struct ThruDraft {
    pub at: Position,
    pub to: Operand,
    pub to_at: Position,
}

/// A literal of a VALUE clause, or a span of them.
#[derive(Debug, Drop)]
pub struct SpanDraft {
    pub from: Operand,
    pub from_at: Position,
    pub thru: Option<ThruDraft>,
}

/// A clause of a data description entry. `at` is the position of its first token.
#[derive(Debug, Drop)]
pub enum Clause {
    Redefines {
        at: Position,
        name: Word,
        name_at: Position,
    },
    /// The text of a picture, and its position.
    Picture {
        at: Position,
        text: Text,
        text_at: Position,
    },
    Usage {
        at: Position,
        usage: Usage,
    },
    Sign {
        at: Position,
        leading: bool,
        separate: bool,
    },
    /// The digits of the count.
    Occurs {
        at: Position,
        count: Text,
        count_at: Position,
    },
    Value {
        at: Position,
        spans: Items<SpanDraft>,
    },
}

/// A data description entry.
#[derive(Debug, Drop)]
pub struct EntryDraft {
    pub at: Position,
    /// The digits of its level number.
    pub level: Text,
    /// None for FILLER.
    pub name: Option<Word>,
    pub clauses: Items<Clause>,
}

/// A FILE STATUS clause, from its first token on.
#[derive(Debug, Drop)]
pub struct StatusDraft {
    pub at: Position,
    pub place: Place,
}

/// A SELECT.
#[derive(Debug, Drop)]
pub struct SelectDraft {
    pub name: Word,
    /// The position of the name.
    pub at: Position,
    /// The device's name for it.
    pub assign: Text,
    pub statuses: Items<StatusDraft>,
}

/// An FD and its records.
#[derive(Debug, Drop)]
pub struct FdDraft {
    pub name: Word,
    /// The position of the name.
    pub at: Position,
    pub entries: Items<EntryDraft>,
}

/// The DATA DIVISION.
#[derive(Debug, Drop)]
pub struct DataDraft {
    pub fds: Items<FdDraft>,
    /// The entries of WORKING-STORAGE.
    pub storage: Items<EntryDraft>,
}

/// What comes before the PROCEDURE DIVISION.
#[derive(Debug, Drop)]
pub struct Divisions {
    /// The program's name.
    pub name: Word,
    pub selects: Items<SelectDraft>,
    pub data_part: DataDraft,
}
