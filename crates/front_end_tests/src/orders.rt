//! Reads a small grammar, and the parts of one token.

use crate::texts::tokens_of;
use cob_base::{Text, Word};
use cob_tree::Number;
use cobol_lex::LexError;
use parser_combinators::example::{Fault, Step, read};
use parser_combinators::{Cursor, NameKind, Note, Position, Unread, Why};
use std::alloc::Global;
use std::process::Abort;
use std::test::Fail;

/// A step as it is to be.
#[derive(Clone, Copy)]
enum Wanted {
    Show(&'static [u8]),
    Go(usize),
    Repeat,
    End,
}

fn is_step(step: &Step, wanted: Wanted) -> bool {
    match wanted {
        Wanted::Show(wanted) => match step {
            Step::Show(values) => values.as_slice() == wanted,
            _ => false,
        },
        Wanted::Go(wanted) => match step {
            Step::Go(index) => *index == wanted,
            _ => false,
        },
        Wanted::Repeat => matches!(step, Step::Repeat),
        Wanted::End => matches!(step, Step::End),
    }
}

fn are_steps(steps: &[Step], wanted: &[Wanted]) -> bool {
    for (step, wanted) in steps.iter().zip(wanted.iter()) {
        if !is_step(step, *wanted) {
            return false;
        }
    }
    steps.len() == wanted.len()
}

// Whether a text is read as these steps, where the names are A and B.
fn is_read(alloc: Global, text: &str, names: &[Word], wanted: &[Wanted]) -> Result<bool, LexError> {
    let tokens = tokens_of(alloc, text)?;
    match read(alloc, names, tokens.as_slice()) {
        Ok(steps) => Ok(are_steps(steps.as_slice(), wanted)),
        Err(_) => Ok(false),
    }
}

// The fault of a text, if it has one.
fn fault_of(alloc: Global, text: &str, names: &[Word]) -> Result<Option<Fault>, LexError> {
    let tokens = tokens_of(alloc, text)?;
    match read(alloc, names, tokens.as_slice()) {
        Ok(_) => Ok(None),
        Err(fault) => Ok(Some(fault)),
    }
}

const UNKNOWN_FIRST: Fault = Fault::Name(Note {
    kind: NameKind::Unknown,
    position: Position { index: 1, line: 1 },
});

const UNKNOWN_SECOND: Fault = Fault::Name(Note {
    kind: NameKind::Unknown,
    position: Position { index: 2, line: 1 },
});

const READ: [(&str, &[Wanted]); 9] = [
    // a keyword and a list of one or more
    ("SHOW 7 .", &[Wanted::Show(&[7])]),
    ("SHOW 7 8 ( 9 ) .", &[Wanted::Show(&[7, 8, 9])]),
    // a loop that passes a value on, grouped to the left
    ("SHOW 9 - 5 - 1 .", &[Wanted::Show(&[3])]),
    ("SHOW 9 - ( 5 - 1 ) 2 .", &[Wanted::Show(&[5, 2])]),
    // levels of parentheses
    ("SHOW ( ( 4 ) ) .", &[Wanted::Show(&[4])]),
    // an optional word, and names
    ("GO TO B GO A .", &[Wanted::Go(1), Wanted::Go(0)]),
    // levels of orders, and an optional end
    (
        "REPEAT SHOW 1 GO A END-REPEAT GO B .",
        &[
            Wanted::Repeat,
            Wanted::Show(&[1]),
            Wanted::Go(0),
            Wanted::End,
            Wanted::Go(1),
        ],
    ),
    (
        "REPEAT REPEAT GO A .",
        &[
            Wanted::Repeat,
            Wanted::Repeat,
            Wanted::Go(0),
            Wanted::End,
            Wanted::End,
        ],
    ),
    (
        "REPEAT REPEAT GO A END-REPEAT GO B .",
        &[
            Wanted::Repeat,
            Wanted::Repeat,
            Wanted::Go(0),
            Wanted::End,
            Wanted::Go(1),
            Wanted::End,
        ],
    ),
];

const STOPPED: [(&str, Fault); 16] = [
    // a keyword and a list of one or more
    ("SHOW\n.", Fault::Stop(Why::Syntax, 2)),
    ("SHOW 1\nSHOW", Fault::Stop(Why::Syntax, 2)),
    ("show 1", Fault::Stop(Why::Syntax, 1)),
    ("SHOW 12 .", Fault::Stop(Why::Syntax, 1)),
    // a loop that passes a value on, grouped to the left
    ("SHOW 9 -\n- 1 .", Fault::Stop(Why::Syntax, 2)),
    // levels of parentheses
    ("SHOW ( (\n( 4 ) ) ) .", Fault::Stop(Why::Parens, 2)),
    ("SHOW ( 4\n.", Fault::Stop(Why::Syntax, 2)),
    // an optional word, and names
    ("GO C\nGO D .", UNKNOWN_FIRST),
    ("GO TO TO\n.", UNKNOWN_SECOND),
    ("GO C\nSHOW .", Fault::Stop(Why::Syntax, 2)),
    ("GO 1 .", Fault::Stop(Why::Syntax, 1)),
    // a choice by the next token
    ("A .", Fault::Stop(Why::Syntax, 1)),
    ("", Fault::Stop(Why::Syntax, 1)),
    // levels of orders, and an optional end
    ("REPEAT REPEAT\nREPEAT GO A .", Fault::Stop(Why::Nesting, 2)),
    ("SHOW 1\nEND-REPEAT .", Fault::Stop(Why::Syntax, 2)),
    // nothing after the end
    ("SHOW 1 .\nGO A .", Fault::Stop(Why::Syntax, 2)),
];

fn name(text: &[u8]) -> Result<Word, Fail> {
    Ok(Word::new(text).ok_or("no word")?)
}

#[test]
fn reads_the_small_grammar(rt: HostRuntime) -> Result<(), Fail> {
    let names = [name(b"A")?, name(b"B")?];
    for (text, steps) in READ {
        assert!(rt; is_read(rt.alloc(), text, &names, steps)?, "at {text}");
    }
    for (text, fault) in STOPPED {
        assert_eq!(rt;
            fault_of(rt.alloc(), text, &names)?,
            Some(fault),
            "at {text}"
        );
    }
    Ok(())
}

fn is_text(read: Result<(Text, Position), Unread>, bytes: &[u8], at: Position) -> bool {
    match read {
        Ok((text, position)) => text.as_slice() == bytes && position == at,
        Err(_) => false,
    }
}

fn is_number(read: Result<(Number, Position), Unread>, digits: &[u8], at: Position) -> bool {
    match read {
        Ok((number, position)) => {
            let is_scaled = number.negative && number.scale == 1;
            is_scaled && number.digits.as_slice() == digits && position == at
        }
        Err(_) => false,
    }
}

const THIRD: Position = Position { index: 2, line: 3 };

const FIFTH: Position = Position { index: 4, line: 3 };

// Two faults that are noted, and the one that is kept: the first in the order of tokens counts, and
// at one token the first kind.
const NOTES: [(NameKind, Position, NameKind, Position); 5] = [
    (NameKind::Value, FIFTH, NameKind::Value, FIFTH),
    (NameKind::Usage, THIRD, NameKind::Usage, THIRD),
    (NameKind::Level, THIRD, NameKind::Level, THIRD),
    (NameKind::Picture, THIRD, NameKind::Level, THIRD),
    (NameKind::Unknown, FIFTH, NameKind::Level, THIRD),
];

fn expect_first_notes(rt: &impl Abort, cursor: &mut Cursor) {
    for (kind, position, first, at) in NOTES {
        cursor.note(Some(Note { kind, position }));
        let wanted = Note {
            kind: first,
            position: at,
        };
        assert_eq!(rt; cursor.fault(), Some(wanted));
    }
}

#[test]
fn takes_each_kind_of_token(rt: HostRuntime) -> Result<(), Fail> {
    let alloc = rt.alloc();
    let tokens = tokens_of(alloc, "12\n.\n'a b' PIC 9(2) -1.5")?;
    let mut cursor = Cursor::from_index(tokens.as_slice(), 0);
    assert_eq!(rt; (cursor.index(), cursor.left()), (0, 6));
    let first = Position { index: 0, line: 1 };
    assert!(rt; is_text(cursor.digits(alloc), b"12", first));
    assert_eq!(rt; cursor.sees_period(), true);
    assert_eq!(rt; cursor.period(), Ok(Position { index: 1, line: 2 }));
    assert!(rt; is_text(cursor.literal(alloc), b"a b", THIRD));
    assert_eq!(rt; cursor.sees(b"PIC"), true);
    cursor.skip();
    assert!(rt; is_text(cursor.picture(alloc), b"9(2)", FIFTH));
    let last = Position { index: 5, line: 3 };
    assert!(rt; is_number(cursor.decimal(alloc), b"15", last));
    assert_eq!(rt; cursor.ended(), Ok(()));
    expect_first_notes(&rt, &mut cursor);
    Ok(())
}
