//! What errors say where they are displayed.

use cob_base::limit::past;
use cob_base::{LimitKind, NoMemory, Word};
use cob_tree::{Abend, NameFault, ParseError, ParseFault, SplitFault};
use cobol_lex::{LexError, LexFault};
use cobol_read::{ReadFault, ReadRefusal};
use picture_data::PictureFault;
use ref_format::{FormatError, FormatFault};
use std::alloc::Global;
use std::fmt::Display;
use std::process::Abort;
use std::test::Fail;

const LINES: [(FormatFault, &str); 3] = [
    (FormatFault::BadIndicator(1), "a wrong indicator in line 1"),
    (FormatFault::BadByte(20), "a control character in line 20"),
    (
        FormatFault::BadContinuation(3),
        "a wrong continuation in line 3",
    ),
];

const TOKENS: [(LexFault, &str); 4] = [
    (LexFault::OpenLiteral(4), "literal without end in line 4"),
    (LexFault::BadWord(5), "bad word in line 5"),
    (LexFault::BadNumber(6), "bad number in line 6"),
    (LexFault::TooManyDigits(7), "too many digits in line 7"),
];

const NAMES: [(NameFault, &str); 8] = [
    (NameFault::Duplicate(9), "line 9: a name stands twice"),
    (NameFault::Unknown(10), "line 10: a name that nothing has"),
    (
        NameFault::Ambiguous(11),
        "line 11: a name that several have",
    ),
    (NameFault::Level(12), "line 12: a level number"),
    (NameFault::Picture(13), "line 13: a picture"),
    (NameFault::Redefines(14), "line 14: REDEFINES"),
    (NameFault::Value(15), "line 15: a value"),
    (
        NameFault::Usage(16),
        "line 16: a use that the item doesn't serve",
    ),
];

const PICTURES: [(PictureFault, &str); 3] = [
    (PictureFault::BadSymbol(1), "byte 1: no symbol of a picture"),
    (PictureFault::BadOrder(2), "byte 2: no picture goes on so"),
    (
        PictureFault::TooManyDigits(3),
        "byte 3: more than 18 digits",
    ),
];

const RUNS: [(Abend, &str); 3] = [
    (Abend::BadDigits, "bytes that aren't digits"),
    (Abend::OutOfRange, "out of range"),
    (Abend::Io(35), "file status 35"),
];

const TERMS: &str = "LIMIT TERMS COUNTED 501 LIMIT 500";

const OUT: &str = "out of memory";

fn expect<T: Display>(rt: &impl Abort, alloc: Global, rows: &[(T, &str)]) -> Result<(), Fail> {
    for (error, wanted) in rows {
        let shown = format!(in alloc; "{error}")?;
        assert_eq!(rt; shown.as_str(), *wanted);
    }
    Ok(())
}

#[test]
fn errors_are_displayed(rt: HostRuntime) -> Result<(), Fail> {
    let alloc = rt.alloc();
    expect(&rt, alloc, &LINES)?;
    expect(&rt, alloc, &TOKENS)?;
    expect(&rt, alloc, &NAMES)?;
    expect(&rt, alloc, &PICTURES)?;
    expect(&rt, alloc, &RUNS)?;
    expect(&rt, alloc, &[(NoMemory, OUT)])
}

// An error that holds another says what that says.
#[test]
fn errors_of_texts_are_displayed(rt: HostRuntime) -> Result<(), Fail> {
    let lines = [
        (
            FormatError::Fault(FormatFault::BadByte(2)),
            "a control character in line 2",
        ),
        (FormatError::NoMemory, OUT),
    ];
    expect(&rt, rt.alloc(), &lines)?;
    let tokens = [
        (LexError::Fault(LexFault::BadWord(5)), "bad word in line 5"),
        (LexError::NoMemory, OUT),
    ];
    expect(&rt, rt.alloc(), &tokens)
}

#[test]
fn errors_of_parsing_are_displayed(rt: HostRuntime) -> Result<(), Fail> {
    let limit = past(LimitKind::Terms, false, 501);
    let name = ParseFault::Name(NameFault::Level(12));
    let parsing = [
        (ParseError::Fault(ParseFault::Syntax(8)), "line 8: syntax"),
        (ParseError::Fault(name), "line 12: a level number"),
        (ParseError::Limit(limit), TERMS),
        (ParseError::NoMemory, OUT),
    ];
    expect(&rt, rt.alloc(), &parsing)
}

#[test]
fn errors_of_splitting_are_displayed(rt: HostRuntime) -> Result<(), Fail> {
    let limit = past(LimitKind::Nesting, true, 501);
    let nesting = "RESULT LIMIT NESTING COUNTED 501 LIMIT 500";
    let splitting = [
        (SplitFault::Limit(limit), nesting),
        (SplitFault::NoMemory, OUT),
    ];
    expect(&rt, rt.alloc(), &splitting)
}

#[test]
fn errors_of_reading_are_displayed(rt: HostRuntime) -> Result<(), Fail> {
    let limit = past(LimitKind::Terms, false, 501);
    let left = Word::new(b"ALTER").map(|word| ReadFault::LeftOut(word, 17));
    let left = left.unwrap_or(ReadFault::Power(0));
    let reading = [
        (ReadRefusal::Fault(left), "line 17: ALTER is left out"),
        (
            ReadRefusal::Fault(ReadFault::Power(18)),
            "line 18: ** is left out",
        ),
        (
            ReadRefusal::Fault(ReadFault::Parse(ParseFault::Syntax(8))),
            "line 8: syntax",
        ),
        (ReadRefusal::Limit(limit), TERMS),
        (ReadRefusal::NoMemory, OUT),
    ];
    expect(&rt, rt.alloc(), &reading)
}
