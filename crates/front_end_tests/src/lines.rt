//! Sources in the reference format and their texts, worked by hand.

use ref_format::{FormatError, FormatFault, ProgramText, unfold};
use std::alloc::Global;
use std::test::Fail;

fn unfolded(alloc: Global, source: &[u8]) -> Result<ProgramText, FormatError> {
    if source.len() >= 1 << 31 {
        return Err(FormatError::NoMemory);
    }
    unfold(alloc, source)
}

// What is left behind so many spaces; none where they don't come first.
fn behind_spaces(bytes: &[u8], count: usize) -> Option<&[u8]> {
    let mut left = bytes;
    for _ in 0..count {
        left = left.strip_prefix(b" ")?;
    }
    Some(left)
}

// What is left behind spaces and a byte, where the spaces at the end of a line don't count.
fn behind(bytes: &[u8], spaces: usize, byte: u8) -> Option<&[u8]> {
    let count = if byte == b'\n' { 0 } else { spaces };
    match behind_spaces(bytes, count)? {
        [first, rest @ ..] => { if *first == byte { Some(rest) } else { None } }
        [] => None,
    }
}

// Whether a text is the wanted one, but for the spaces at the end of each of its lines.
fn is_unspaced(text: &[u8], wanted: &[u8]) -> bool {
    let mut left = wanted;
    let mut spaces = 0usize;
    for byte in text {
        if *byte == b' ' {
            spaces = spaces.saturating_add(1);
        } else {
            match behind(left, spaces, *byte) {
                Some(rest) => left = rest,
                None => return false,
            }
            spaces = 0;
        }
    }
    left.is_empty()
}

fn is_unfolded(alloc: Global, source: &[u8], wanted: &[u8]) -> bool {
    match unfolded(alloc, source) {
        Ok(text) => is_unspaced(text.bytes(), wanted),
        Err(_) => false,
    }
}

fn fault_of(alloc: Global, source: &[u8]) -> Option<FormatFault> {
    match unfolded(alloc, source) {
        Err(FormatError::Fault(fault)) => Some(fault),
        _ => None,
    }
}

const TEXTS: [(&[u8], &[u8]); 13] = [
    (b"", b""),
    (
        b"           DISPLAY \"ABC\n      -    \"DEF\".\n",
        b"    DISPLAY \"ABC                                                 DEF\".",
    ),
    (
        b"           DISP\n      -    LAY \"X\".\n",
        b"    DISPLAY \"X\".",
    ),
    (b"       A.\r\n       B.\r\n", b"A.\nB."),
    (b"000\tA.\n123456 8\tB.", b" A.\n8        B."),
    (b"       A.", b"A."),
    (
        b"       PROGRAM-ID. P.\n       AUTHOR. J. O'BRIEN.\n           IT'S HERS.\n      X    ODD.\n       ENVIRONMENT DIVISION.\n",
        b"PROGRAM-ID. P.\nENVIRONMENT DIVISION.",
    ),
    (
        b"       remarks. A.\n      *A. B.\n       Data Division.\n       AUTHOR. C.\n",
        b"Data Division.\nAUTHOR. C.",
    ),
    (
        b"      D    DISPLAY X.\n      d\x01\n      *'\n      /\n       A.\n",
        b"A.",
    ),
    (b"\n       \n       A.\n\n                    \n", b"A."),
    (
        b"           DISPLAY 'A'\n\n      *\n      -    '\"B'.\n",
        b"    DISPLAY 'A''\"B'.",
    ),
    (
        b"123456 A                                                                98765432\n",
        b"A",
    ),
    (
        b"       A. \"B\n       C.\n      -    D.\n",
        b"A. \"B\nC.D.",
    ),
];

#[test]
fn texts(rt: HostRuntime) {
    for (source, wanted) in TEXTS {
        assert!(rt; is_unfolded(rt.alloc(), source, wanted), "at {wanted:?}");
    }
}

const FAULTS: [(&[u8], FormatFault); 9] = [
    (b"      X    A.\n", FormatFault::BadIndicator(1)),
    (b"       A.\n      X\x01", FormatFault::BadIndicator(2)),
    (b"       A\x1f\n      X\n", FormatFault::BadByte(1)),
    (b"       A.\r", FormatFault::BadByte(1)),
    (
        b"           DISPLAY \"ABC\n      -    DEF\".\n",
        FormatFault::BadContinuation(2),
    ),
    (
        b"           DISPLAY \"ABC\n      -    'DEF\".\n",
        FormatFault::BadContinuation(2),
    ),
    (b"\n      -    A.\n", FormatFault::BadContinuation(2)),
    (b"       A.\n      -B.\n", FormatFault::BadContinuation(2)),
    (b"       A.\n      -\n", FormatFault::BadContinuation(2)),
];

#[test]
fn faults(rt: HostRuntime) {
    for (source, wanted) in FAULTS {
        assert_eq!(rt; fault_of(rt.alloc(), source), Some(wanted), "at {source:?}");
    }
}

#[test]
fn lines(rt: HostRuntime) -> Result<(), Fail> {
    let source = b"\n       A.\n           \"B\n      -    \"C\".\n";
    let text = unfold(rt.alloc(), source)?;
    let mut rows = [0u32; 5];
    let mut left = text.lines();
    for byte in text.bytes() {
        let row = left.first() as usize;
        if row < 5 && *byte != b' ' {
            rows[row] = rows[row].wrapping_add(1);
        }
        left.pass(1);
    }
    assert_eq!(rt; text.bytes().len(), 65 + 1 + 65 + 60);
    assert_eq!(rt; rows, [0, 0, 3, 2, 3]);
    Ok(())
}
