//! Texts and their tokens, by the rules on tokens.

use crate::texts::placed;
use cob_base::NoMemory;
use cob_tree::Number;
use cobol_lex::{LexError, LexFault, Token, TokenKind, tokens};
use std::alloc::Global;
use std::slice;
use std::test::Fail;

fn digit(byte: u8) -> u8 {
    byte.saturating_sub(b'0')
}

// What is left behind a mark and these bytes; none where they don't come first.
fn behind_marked<'a>(shown: &'a [u8], mark: &[u8], bytes: &[u8]) -> Option<&'a [u8]> {
    shown.strip_prefix(mark)?.strip_prefix(bytes)
}

// What is left behind a number: its sign, its digits, a `/`, and its scale.
fn behind_number<'a>(shown: &'a [u8], number: &Number) -> Option<&'a [u8]> {
    let sign: &[u8] = if number.negative { b"#-" } else { b"#+" };
    match behind_marked(shown, sign, number.digits.as_slice())? {
        [b'/', scale, rest @ ..] => {
            if digit(*scale) == number.scale {
                Some(rest)
            } else {
                None
            }
        }
        _ => None,
    }
}

fn behind_kind<'a>(shown: &'a [u8], kind: &TokenKind) -> Option<&'a [u8]> {
    match kind {
        TokenKind::Word(word) => shown.strip_prefix(word.as_slice()),
        TokenKind::Digits(digits) => behind_marked(shown, b"#", digits.as_slice()),
        TokenKind::Decimal(number) => behind_number(shown, number.get()),
        TokenKind::Literal(value) => behind_marked(shown, b"\"", value.as_slice()),
        TokenKind::Picture(picture) => behind_marked(shown, b"~", picture.as_slice()),
        TokenKind::Period => shown.strip_prefix(b"."),
        TokenKind::Mark(mark) => shown.strip_prefix(slice::from_ref(mark)),
        TokenKind::LessEqual => shown.strip_prefix(b"<="),
        TokenKind::GreaterEqual => shown.strip_prefix(b">="),
        TokenKind::Power => shown.strip_prefix(b"**"),
    }
}

// What is left behind a `|`, the line of a token, a space, and the token.
fn behind<'a>(shown: &'a [u8], token: &Token) -> Option<&'a [u8]> {
    match shown {
        [b'|', line, b' ', rest @ ..] => {
            if u32::from(digit(*line)) == token.line {
                behind_kind(rest, &token.kind)
            } else {
                None
            }
        }
        _ => None,
    }
}

// Whether the tokens are shown so.
fn are_shown(tokens: &[Token], shown: &[u8]) -> bool {
    let mut rest = shown;
    for token in tokens {
        match behind(rest, token) {
            Some(left) => rest = left,
            None => return false,
        }
    }
    rest.is_empty()
}

// Whether the tokens of the parts are shown so.
fn are_read(alloc: Global, parts: &[&[u8]], shown: &[u8]) -> Result<bool, NoMemory> {
    let text = placed(alloc, parts)?;
    match tokens(alloc, &text) {
        Ok(found) => Ok(are_shown(found.as_slice(), shown)),
        Err(_) => Ok(false),
    }
}

// The fault of the parts, if they have one.
fn fault_of(alloc: Global, parts: &[&[u8]]) -> Result<Option<LexFault>, NoMemory> {
    let text = placed(alloc, parts)?;
    match tokens(alloc, &text) {
        Err(LexError::Fault(fault)) => Ok(Some(fault)),
        _ => Ok(None),
    }
}

const TOKENS: [(&[u8], &[u8]); 47] = [
    (b"", b""),
    (b" ,;\n", b""),
    (b"DISPLAY \"X\".", b"|1 DISPLAY|1 \"X|1 ."),
    (b"I+1", b"|1 I|1 +|1 #1"),
    (b"I + 1", b"|1 I|1 +|1 #1"),
    (b"I +1", b"|1 I|1 #+1/0"),
    (b"(+1", b"|1 (|1 #+1/0"),
    (b"A:-1", b"|1 A|1 :|1 #-1/0"),
    (b"A,-1;+2\n-3", b"|1 A|1 #-1/0|1 #+2/0|2 #-3/0"),
    (b"5 -3", b"|1 #5|1 #-3/0"),
    (b"5-3", b"|1 5-3"),
    (b"5+3", b"|1 #5|1 +|1 #3"),
    (b")-3", b"|1 )|1 -|1 #3"),
    (b"A-1", b"|1 A-1"),
    (b" -.5", b"|1 #-5/1"),
    (b"-.5", b"|1 -|1 #+5/1"),
    (b".5.", b"|1 #+5/1|1 ."),
    (b"1.", b"|1 #1|1 ."),
    (b"1.A", b"|1 #1|1 .|1 A"),
    (b"A.5", b"|1 A|1 #+5/1"),
    (b"12.340", b"|1 #+12340/3"),
    (b"12A", b"|1 12A"),
    (b"a--b", b"|1 A--B"),
    (b"-A", b"|1 -|1 A"),
    (b" - A", b"|1 -|1 A"),
    (b"123456789012345678", b"|1 #123456789012345678"),
    (b"12345678901234567890A", b"|1 12345678901234567890A"),
    (b"\"\"\"\"", b"|1 \"\""),
    (b"'A\"B' \"A'B\"", b"|1 \"A\"B|1 \"A'B"),
    (b"\"A\"\"B\"C", b"|1 \"A\"B|1 C"),
    (b"\"a\x80\xff\"", b"|1 \"a\x80\xff"),
    (b"PIC IS S9(5)V99.", b"|1 PIC|1 IS|1 ~S9(5)V99|1 ."),
    (b"picture x,", b"|1 PICTURE|1 ~x"),
    (b"PIC X(2);Y", b"|1 PIC|1 ~X(2);Y"),
    (b"PIC , 9.\nPIC 99.\n", b"|1 PIC|1 ~9|1 .|2 PIC|2 ~99|2 ."),
    (b"PIC \xff.", b"|1 PIC|1 ~\xff|1 ."),
    (b"PIC X..", b"|1 PIC|1 ~X.|1 ."),
    (b"PIC IS-X is", b"|1 PIC|1 ~IS-X|1 IS"),
    (b"PIC is is is", b"|1 PIC|1 IS|1 ~is|1 IS"),
    (b"PIC IS(1)", b"|1 PIC|1 IS|1 ~(1)"),
    (b"PIC", b"|1 PIC"),
    (b"**", b"|1 **"),
    (b"***", b"|1 **|1 *"),
    (b"<=>=", b"|1 <=|1 >="),
    (b"< =", b"|1 <|1 ="),
    (b"=> > */()", b"|1 =|1 >|1 >|1 *|1 /|1 (|1 )"),
    (
        b"A123456789B123456789C123456789",
        b"|1 A123456789B123456789C123456789",
    ),
];

const FAULTS: [(&[u8], LexFault); 20] = [
    (b"1.2.3", LexFault::BadNumber(1)),
    (b" +1A", LexFault::BadNumber(1)),
    (b"1.5-2", LexFault::BadNumber(1)),
    (b"12-", LexFault::BadWord(1)),
    (b"A-", LexFault::BadWord(1)),
    (b"A\n\nB-\nC-", LexFault::BadWord(3)),
    (b"1234567890123456789", LexFault::TooManyDigits(1)),
    (b"A.\n 1234567890.123456789", LexFault::TooManyDigits(2)),
    (b"0000000000000000000", LexFault::TooManyDigits(1)),
    (b"\"\"", LexFault::BadWord(1)),
    (b"\"A\"\"\n\"", LexFault::OpenLiteral(1)),
    (b"A.\nDISPLAY 'X", LexFault::OpenLiteral(2)),
    (b"A.\nDISPLAY 'X\n'.", LexFault::OpenLiteral(2)),
    (b"A \x80", LexFault::BadWord(1)),
    (b"A\xff", LexFault::BadWord(1)),
    (b"A\n ?", LexFault::BadWord(2)),
    (b"PIC .", LexFault::BadWord(1)),
    (b"PIC IS.", LexFault::BadWord(1)),
    (b"PIC IS .", LexFault::BadWord(1)),
    (b"A123456789B123456789C123456789D", LexFault::BadWord(1)),
];

const MOST: [u8; 160] = [b'x'; 160];

// A continued line ends without LF; a literal keeps the spaces at its end.
const CONTINUED: [(&[&[u8]], &[u8]); 2] = [
    (&[b"DISP", b"LAY \"X\"."], b"|1 DISPLAY|2 \"X|2 ."),
    (
        &[
            b"DISPLAY \"ABC                                                 ",
            b"DEF\".",
        ],
        b"|1 DISPLAY|1 \"ABC                                                 DEF|2 .",
    ),
];

#[test]
fn reads_tokens(rt: HostRuntime) -> Result<(), Fail> {
    for (text, shown) in TOKENS {
        assert!(rt; are_read(rt.alloc(), &[text], shown)?, "at {text:?}");
    }
    for (parts, shown) in CONTINUED {
        assert!(rt; are_read(rt.alloc(), parts, shown)?, "at {shown:?}");
    }
    Ok(())
}

#[test]
fn tells_faults(rt: HostRuntime) -> Result<(), Fail> {
    for (text, fault) in FAULTS {
        assert_eq!(rt; fault_of(rt.alloc(), &[text])?, Some(fault), "at {text:?}");
    }
    let parts: [&[u8]; 2] = [b"A DISP", b"LAY-"];
    assert_eq!(rt; fault_of(rt.alloc(), &parts)?, Some(LexFault::BadWord(1)));
    Ok(())
}

#[test]
fn measures_literals(rt: HostRuntime) -> Result<(), Fail> {
    let mut shown = [b'x'; 164];
    shown[0] = b'|';
    shown[1] = b'1';
    shown[2] = b' ';
    shown[3] = b'"';
    let most: [&[u8]; 3] = [b"'", &MOST, b"'"];
    assert!(rt; are_read(rt.alloc(), &most, &shown)?);
    let longer: [&[u8]; 3] = [b"'", &MOST, b"x'"];
    assert_eq!(rt; fault_of(rt.alloc(), &longer)?, Some(LexFault::BadWord(1)));
    Ok(())
}
