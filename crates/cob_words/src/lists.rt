//! The lists of reserved words.

ghost use Rattle.std.specs.Prelude.{◌≡◌, ◌<◌, map};
ghost use Rattle.std.specs.Str.{bytes_eq};
ghost use Rattle.cob_words.specs.Lists.{reserved_words, left_out_words, is_listed, row_of, of_row};

use cob_base::Word;

/// The reserved words, in the rows that `row_of` gives them.
const RESERVED: [&[&str]; 64] = [
    &["END-WRITE", "QUOTE"],
    &["END-DIVIDE", "QUOTES", "WHEN", "WITH"],
    &[
        "END-COMPUTE",
        "END-PERFORM",
        "END-REWRITE",
        "ENVIRONMENT",
        "WRITE",
    ],
    &["END-EVALUATE", "END-MULTIPLY", "END-SUBTRACT"],
    &["FD"],
    &[],
    &["FILE", "FROM"],
    &["FALSE"],
    &["FILLER", "LESS"],
    &["LABEL", "RUN"],
    &["READ"],
    &["LEADING"],
    &["RECORD", "WORKING-STORAGE"],
    &["AT", "LOW-VALUE", "RECORDS", "REWRITE", "ROUNDED"],
    &["ADD", "AND", "ANY", "ARE", "FILE-CONTROL", "LOW-VALUES"],
    &["GO", "REDEFINES"],
    &["AFTER"],
    &["ACCESS", "ASSIGN"],
    &[],
    &["GIVING", "MODE", "MOVE"],
    &["ADVANCING", "GREATER", "SET"],
    &["ALPHABETIC", "SIGN", "SIZE", "STOP"],
    &["SPACE"],
    &["MULTIPLY", "SELECT", "SPACES", "STATUS"],
    &["BY", "SECTION"],
    &["SENTENCE", "SEPARATE", "STANDARD", "SUBTRACT"],
    &[],
    &["BLOCK", "SEQUENTIAL"],
    &["BEFORE", "BINARY", "NO"],
    &["NOT"],
    &["NEXT", "TO"],
    &[],
    &["SOURCE-COMPUTER", "TEST", "THAN", "THEN", "THRU", "TRUE"],
    &["NUMERIC", "TIMES"],
    &["HIGH-VALUE", "NEGATIVE", "ZERO"],
    &["HIGH-VALUES", "THROUGH", "ZEROS"],
    &["TRAILING", "ZEROES"],
    &["COMP", "IF", "IN", "IS"],
    &["CLOSE", "I-O"],
    &["COMP-3", "INTO", "OF", "ON", "OR"],
    &["COMPUTE", "INPUT"],
    &["CONTAINS", "CONTINUE", "OPEN"],
    &["CHARACTER", "OTHER"],
    &["CHARACTERS", "OCCURS", "OUTPUT"],
    &["OMITTED", "UNTIL", "USAGE"],
    &[],
    &["COMPUTATIONAL", "CONFIGURATION"],
    &["INPUT-OUTPUT"],
    &["COMPUTATIONAL-3", "DATA"],
    &["IDENTIFICATION", "ORGANIZATION"],
    &["DIVIDE"],
    &["DISPLAY", "PIC"],
    &["DIVISION", "OBJECT-COMPUTER"],
    &["DEPENDING"],
    &[],
    &["PERFORM", "PICTURE", "PROGRAM", "VALUE"],
    &["POSITIVE", "VALUES"],
    &["PROCEDURE", "VARYING"],
    &["END", "PROGRAM-ID"],
    &["ELSE", "EXIT"],
    &["EQUAL", "ERROR"],
    &["END-IF", "EXTEND"],
    &["END-ADD", "PACKED-DECIMAL"],
    &["END-READ", "EVALUATE"],
];

/// The words of what this profile leaves out, in the same way.
const LEFT_OUT: [&[&str]; 64] = [
    &[],
    &[],
    &[],
    &[],
    &[],
    &[],
    &[],
    &[],
    &[],
    &[],
    &["LINAGE"],
    &["LINKAGE"],
    &["REPORT", "RETURN"],
    &["RECEIVE", "RELEASE", "RENAMES", "REPLACE"],
    &["ALL", "RELATIVE"],
    &["ALSO", "REMAINDER"],
    &["ALTER"],
    &["ACCEPT"],
    &[],
    &["GLOBAL", "GOBACK"],
    &["MERGE"],
    &["GENERATE", "SEND", "SORT", "SYNC"],
    &["START"],
    &["SEARCH", "STRING"],
    &[],
    &[],
    &[],
    &["BLANK"],
    &[],
    &["SYNCHRONIZED"],
    &["SPECIAL-NAMES"],
    &[],
    &[],
    &[],
    &[],
    &[],
    &[],
    &["CALL", "COPY", "CORR", "TERMINATE"],
    &[],
    &["CANCEL"],
    &["INDEX"],
    &[],
    &["INDEXED", "INSPECT", "INVALID", "USE"],
    &["INITIATE", "UPON"],
    &[],
    &["INITIALIZE", "OPTIONAL"],
    &["COMMUNICATION", "CORRESPONDING", "I-O-CONTROL"],
    &["UNSTRING"],
    &[],
    &[],
    &["DELETE", "JUST"],
    &["DISABLE"],
    &[],
    &["DEBUGGING"],
    &[],
    &["JUSTIFIED"],
    &["DECLARATIVES"],
    &["DECIMAL-POINT"],
    &[],
    &[],
    &["ENTER"],
    &["ENABLE"],
    &[],
    &["EXTERNAL"],
];

/// Whether the word is reserved (ISO 1989:1985, reserved words) and of the language that is read.
/// The words that are left out are reserved too: a user's word is neither this nor `left_out`.
pub fn reserved(word: &Word) -> bool
    ensures { result ≡ is_listed reserved_words word.now }
{
    let bytes = word.as_slice();
    is_in_row(reserved_row(row_of(bytes)), bytes)
}

/// Whether the word is reserved for something that this profile leaves out.
pub fn left_out(word: &Word) -> bool
    ensures { result ≡ is_listed left_out_words word.now }
{
    let bytes = word.as_slice();
    is_in_row(left_out_row(row_of(bytes)), bytes)
}

/// The row in which a word is looked for: few words of a list share one.
fn row_of(bytes: &[u8]) -> usize
    ensures value { result ≡ row_of bytes.now }
    ensures within { result < 64 }
{
    match bytes {
        [] => 0,
        [first, ..] => (*first as usize * 11 + bytes.len() % 64) % 64,
    }
}

fn reserved_row(row: usize) -> &'static [&'static str]
    requires { row < 64 }
    ensures { map (λ w. w.now) result.now ≡ of_row row reserved_words }
{
    RESERVED[row]
}

fn left_out_row(row: usize) -> &'static [&'static str]
    requires { row < 64 }
    ensures { map (λ w. w.now) result.now ≡ of_row row left_out_words }
{
    LEFT_OUT[row]
}

fn is_in_row(row: &[&str], word: &[u8]) -> bool
    ensures { result ≡ is_listed (map (λ w. w.now) row.now) word.now }
{
    for w in row {
        if is_same(word, w.as_bytes()) {
            return true;
        }
    }
    false
}

/// Whether the words are the same. Most differ in their first byte.
fn is_same(one: &[u8], other: &[u8]) -> bool
    ensures { result ≡ bytes_eq one.now other.now }
{
    match (one, other) {
        ([first, ..], [begin, ..]) if *first != *begin => false,
        _ => one == other,
    }
}
