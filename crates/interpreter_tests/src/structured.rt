//! Whether programs are structured: results are, and sources with jumps aren't.

use cobol_read::read;
use restructure_core::restructure;
use std::alloc::Global;
use std::test::Fail;
use struct_form::is_structured;

/// What comes before the paragraphs of a program.
const HEAD: &str = "       IDENTIFICATION DIVISION.
       PROGRAM-ID. T.
       DATA DIVISION.
       WORKING-STORAGE SECTION.
       01 N PIC 9 VALUE 0.
       PROCEDURE DIVISION.
       ";

// The paragraphs, and whether they are structured.
const SOURCES: [(&str, bool); 14] = [
    ("A. DISPLAY \"A\" STOP RUN.", true),
    (
        "A. PERFORM B PERFORM C STOP RUN. B. PERFORM C. C. ADD 1 TO N.",
        true,
    ),
    ("A. PERFORM B UNTIL N = 3 STOP RUN. B. ADD 1 TO N.", true),
    (
        "A. PERFORM UNTIL N = 3 ADD 1 TO N END-PERFORM STOP RUN.",
        true,
    ),
    // jumps
    ("A. GO TO C. B. DISPLAY \"B\". C. STOP RUN.", false),
    ("A. ADD 1 TO N. IF N < 3 GO TO A. STOP RUN.", false),
    (
        "A. PERFORM 3 TIMES EXIT PERFORM CYCLE END-PERFORM STOP RUN.",
        false,
    ),
    (
        "A. IF N = 1 NEXT SENTENCE ELSE ADD 1 TO N. STOP RUN.",
        false,
    ),
    // it falls through, or off its end
    ("A. DISPLAY \"A\". B. STOP RUN.", false),
    ("A. DISPLAY \"A\".", false),
    // what is performed is more than one later paragraph, or before it
    (
        "A. PERFORM B THRU C STOP RUN. B. ADD 1 TO N. C. ADD 1 TO N.",
        false,
    ),
    ("A. PERFORM C STOP RUN. B. ADD 1 TO N. C. PERFORM B.", false),
    // nothing performs it; and EXIT
    ("A. STOP RUN. B. ADD 1 TO N.", false),
    ("A. PERFORM B STOP RUN. B. EXIT.", false),
];

// Whether the program of these bytes is structured; none where they aren't a program.
fn structured(alloc: Global, bytes: &[u8]) -> Option<bool> {
    match read(alloc, bytes) {
        Err(refusal) => {
            drop(refusal);
            None
        }
        Ok(program) => {
            let is = is_structured(&program);
            drop(program);
            Some(is)
        }
    }
}

// Whether what a source is restructured to is structured.
fn structured_result(alloc: Global, bytes: &[u8]) -> Option<bool> {
    match restructure(alloc, bytes) {
        Err(refused) => {
            drop(refused);
            None
        }
        Ok(done) => {
            let is = structured(alloc, done.text.as_slice());
            drop(done);
            is
        }
    }
}

#[test]
fn results_are_structured(rt: HostRuntime) -> Result<(), Fail> {
    let alloc = rt.alloc();
    for (paragraphs, is) in SOURCES {
        let source = format!(in alloc; "{HEAD}{paragraphs}\n")?;
        let bytes = source.as_bytes();
        assert_eq!(rt; structured(alloc, bytes), Some(is), "at {paragraphs}");
        assert_eq!(rt;
            structured_result(alloc, bytes),
            Some(true),
            "at {paragraphs}"
        );
    }
    Ok(())
}
