//! Runs of plain programs, each for a number of steps.

use cob_base::NoMemory;
use cob_tree::{FlowFault, Program};
use cobol_read::read;
use meanings::plain::{Over, PlainState, begun, plain_step};
use std::alloc::Global;
use std::test::Fail;

/// What comes before the paragraphs of a program.
const HEAD: &str = "       IDENTIFICATION DIVISION.
       PROGRAM-ID. P.
       PROCEDURE DIVISION.
       ";

/// It falls through, and off its end.
const FALLING: &str = "A. DISPLAY \"A\" NO ADVANCING.
       B. DISPLAY \"B\" NO ADVANCING.
";

/// It performs a range of two paragraphs.
const PERFORMING: &str = "A. PERFORM B THRU C DISPLAY \"A\" NO ADVANCING STOP RUN.
       B. DISPLAY \"B\" NO ADVANCING.
       C. DISPLAY \"C\" NO ADVANCING.
";

/// It jumps out of a range.
const LEAVING: &str = "A. PERFORM B DISPLAY \"A\" NO ADVANCING STOP RUN.
       B. GO TO D.
       C. DISPLAY \"B\" NO ADVANCING.
       D. DISPLAY \"C\" NO ADVANCING CONTINUE GO TO E.
       E. DISPLAY \"D\" NO ADVANCING.
";

/// It jumps out of a range and back to its end.
const RETURNING: &str = "A. PERFORM B THRU C DISPLAY \"A\" NO ADVANCING STOP RUN.
       B. GO TO D.
       C. DISPLAY \"B\" NO ADVANCING.
       D. DISPLAY \"C\" NO ADVANCING GO TO C.
";

/// A pending range ends where the innermost one doesn't.
const OVERLAPPING: &str = "A. PERFORM B THRU C STOP RUN.
       B. PERFORM D.
       C. DISPLAY \"B\" NO ADVANCING.
       D. GO TO C.
";

/// A range is performed that ends where a pending one does.
const REENTERING: &str = "A. PERFORM B STOP RUN.
       B. PERFORM B.
";

/// It stops.
const STOPPING: &str = "A. DISPLAY \"A\" NO ADVANCING STOP RUN DISPLAY \"B\" NO ADVANCING.
";

fn state_after(alloc: Global, program: &Program, steps: u32) -> Result<PlainState, NoMemory> {
    let mut state = begun(alloc, program)?;
    for _ in 0..steps {
        plain_step(alloc, program, &mut state)?;
    }
    Ok(state)
}

// The state of the program of these bytes, which is in the language.
fn after(alloc: Global, bytes: &[u8], steps: u32) -> Result<PlainState, NoMemory> {
    match read(alloc, bytes) {
        Err(refusal) => {
            drop(refusal);
            Err(NoMemory)
        }
        Ok(program) => {
            let state = state_after(alloc, &program, steps);
            drop(program);
            state
        }
    }
}

/// The state of a run: `-` where it goes on, `S` where it stopped, or the fault with its paragraph.
fn standing(state: &PlainState) -> (u8, u32) {
    match state.over {
        None => (b'-', 0),
        Some(Over::Stopped) => (b'S', 0),
        Some(Over::Fault(FlowFault::Overlap(paragraph))) => (b'O', paragraph),
        Some(Over::Fault(FlowFault::Reentry(paragraph))) => (b'R', paragraph),
    }
}

// A program, steps, what is then displayed, the paragraph, how many returns are pending, and the state.
const RUNS: [(&str, u32, &str, u32, usize, (u8, u32)); 18] = [
    // it falls through, and stops after the last paragraph
    (FALLING, 2, "A", 0, 0, (b'-', 0)),
    (FALLING, 3, "A", 1, 0, (b'-', 0)),
    (FALLING, 6, "AB", 1, 0, (b'S', 0)),
    // a range of two paragraphs is performed, and left at its end
    (PERFORMING, 1, "", 1, 1, (b'-', 0)),
    (PERFORMING, 4, "B", 2, 1, (b'-', 0)),
    (PERFORMING, 7, "BC", 0, 0, (b'-', 0)),
    (PERFORMING, 9, "BCA", 0, 0, (b'S', 0)),
    // a jump out of the range keeps its return pending
    (LEAVING, 2, "", 3, 1, (b'-', 0)),
    (LEAVING, 8, "CD", 4, 1, (b'S', 0)),
    // which is taken at the range's end
    (RETURNING, 4, "C", 2, 1, (b'-', 0)),
    (RETURNING, 9, "CBA", 0, 0, (b'S', 0)),
    // a pending range ends where the innermost one doesn't
    (OVERLAPPING, 5, "B", 2, 2, (b'-', 0)),
    (OVERLAPPING, 6, "B", 2, 2, (b'O', 2)),
    // a range is performed that ends where a pending one does
    (REENTERING, 1, "", 1, 1, (b'-', 0)),
    (REENTERING, 2, "", 1, 1, (b'R', 1)),
    // what is over stays
    (REENTERING, 9, "", 1, 1, (b'R', 1)),
    (OVERLAPPING, 9, "B", 2, 2, (b'O', 2)),
    (STOPPING, 9, "A", 0, 0, (b'S', 0)),
];

#[test]
fn runs_as_said(rt: HostRuntime) -> Result<(), Fail> {
    for (text, steps, shown, paragraph, pending, over) in RUNS {
        let source = format!(in rt.alloc(); "{HEAD}{text}")?;
        let state = after(rt.alloc(), source.as_bytes(), steps)?;
        assert_eq!(rt; state.shown.as_slice(), shown.as_bytes());
        assert_eq!(rt;
            (state.paragraph, state.pending.len()),
            (paragraph, pending)
        );
        assert_eq!(rt; standing(&state), over);
    }
    Ok(())
}
