//! Trails of faults of flow: each that is found is accepted, and isn't without its last move.

use cob_base::Items;
use cob_tree::Program;
use overlap_trail::check;
use program_points::paths::{Hop, Trail};
use restructure_core::{Refused, restructure};
use std::alloc::Global;
use std::test::Fail;

/// What comes before the paragraphs of a program.
const HEAD: &str = "       IDENTIFICATION DIVISION.
       PROGRAM-ID. T.
       DATA DIVISION.
       WORKING-STORAGE SECTION.
       01 N PIC 9 VALUE 0.
       PROCEDURE DIVISION.
       ";

// The paragraphs of programs with a fault of flow.
const FAULTY: [&str; 6] = [
    "A. PERFORM A.",
    "M. PERFORM A. STOP RUN. A. PERFORM B 2 TIMES. B. PERFORM A.",
    "M. PERFORM A THRU C. STOP RUN. A. DISPLAY N. B. PERFORM D.
       C. DISPLAY N. D. GO TO C.",
    // over a range that returns, and through an arm of a choice
    "M. PERFORM A THRU B. STOP RUN. A. PERFORM C. IF N = 1 PERFORM D.
       B. EXIT. C. ADD 1 TO N. D. GO TO B.",
    // through a loop
    "M. PERFORM A THRU B. STOP RUN. A. PERFORM UNTIL N = 3 ADD 1 TO N
           IF N = 2 PERFORM C END-IF END-PERFORM. B. EXIT. C. GO TO B.",
    // through one label of several
    "M. PERFORM A THRU C. STOP RUN. A. EVALUATE N WHEN 1 PERFORM D
           END-EVALUATE. C. EXIT. D. GO TO A C DEPENDING ON N.",
];

// Removes the last move of the last level that has any.
fn shorten(hops: &mut [Hop]) {
    for hop in hops.iter_mut().rev() {
        if hop.moves.pop().is_some() {
            return;
        }
    }
}

// The trail without its last move.
fn shortened(trail: Trail) -> Trail {
    let Trail {
        fault,
        lemmas,
        hops,
    } = trail;
    let mut hops = hops.into_vec();
    shorten(&mut hops);
    Trail {
        fault,
        lemmas,
        hops: Items::from_vec(hops),
    }
}

// Whether a trail is accepted, and whether it is without its last move.
fn judged(program: Program, trail: Trail) -> (bool, bool) {
    let whole = check(&program, &trail);
    let trail = shortened(trail);
    let short = check(&program, &trail);
    drop(trail);
    drop(program);
    (whole, short)
}

// The same for the trail of a source; none where the source has none.
fn judged_source(alloc: Global, bytes: &[u8]) -> Option<(bool, bool)> {
    match restructure(alloc, bytes) {
        Err(Refused::Flow(program, trail)) => Some(judged(program, trail)),
        Err(Refused::NotSubset(refusal)) => {
            drop(refusal);
            None
        }
        Err(Refused::Limit(_)) => None,
        Err(Refused::NoMemory) => None,
        Ok(done) => {
            drop(done);
            None
        }
    }
}

#[test]
fn found_trails_are_accepted(rt: HostRuntime) -> Result<(), Fail> {
    let alloc = rt.alloc();
    for paragraphs in FAULTY {
        let source = format!(in alloc; "{HEAD}{paragraphs}\n")?;
        let judged = judged_source(alloc, source.as_bytes());
        assert_eq!(rt; judged, Some((true, false)), "at {paragraphs}");
    }
    Ok(())
}
