//! A failure of each call of the source and the sinks.

use crate::calls::{Case, PLAIN, check};
use crate::sources::*;
use restructure_asks::Status;
use std::test::Fail;

/// A sink that takes 40 bytes a call fails in one of them.
const CUT: Case = Case {
    piece: 40,
    status: Status::WriteFault,
    notes: "WRITE FAULT\n",
    ..PLAIN
};

/// A result goes to its sink, and a report to the notes.
const REPORTED: Case = Case {
    words: &["restructure", "--report"],
    piece: 10,
    status: Status::WriteFault,
    ..PLAIN
};

/// A run of at most 100 steps, of which nothing fails.
const RUN: Case = Case {
    words: &["run", "--steps", "100"],
    out: "ONE\nTHREE\n",
    ..PLAIN
};

/// The source fails.
const UNREAD: Case = Case {
    read_fails: 1,
    status: Status::ReadFault,
    out: "",
    notes: "READ FAULT\n",
    ..PLAIN
};

const FAILURES: [Case; 22] = [
    Case { piece: 1, ..PLAIN },
    Case {
        words: &["--help"],
        piece: 6,
        write_fails: 2,
        out: "usage:",
        ..CUT
    },
    UNREAD,
    // the call that is to answer the end
    Case {
        read_fails: 2,
        ..UNREAD
    },
    Case {
        read_fails: 3,
        ..PLAIN
    },
    Case {
        source: "",
        note_fails: 1,
        status: Status::NotSubset,
        out: "",
        ..PLAIN
    },
    Case {
        piece: 10,
        write_fails: 2,
        out: "       IDE",
        ..CUT
    },
    Case {
        write_fails: 1,
        out: "",
        ..CUT
    },
    Case {
        write_fails: 2,
        out: "       IDENTIFICATION DIVISION.
       P",
        ..CUT
    },
    Case {
        write_fails: 3,
        out: "       IDENTIFICATION DIVISION.
       PROGRAM-ID. HELLO.
       PROCEDURE DIVIS",
        ..CUT
    },
    Case {
        write_fails: 4,
        out: "       IDENTIFICATION DIVISION.
       PROGRAM-ID. HELLO.
       PROCEDURE DIVISION.
       A.
           DISPLAY \"ONE\"
",
        ..CUT
    },
    Case {
        write_fails: 5,
        out: "       IDENTIFICATION DIVISION.
       PROGRAM-ID. HELLO.
       PROCEDURE DIVISION.
       A.
           DISPLAY \"ONE\"
           DISPLAY \"THREE\"
           ST",
        ..CUT
    },
    // the call after the last one of a sink
    Case {
        piece: 40,
        write_fails: 6,
        ..PLAIN
    },
    Case {
        note_fails: 2,
        notes: "PROGRAM HE",
        ..REPORTED
    },
    Case {
        write_fails: 2,
        out: "       IDE",
        notes: "WRITE FAULT\n",
        ..REPORTED
    },
    // it isn't read
    Case {
        words: &["generate", "1"],
        read_fails: 1,
        out: GENERATED,
        ..PLAIN
    },
    Case {
        piece: 4,
        write_fails: 3,
        status: Status::WriteFault,
        out: "ONE\nTHRE",
        notes: "WRITE FAULT\n",
        ..RUN
    },
    // as many steps as it takes
    Case {
        words: &["run", "--steps", "6"],
        piece: 4,
        write_fails: 3,
        status: Status::WriteFault,
        out: "ONE\nTHRE",
        notes: "WRITE FAULT\n",
        ..RUN
    },
    Case {
        write_fails: 1,
        note_fails: 1,
        status: Status::WriteFault,
        out: "",
        ..RUN
    },
    Case {
        source: UNDIGITAL,
        note_fails: 1,
        status: Status::Abend,
        out: "A1\n",
        ..RUN
    },
    Case {
        words: &["run", "--steps", "100"],
        ..UNREAD
    },
    // there is no device
    Case {
        source: READING,
        status: Status::Abend,
        out: "",
        notes: "ABEND IO 30\n",
        ..RUN
    },
];

#[test]
fn each_failure_is_told(rt: HostRuntime) -> Result<(), Fail> {
    for case in &FAILURES {
        check(&rt, rt.alloc(), case)?;
    }
    Ok(())
}
