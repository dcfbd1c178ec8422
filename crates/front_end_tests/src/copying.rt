//! Copies of programs: of one with every variant, and of a large one.

ghost use Rattle.std.specs.Prelude.{◌≤◌};

use cob_base::{Copied, NoMemory};
use cob_tree::Program;
use cobol_print::print;
use cobol_read::read;
use program_gen::generate;
use std::alloc::Global;
use std::test::Fail;

/// Each kind of entry, statement, operand and condition.
const EVERYTHING: &[u8] = br#"       IDENTIFICATION DIVISION.
       PROGRAM-ID. EVERYTHING.
       ENVIRONMENT DIVISION.
       INPUT-OUTPUT SECTION.
       FILE-CONTROL.
           SELECT LINES-IN ASSIGN TO "LINES.DAT"
               FILE STATUS IS CODE-NOW.
       DATA DIVISION.
       FILE SECTION.
       FD LINES-IN.
       01 LINE-IN PIC X(20).
       WORKING-STORAGE SECTION.
       01 CODE-NOW PIC XX.
       01 SUMS.
           05 AMOUNT PIC S9(4)V99 SIGN LEADING SEPARATE OCCURS 3.
           05 PLAIN PIC A(4).
           05 AGAIN REDEFINES PLAIN PIC X(4).
           05 SHOWN PIC $(3),$$9.99CR.
           05 COUNTED PIC S9(4) COMP.
           05 PACKED PIC 9(5) USAGE PACKED-DECIMAL.
       01 K PIC 9 VALUE 1.
           88 SMALL VALUE 1 2 THRU 4.
       PROCEDURE DIVISION.
       FIRST-PART SECTION.
       BEGIN.
           OPEN INPUT LINES-IN.
           READ LINES-IN AT END GO TO FINISHED
               NOT AT END DISPLAY LINE-IN.
           CLOSE LINES-IN OPEN EXTEND LINES-IN.
           MOVE SPACES TO LINE-IN WRITE LINE-IN.
           MOVE "AB" TO PLAIN AGAIN (2 : K).
           COMPUTE AMOUNT (K) ROUNDED = - K * (3 + 2) - 2 / 4
               ON SIZE ERROR NEXT SENTENCE.
           ADD 1 K GIVING AMOUNT OF SUMS (2).
           SUBTRACT 1 FROM K ON SIZE ERROR CONTINUE
               NOT ON SIZE ERROR ADD 1 TO K.
           MULTIPLY 2 BY AMOUNT (3).
           DIVIDE 2 INTO AMOUNT (3) ROUNDED.
           IF SMALL AND NOT AMOUNT (1) = 1 OR > 2 PERFORM LATER
           ELSE IF PLAIN NUMERIC OR K NOT POSITIVE GO TO LATER.
           EVALUATE K WHEN 1 THRU 2 CONTINUE WHEN OTHER
               DISPLAY "K" K WITH NO ADVANCING END-EVALUATE.
           PERFORM VARYING K FROM 1 BY 1 UNTIL K > 3
               EXIT PERFORM CYCLE END-PERFORM.
           PERFORM LATER THRU LAST-ONE 2 TIMES.
           GO TO LATER LAST-ONE DEPENDING ON K.
       LATER.
           SET SMALL TO TRUE.
           EXIT PARAGRAPH.
       LAST-ONE.
           EXIT.
       FINISHED.
           STOP RUN.
"#;

fn is_printed_alike(alloc: Global, copy: &Program, program: &Program) -> Result<bool, NoMemory> {
    let told = print(alloc, copy)?;
    let wanted = print(alloc, program)?;
    Ok(told.as_slice() == wanted.as_slice())
}

fn is_copied(alloc: Global, program: &Program) -> Result<bool, NoMemory> {
    match program.copy(alloc) {
        Err(error) => Err(error),
        Ok(copy) => {
            let alike = is_printed_alike(alloc, &copy, program);
            let counted = copy.places() == program.places() && copy.depth() == program.depth();
            drop(copy);
            Ok(alike? && counted)
        }
    }
}

#[test]
fn copies_a_program_with_every_variant(rt: HostRuntime) -> Result<(), Fail> {
    let program = read(rt.alloc(), EVERYTHING)?;
    let depth = program.depth();
    let copied = is_copied(rt.alloc(), &program);
    drop(program);
    assert_eq!(rt; depth, 2);
    assert!(rt; copied?);
    Ok(())
}

fn large_program(alloc: Global, groups: u32) -> Result<Program, NoMemory>
    requires low { 1 ≤ groups }
    requires high { groups ≤ 1249 }
{
    generate(alloc, groups)
}

#[test]
fn copies_a_large_program(rt: HostRuntime) -> Result<(), Fail> {
    let program = large_program(rt.alloc(), 1249)?;
    let places = program.places();
    let copied = is_copied(rt.alloc(), &program);
    drop(program);
    assert_eq!(rt; places, 28_732);
    assert!(rt; copied?);
    Ok(())
}
