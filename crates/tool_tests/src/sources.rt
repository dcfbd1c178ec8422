//! Sources, and what is written of them.

/// A program with a jump.
pub const HELLO: &str = "       IDENTIFICATION DIVISION.
       PROGRAM-ID. HELLO.
       PROCEDURE DIVISION.
       A.
           DISPLAY \"ONE\".
           GO TO C.
       B.
           DISPLAY \"TWO\".
       C.
           DISPLAY \"THREE\".
           STOP RUN.
";

/// What HELLO is restructured to.
pub const HELLO_RESULT: &str = "       IDENTIFICATION DIVISION.
       PROGRAM-ID. HELLO.
       PROCEDURE DIVISION.
       A.
           DISPLAY \"ONE\"
           DISPLAY \"THREE\"
           STOP RUN.
";

/// The generated program of 1.
pub const GENERATED: &str = "       IDENTIFICATION DIVISION.
       PROGRAM-ID. GEN-1.
       DATA DIVISION.
       WORKING-STORAGE SECTION.
       01 C PIC 9(6) VALUE 0.
       PROCEDURE DIVISION.
       M.
           PERFORM G-1-1 THRU G-1-4.
           DISPLAY C.
           STOP RUN.
       G-1-1.
           ADD 1 TO C.
           IF C < 10
               GO TO G-1-3
           END-IF.
       G-1-2.
           ADD 1 TO C.
           IF C < 10
               GO TO G-1-3
           END-IF.
       G-1-3.
           ADD 1 TO C.
           IF C < 10
               GO TO G-1-2
           END-IF.
       G-1-4.
           EXIT.
";

/// A program that reads a letter as a digit.
pub const UNDIGITAL: &str = "       IDENTIFICATION DIVISION.
       PROGRAM-ID. T.
       DATA DIVISION.
       WORKING-STORAGE SECTION.
       01 X PIC X(2) VALUE \"A1\".
       01 Y REDEFINES X PIC 9(2).
       PROCEDURE DIVISION.
       A. DISPLAY X. ADD 1 TO Y.
";

/// A program that opens a file.
pub const READING: &str = "       IDENTIFICATION DIVISION.
       PROGRAM-ID. T.
       ENVIRONMENT DIVISION.
       INPUT-OUTPUT SECTION.
       FILE-CONTROL.
           SELECT F ASSIGN TO \"IN.DAT\".
       DATA DIVISION.
       FILE SECTION.
       FD F.
       01 R PIC X(4).
       PROCEDURE DIVISION.
       A. OPEN INPUT F.
";
