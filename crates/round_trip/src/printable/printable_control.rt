//! The control of what is written of a program that can be printed can be printed: each part of the
//! program may be written, what is written of such parts can be printed, and so can statements
//! whose control can. Nothing here runs.

ghost use Rattle.round_trip.specs.printable.printable_control.Laws.{ControlTellsPrinting, PrintableSourcesAreServed, WrittenSentencesPrint};

/// Each part of a program that can be printed may be written, where what can be printed may be.
pub fn printable_sources_are_served()
    ensures { PrintableSourcesAreServed }
{}

/// The sentence of a procedure can be printed, where its parts can.
pub fn written_sentences_print()
    ensures { WrittenSentencesPrint }
{}

/// Statements whose control can be printed can be printed.
pub fn control_tells_printing()
    ensures { ControlTellsPrinting }
{}
