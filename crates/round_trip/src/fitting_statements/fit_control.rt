//! The control of what is written of a program whose statements pass tests passes tests too: each
//! part of the program may be written, what is written of such parts passes, and so do statements
//! whose control does. Nothing here runs.

ghost use Rattle.round_trip.specs.fitting_statements.fit_control.Laws.{ControlTellsFit, FitSourcesAreServed, FitSourcesAreSound, WrittenSentencesFit};

/// Each part of a program whose statements fit may be written, where what passes may be.
pub fn fit_sources_are_served()
    ensures { FitSourcesAreServed }
{}

/// In a program whose statements fit VARYING begins with a number, and an EVALUATE has two arms.
pub fn fit_sources_are_sound()
    ensures { FitSourcesAreSound }
{}

/// The sentence of a procedure fits, where its parts do, and isn't empty.
pub fn written_sentences_fit()
    ensures { WrittenSentencesFit }
{}

/// Statements fit where their control does.
pub fn control_tells_fit()
    ensures { ControlTellsFit }
{}
