//! What a source is restructured to keeps what is required of its bodies: each VARYING begins with
//! a statement of the kind that the source's begin with, and each choice by a cell has two arms.
//! Nothing here runs.

ghost use Rattle.round_trip.specs.fitting_statements.sound_bodies.Laws.{ProceduresAreSound, RulesKeepSoundness};

/// What the rules leave of a graph that is sound is sound.
pub fn rules_keep_soundness()
    ensures { RulesKeepSoundness }
{}

/// The procedures of a sound source are sound.
pub fn procedures_are_sound()
    ensures { ProceduresAreSound }
{}
