//! The two meanings of a structured program.

ghost use Rattle.structured_run_laws.specs.Agreement.{MeaningsAreTied, MeaningsShowAlike, MeaningsStopAlike};

/// Over all files the source meaning of a structured program and its nested meaning are tied:
/// within some number of times as many steps, which is chosen beforehand, each shows all that the
/// other shows, and is over with it, in the same way and with the same files left. So they stop
/// alike, and show alike where they never stop.
pub fn both_meanings_agree()
    ensures tied { MeaningsAreTied }
    ensures stop { MeaningsStopAlike }
    ensures show { MeaningsShowAlike }
{}
