//! Laws of comparing runs.

ghost use Rattle.trace_compare.specs.Laws.{ComparedResultsNeverDiffer, EachTwoHaveAnAnswer, MoreStepsKeep, NoTwoHaveTwo, NoneDiffersFromItself, ResultsNeverDiffer, SmallRunsCompareAs, TheOtherWayRound};

/// Each two runs have one answer: they are the same with a count of events, or differ at one, or
/// neither.
pub fn two_runs_have_one_answer()
    ensures some { EachTwoHaveAnAnswer }
    ensures one { NoTwoHaveTwo }
{}

/// A run doesn't differ from itself.
pub fn no_run_differs_from_itself()
    ensures { NoneDiffersFromItself }
{}

/// Two runs have the same answer the other way round.
pub fn the_answer_is_the_same_the_other_way_round()
    ensures { TheOtherWayRound }
{}

/// Runs that are the same, or differ, are or do so after more steps too.
pub fn more_steps_keep_the_answer<Left>()
    ensures { MoreStepsKeep Left }
{}

/// A program that meets no fault of its flow, and a structured one that behaves as it does, differ at
/// no event, however many steps each makes; so `compare` never answers that they do, where both
/// benches have the same files.
pub fn results_never_differ()
    ensures runs { ResultsNeverDiffer }
    ensures compared { ComparedResultsNeverDiffer }
{}

/// Small runs: the same, one with another event, one that is longer, one that fails and one that
/// goes on.
pub fn small_runs_compare_as_said()
    ensures { SmallRunsCompareAs }
{}
