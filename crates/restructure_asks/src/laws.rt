//! What follows from how a call ends.

ghost use Rattle.restructure_asks.specs.Laws.{WordsAreOfTheirAsk, OneAnswerIsDue, DueAnswerComes, AcceptedSourceIsDone, FaultySourceIsRefused, RefusedForFlowIsFaulty, OneRunIsDue, DueRunComes, OneRunIsDueOnFiles, DueRunComesOnFiles, BenchIsLeft, UsageComes, GeneratedComes, TrialComes, OneComparisonIsDue, DueComparisonComes, ComparisonsTell, ResultComesAgain, WithinLimitAllIsRead};

use fixed_point_laws::results::results_are_fixed;

/// Each ask has words of its own: the same words are never two asks.
pub fn words_are_of_one_ask()
    ensures { WordsAreOfTheirAsk }
{}

/// At most one answer is due.
pub fn one_answer_is_due()
    ensures { OneAnswerIsDue }
{}

/// A source within the limit is read to its end.
pub fn source_is_read_to_its_end()
    ensures { WithinLimitAllIsRead }
{}

/// The due answer comes, unless a source or sink fails or memory runs out.
pub fn due_answer_comes()
    ensures due { DueAnswerComes }
    ensures accepted { AcceptedSourceIsDone }
    ensures faulty { FaultySourceIsRefused }
    ensures flow { RefusedForFlowIsFaulty }
    ensures usage { UsageComes }
    ensures generated { GeneratedComes }
    ensures tried { TrialComes }
{}

/// At most one end of a run is due, and it comes, unless a source, sink or device fails or memory
/// runs out.
pub fn due_run_comes()
    ensures one { OneRunIsDue }
    ensures due { DueRunComes }
    ensures one_on_files { OneRunIsDueOnFiles }
    ensures due_on_files { DueRunComesOnFiles }
{}

/// At most one answer is due to two programs that are compared, and it comes, unless a source, sink
/// or device fails or memory runs out; so what each status tells of them is true.
pub fn due_comparison_comes()
    ensures one { OneComparisonIsDue }
    ensures due { DueComparisonComes }
    ensures tells { ComparisonsTell }
{}

/// Whatever the status of a call to run, each device that failed is behind the bench and its count
/// of failures rose, the others are on the bench in their order, and the files that were open are
/// closed on them.
pub fn runs_leave_their_bench()
    ensures { BenchIsLeft }
{}

/// A result that was written, given as the source, is written again.
pub fn result_comes_again()
    ensures { ResultComesAgain }
{
    results_are_fixed();
}
