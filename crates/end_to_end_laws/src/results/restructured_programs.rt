//! What a program is restructured to, whatever the limits on a result: its plan, the graphs of its
//! ranges, what all rules leave of these, and the program that is written of that. The limits on
//! labels and statements, and on nesting, are limits of the answer alone.
//!
//! `IsRestructuredTo` in `specs/results/restructured_programs/Result.antt` is to be compared with
//! docs/RESTRUCTURING.md. Nothing here runs.

ghost use Rattle.end_to_end_laws.specs.results.restructured_programs.Laws.{
  GraphsAreNumbered,
  GraphsAreThere,
  LimitsTellOfResults,
  ResultsAreAnswered,
  ResultsAreOne,
  ResultsAreStructured,
  ResultsBehaveAlike,
  SplitsAreRestructured,
};

/// Each program has a plan by the summary of its flow, and each range of it has its graph, however
/// large.
pub fn graphs_are_there()
    ensures { GraphsAreThere }
{}

/// Each graph of a program that is read has fewer than 999,999 nodes, which the numbers of a state
/// item can tell apart.
pub fn graphs_are_numbered()
    ensures { GraphsAreNumbered }
{}

/// What a program that is read is split into is what it is restructured to, within the limits on
/// labels and statements, and on nesting.
pub fn splits_are_restructured()
    ensures { SplitsAreRestructured }
{}

/// A program that is read is restructured to one program.
pub fn results_are_one()
    ensures { ResultsAreOne }
{}

/// A program that is refused for the size of its graphs is restructured to nothing within that
/// limit.
pub fn limits_tell_of_results()
    ensures { LimitsTellOfResults }
{}

/// Where the result is within the limits of splitting, what splitting answers is the result, unless
/// memory runs out.
pub fn results_are_answered()
    ensures { ResultsAreAnswered }
{}

/// What a program that is read is restructured to is structured and behaves as the program over all
/// files, however large its graphs are and however deep it nests.
pub fn results_behave_alike()
    ensures { ResultsBehaveAlike }
{}

/// It is a structured program of the tree: procedures with names, in no section, of one sentence
/// without a jump or an EXIT, each but the first performed from an earlier one, and STOP RUN last in
/// the first.
pub fn results_are_structured()
    ensures { ResultsAreStructured }
{}
