//! What holds of results. The function does nothing; its contract is a law.

ghost use Rattle.restructure_core.specs.Results.{ResultsReadBack};

use end_to_end_laws::results::readable_results::split_programs_read_back;

/// The printed text of a result that passes no limit is read back as that result.
pub fn results_read_back()
    ensures { ResultsReadBack }
{
    split_programs_read_back();
}
