//! What holds of all that is printed. These functions do nothing; their contracts are laws.

ghost use Rattle.cobol_print.specs.Laws.{HeadsBeginNoEntry, PrintedReadsBack, PrintsAll, ProgramsUnfold};

use cobol_lex::laid_reads_back;
use ref_format::rows_are_read;

/// What is printed unfolds without a fault to a text whose tokens are the units' own, each on the
/// line on which it was printed, also where literals are cut over several lines.
pub fn printed_reads_back()
    ensures { PrintedReadsBack }
{
    rows_are_read();
    laid_reads_back();
}

/// The first lines of a program begin no comment entry, so that what is printed can be read.
pub fn heads_begin_no_entry()
    ensures { HeadsBeginNoEntry }
{}

/// The printed tokens are the units' tokens, all of them and in order.
pub fn prints_all()
    ensures { PrintsAll }
{}

/// What is printed of a program unfolds without a fault to a text with the tokens of its units,
/// where a text can have the program's names, numbers and literals.
pub fn programs_unfold()
    ensures { ProgramsUnfold }
{
    rows_are_read();
    laid_reads_back();
}
