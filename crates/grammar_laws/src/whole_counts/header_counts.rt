//! The paragraphs that headers declare are those that the grammar reads: statements take no period
//! and don't begin with a name, so that what comes after a period is a header exactly where a
//! paragraph or section begins. Nothing here runs.

ghost use Rattle.grammar_laws.specs.whole_counts.header_counts.Laws.{HeadersCountTheParagraphs};

/// Where a PROCEDURE DIVISION is read, its headers declare as many paragraphs as it has, whatever
/// names there are.
pub fn headers_count_the_paragraphs()
    ensures { HeadersCountTheParagraphs }
{}
