//! What holds of every program text. These functions do nothing; their contracts are laws.

ghost use Rattle.ref_format.specs.Laws.{LinesRise, PlainLinesAreRead, RowsAreRead, TextStandsOnKeptLines};

/// Each byte of the program text is on a kept line.
pub fn text_stands_on_kept_lines()
    ensures { TextStandsOnKeptLines }
{}

/// The line numbers of the program text never decrease.
pub fn lines_rise()
    ensures { LinesRise }
{}

/// Lines without continuation, comment and tab, all in columns 8 to 72, are the program text,
/// filled to column 72.
pub fn plain_lines_are_read()
    ensures { PlainLinesAreRead }
{}

/// Lines that are written are read as the text that they stand for, also where literals continue
/// over several lines.
pub fn rows_are_read()
    ensures { RowsAreRead }
{}
