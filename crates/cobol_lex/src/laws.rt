//! What holds of the tokens of every text. These functions do nothing; their contracts are laws.

ghost use Rattle.cobol_lex.specs.Laws.{LaidReadsBack, PictureReadsBack, TextReadsBack, TokenReadsBack};
ghost use Rattle.cobol_lex.specs.Laws.{TokenLinesRise, TokensCover};

/// The line numbers of the tokens never decrease, where those of the text don't.
pub fn token_lines_rise()
    ensures { TokenLinesRise }
{}

/// The text is the tokens, in order, with nothing but separators before each and after the last.
pub fn tokens_cover()
    ensures { TokensCover }
{}

/// A token in its own spelling is read back, whatever follows that doesn't run on with it; a number
/// with a sign or a period comes after a space, LF, `(`, `:`, `,` or `;`.
pub fn token_reads_back()
    ensures { TokenReadsBack }
{}

/// A picture that is written where one comes is read back, before a space, LF or the text's end, or
/// a period, comma or semicolon before one of these.
pub fn picture_reads_back()
    ensures { PictureReadsBack }
{}

/// Tokens that are written with single spaces between them are read back.
pub fn text_reads_back()
    ensures { TextReadsBack }
{}

/// A text of tokens in their own spelling, with any separators between them, has these tokens, with
/// the lines on which they begin.
pub fn laid_reads_back()
    ensures { LaidReadsBack }
{}
