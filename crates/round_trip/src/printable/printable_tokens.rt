//! The tokens of each source can be printed: its words are words in capitals, its digits are 1 to
//! 18, its literals have 1 to 160 bytes and no control characters, and no picture begins with a
//! separator. Nothing here runs.

ghost use Rattle.round_trip.specs.printable.printable_tokens.Laws.{TokensArePrintable};

/// What the tokens of a source hold can be printed again.
pub fn tokens_are_printable()
    ensures { TokensArePrintable }
{}
