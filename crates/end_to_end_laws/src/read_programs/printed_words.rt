//! The words with which programs are printed: none of them is a word that this profile leaves out.
//! Nothing here runs.

ghost use Rattle.end_to_end_laws.specs.read_programs.printed_words.Laws.{NoPrintedWordIsLeftOut};

/// A program that can be printed is printed without words that are left out.
pub fn no_printed_word_is_left_out()
    ensures { NoPrintedWordIsLeftOut }
{}
