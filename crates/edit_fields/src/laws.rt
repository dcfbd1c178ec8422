//! What holds of all masks and numbers. These functions do nothing; their contracts are laws.

ghost use Rattle.edit_fields.specs.Laws.{BeginningsGoOn, LightPensAreEnough, MasksAreWrittenOut, NegativesAreMarked, NumbersAreReadBack, OnlyNegativesAreMarked, PrintedMasksAreRead, PrintedMasksAreShort, SymbolsHaveBytes};

/// A number fills its field: each symbol but V has one byte.
pub fn symbols_have_bytes()
    ensures { SymbolsHaveBytes }
{}

/// What the code writes with a pen that knows no shape are the bytes of the definitions.
pub fn light_pens_are_enough()
    ensures { LightPensAreEnough }
{}

/// The digits of a field, read back, are the number that was put there.
pub fn numbers_are_read_back()
    ensures { NumbersAreReadBack }
{}

/// What isn't negative once it is cut shows no minus, CR or DB.
pub fn only_negatives_are_marked()
    ensures { OnlyNegativesAreMarked }
{}

/// What is negative once it is cut shows a minus, CR or DB, where the mask has a sign.
pub fn negatives_are_marked()
    ensures { NegativesAreMarked }
{}

/// Symbols that may follow each other can be continued to those of a mask, so a fault of order is
/// at the first byte up to which no mask begins.
pub fn beginnings_go_on()
    ensures { BeginningsGoOn }
{}

/// What a mask stands for, with its counts written out and in capitals, is a mask without faults.
pub fn masks_are_written_out()
    ensures { MasksAreWrittenOut }
{}

/// What is printed of a mask, each run of a symbol with its count, is read as that mask.
pub fn printed_masks_are_read()
    ensures { PrintedMasksAreRead }
{}

/// What is printed of a mask has at most 50 bytes.
pub fn printed_masks_are_short()
    ensures { PrintedMasksAreShort }
{}
