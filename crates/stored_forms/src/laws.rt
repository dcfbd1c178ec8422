//! What holds of both forms, for all values and all bytes.
//!
//! Each law is the contract of a function that does nothing.
ghost use Rattle.stored_forms.specs.Laws.{BinaryBytesAreOne, BinaryHasSize, BinaryReadsBack, BinaryReadsByRule, BinaryValuesApart, HoldsStored, HoldsStoredSize, PackedBytesAreOne, PackedHasHalves, PackedHasSize, PackedReadsBack, PackedReadsByRule, PackedValuesApart};

/// As many bytes are written as the item has, and those of a packed item consist of half bytes.
pub fn written_bytes_fit_the_item()
    ensures binary { BinaryHasSize }
    ensures packed { PackedHasSize }
    ensures halves { PackedHasHalves }
{}

/// A value that an item can hold is read back from the bytes that are written for it.
pub fn written_values_read_back()
    ensures binary { BinaryReadsBack }
    ensures packed { PackedReadsBack }
{}

/// Reading gives a value exactly where the bytes are those of the rule.
pub fn reading_is_the_rule()
    ensures binary { BinaryReadsByRule }
    ensures packed { PackedReadsByRule }
{}

/// No two values that an item can hold have the same bytes.
pub fn values_share_no_bytes()
    ensures binary { BinaryValuesApart }
    ensures packed { PackedValuesApart }
{}

/// A value is read from only one list of bytes, except for the signs of packed items.
pub fn values_have_one_spelling_but_signs()
    ensures binary { BinaryBytesAreOne }
    ensures packed { PackedBytesAreOne }
{}

/// What `store` of `cob_num` gives for a number of digits an item of that many digits can hold.
pub fn items_hold_what_is_stored()
    ensures signed { HoldsStored }
    ensures unsigned { HoldsStoredSize }
{}
