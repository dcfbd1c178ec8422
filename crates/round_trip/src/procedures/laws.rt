//! The procedures that the paragraphs of a program declare. These functions do nothing; their
//! contracts are laws.

ghost use Rattle.round_trip.specs.procedures.Laws.{
  PrintedProceduresAreTold,
  PrintedHeadersAreOwn,
  PrintedLabelsAreOwn,
  ReadProceduresAreOwn,
  PrintableNamesAreTitles,
  NamedParagraphsAreOutlined,
};

/// The tokens with which paragraphs are printed declare the table that the paragraphs themselves
/// declare.
pub fn printed_procedures_are_told()
    ensures { PrintedProceduresAreTold }
{}

/// In the table that paragraphs declare the name of each header is found where the header is
/// printed.
pub fn printed_headers_are_own()
    ensures { PrintedHeadersAreOwn }
{}

/// In the table that paragraphs declare the labels of what a source names name the same.
pub fn printed_labels_are_own()
    ensures { PrintedLabelsAreOwn }
{}

/// The tokens of a source declare that table too, except for places, where no fault is noted; then
/// all names are different.
pub fn read_procedures_are_own()
    ensures { ReadProceduresAreOwn }
{}

/// The names of paragraphs that can be printed are names of headers.
pub fn printable_names_are_titles()
    ensures { PrintableNamesAreTitles }
{}

/// Paragraphs that all have names, and no sections, are distinguished by their headers.
pub fn named_paragraphs_are_outlined()
    ensures { NamedParagraphsAreOutlined }
{}
