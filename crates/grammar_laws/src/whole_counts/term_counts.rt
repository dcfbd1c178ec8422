//! The limit of terms of one expression: the count only grows, and terms before an expression
//! change nothing else of what is read, up to the limit.
//!
//! `specs/whole_counts/term_counts/Count` is to be compared with the limits in docs/LANGUAGE.md.
//! Nothing here runs.

ghost use Rattle.grammar_laws.specs.whole_counts.term_counts.Count.{TermsOnlyAdd};

/// The count of terms only grows. With fewer terms before it, an expression is read the same and
/// stops in the same way; only where it stopped at the limit it may stop further on, or end with
/// terms that pass the limit. And where they don't pass it, more terms before it change nothing but
/// the count.
pub fn terms_only_add()
    ensures { TermsOnlyAdd }
{}
