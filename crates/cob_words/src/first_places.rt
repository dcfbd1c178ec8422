//! The first places of words in a list, by a table of the words.
//!
//! A `WordPlaces` is a list of words that is made once and searched often. `first` answers as a
//! search from the front would (`position`), in time that doesn't depend on the length of the list:
//! where a word is there twice, its first place counts.

mod places;

pub use crate::first_places::places::WordPlaces;
