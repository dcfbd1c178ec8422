//! Words by number, and the ends of the lists.

use cob_base::Word;
use cob_words::{WordTable, left_out, reserved};
use std::test::Fail;

fn word(text: &[u8]) -> Result<Word, Fail> {
    Ok(Word::new(text).ok_or("no word")?)
}

#[test]
fn numbers_words(rt: HostRuntime) -> Result<(), Fail> {
    let mut table = WordTable::new(rt.alloc());
    assert_eq!(rt; table.add(word(b"total")?)?, 0);
    assert_eq!(rt; table.add(word(b"RATE")?)?, 1);
    assert_eq!(rt; table.add(word(b"TOTAL")?)?, 0);
    assert_eq!(rt; table.len(), 2);
    assert_eq!(rt; table.number_of(&word(b"Rate")?), Some(1));
    assert_eq!(rt; table.number_of(&word(b"MOVE")?), None);
    assert_eq!(rt; table.word_of(1).is_some(), true);
    assert_eq!(rt; table.word_of(2).is_some(), false);
    Ok(())
}

// A word, whether it is reserved, and whether it is left out.
const LISTED: [(&[u8], bool, bool); 12] = [
    (b"ACCESS", true, false),
    (b"move", true, false),
    (b"comp-3", true, false),
    (b"COMPUTATIONAL-3", true, false),
    (b"ACCEPT", false, true),
    (b"USE", false, true),
    (b"special-names", false, true),
    (b"SYNCHRONIZED", false, true),
    (b"ID", false, false),
    (b"X", false, false),
    (b"77", false, false),
    (b"CUSTOMER-NAME-OF-THE-LAST-YEAR", false, false),
];

#[test]
fn lists(rt: HostRuntime) -> Result<(), Fail> {
    for (text, is_reserved, is_left_out) in LISTED {
        let word = word(text)?;
        assert_eq!(rt;
            (reserved(&word), left_out(&word)),
            (is_reserved, is_left_out)
        );
    }
    Ok(())
}
