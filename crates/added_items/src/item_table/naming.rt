//! The names of added items.

ghost use Rattle.std.specs.Prelude.{◌≡◌, ◌++◌, ◌+◌, ◌<◌, ◌^◌, length, map, suc, IfOk, OnOk};
ghost use Rattle.std.specs.Fmt.{decimal};
ghost use Rattle.cob_base.specs.Answers.{Makes};
ghost use Rattle.out_names.specs.FreshWords.{fresh_number, fresh_word};
ghost use Rattle.branch_tree.specs.Graph.{seen_added};
ghost use Rattle.added_items.specs.item_table.Owners.{kind_in};
ghost use Rattle.added_items.specs.item_table.Naming.{stem_of, next_of, with_next, all_from_one, entry_named, entries_from, seen_item, item_kind};

use crate::item_table::assignment::kind_in;
use branch_tree::Added;
use cob_base::{Items, NoMemory, Word};
use cob_words::WordTable;
use out_names::{FreshWord, fresh};
use std::alloc::Global;

/// An added item.
#[derive(Clone, Copy)]
pub struct AddedItem {
    pub name: Word,
    pub kind: Added,
}

/// For each kind the number from which the next name is searched for.
#[derive(Clone, Copy)]
pub struct NextNumbers {
    pub never: u32,
    pub flag: u32,
    pub count: u32,
    pub state: u32,
    pub exit: u32,
}

fn all_from_one() -> NextNumbers
    ensures { result ≡ all_from_one }
{
    NextNumbers {
        never: 1,
        flag: 1,
        count: 1,
        state: 1,
        exit: 1,
    }
}

fn next_of(next: &NextNumbers, kind: Added) -> u32
    ensures { result ≡ next_of next.now (seen_added kind) }
{
    match kind {
        Added::Never => next.never,
        Added::Flag => next.flag,
        Added::Count => next.count,
        Added::State => next.state,
        Added::Exit => next.exit,
    }
}

fn go_on(next: &mut NextNumbers, kind: Added, number: u32)
    ensures { next.new ≡ with_next next.old (seen_added kind) number }
{
    match kind {
        Added::Never => next.never = number,
        Added::Flag => next.flag = number,
        Added::Count => next.count = number,
        Added::State => next.state = number,
        Added::Exit => next.exit = number,
    }
}

fn fresh_word(
    alloc: Global,
    words: &WordTable,
    kind: Added,
    from: u32,
) -> Result<FreshWord, NoMemory>
    requires { from + length words.now < 2 ^ 32 }
    ensures { Makes (fresh_word words.now (stem_of (seen_added kind)) from) result }
{
    match kind {
        Added::Never => fresh(alloc, words, b"RX-NEVER-", from),
        Added::Flag => fresh(alloc, words, b"RX-FLAG-", from),
        Added::Count => fresh(alloc, words, b"RX-COUNT-", from),
        Added::State => fresh(alloc, words, b"RX-STATE-", from),
        Added::Exit => fresh(alloc, words, b"RX-EXIT-", from),
    }
}

/// The next item of the kind.
fn next_item(
    alloc: Global,
    words: &WordTable,
    next: &mut NextNumbers,
    kind: Added,
) -> Result<AddedItem, NoMemory>
    ensures item { let number = fresh_number words.now (stem_of (seen_added kind))
        (next_of next.old (seen_added kind)) in
        IfOk result (λ item. seen_item item
        ≡ entry_named (stem_of (seen_added kind) ++ decimal number) (seen_added kind)) }
    ensures next { let number = fresh_number words.now (stem_of (seen_added kind))
        (next_of next.old (seen_added kind)) in
        OnOk result (next.new ≡ with_next next.old (seen_added kind) (suc number)) }
    ensures kind { IfOk result (λ item. item_kind item ≡ seen_added kind) }
{
    let from = next_of(next, kind);
    if from >= 1 << 31 {
        return Err(NoMemory);
    }
    if words.len() >= 1 << 31 {
        return Err(NoMemory);
    }
    let made = fresh_word(alloc, words, kind, from)?;
    go_on(next, kind, made.number + 1);
    Ok(AddedItem {
        name: made.word,
        kind,
    })
}

/// The items of the cells at these places. Err where memory or numbers run out.
pub fn items_at(
    alloc: Global,
    words: &WordTable,
    kinds: &[Added],
    held: &[u32],
) -> Result<Items<AddedItem>, NoMemory>
    ensures entries { IfOk result (λ items. map seen_item items
        ≡ entries_from words.now all_from_one (map (kind_in (map seen_added kinds.now)) held.now)) }
    ensures kinds { IfOk result (λ items. map item_kind items
        ≡ map (kind_in (map seen_added kinds.now)) held.now) }
{
    let mut items = Items::new(alloc);
    let mut next = all_from_one();
    for place in held {
        items.push(next_item(alloc, words, &mut next, kind_in(kinds, *place))?)?;
    }
    Ok(items)
}
