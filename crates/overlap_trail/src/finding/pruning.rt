//! A trail without the lemmas that its hops don't need.

ghost use Rattle.std.specs.Prelude.{◌≡◌, ◌<◌, ◌≤◌, ℕ, Bool, true, length, slice_get, Some, IfOk, OnOk};
ghost use Rattle.control_flow_theory.specs.language.Language.{Chooser, Program};
ghost use Rattle.overlap_trail.specs.finding.Finding.{IsFound};
ghost use Rattle.overlap_trail.specs.finding.Pruning.{Flags, FlagsOver, Adds, FlagHops, FlagLemmas, renamed, renumber, KeepsOne, Keeps, Renumbers};

use cob_base::{Items, NoMemory};
use pending_returns::number_of;
use program_points::paths::{Hop, Lemma, Move, Trail};
use std::alloc::Global;

/// Flags the lemma, where its number is below this one.
fn flag(needed: &mut Vec<bool>, lemma: u32, until: usize)
    requires { until ≤ length needed.old.items }
    ensures adds { Adds until needed.old.items needed.new.items }
    ensures on { lemma < until → slice_get needed.new.items lemma ≡ Some true }
{
    if (lemma as usize) < until {
        needed[lemma as usize] = true;
    }
}

/// Flags the lemma by which the move steps over a range, where its number is below this one.
fn flag_over(needed: &mut Vec<bool>, moved: Move, until: usize)
    requires { until ≤ length needed.old.items }
    ensures adds { Adds until needed.old.items needed.new.items }
    ensures on { FlagsOver needed.new.items until moved }
{
    match moved {
        Move::Over(lemma) => flag(needed, lemma, until),
        Move::Arm(_) => {}
        Move::Into => {}
    }
}

/// Flags the lemmas with numbers below this one by which the moves step over ranges.
fn need(needed: &mut Vec<bool>, moves: &[Move], until: usize)
    requires { until ≤ length needed.old.items }
    ensures adds { Adds until needed.old.items needed.new.items }
    ensures flags { Flags needed.new.items until moves.now }
{
    for number in 0..moves.len() {
        flag_over(needed, moves[number], until);
    }
}

/// Flags the lemmas that the hops need.
fn need_of_hops(needed: &mut Vec<bool>, hops: &[Hop])
    ensures size { length needed.new.items ≡ length needed.old.items }
    ensures flags { FlagHops needed.new.items (length needed.old.items) hops.now }
{
    let count = needed.len();
    for number in 0..hops.len() {
        need(needed, hops[number].moves.as_slice(), count);
    }
}

/// Flags the lemmas that this one needs, where it has a flag itself.
fn need_of(needed: &mut Vec<bool>, lemma: &Lemma, number: usize)
    requires { number < length needed.old.items }
    ensures adds { Adds number needed.old.items needed.new.items }
    ensures flags { slice_get needed.old.items number ≡ Some true →
        Flags needed.new.items number lemma.now.moves }
{
    if needed[number] {
        need(needed, lemma.moves.as_slice(), number);
    }
}

/// Flags the lemmas that those with flags need.
fn need_of_lemmas(needed: &mut Vec<bool>, lemmas: &[Lemma])
    requires { length lemmas.now ≡ length needed.old.items }
    ensures size { length needed.new.items ≡ length needed.old.items }
    ensures kept { (at : ℕ) → slice_get needed.old.items at ≡ Some true →
        slice_get needed.new.items at ≡ Some true }
    ensures flags { FlagLemmas needed.new.items lemmas.now }
{
    for number in (0..lemmas.len()).rev() {
        need_of(needed, &lemmas[number], number);
    }
}

/// A flag for each lemma that the hops need, or that a flagged lemma needs.
fn needed_of(alloc: Global, lemmas: &[Lemma], hops: &[Hop]) -> Result<Vec<bool>, NoMemory>
    ensures hops { IfOk result
        (λ needed. FlagHops needed.items (length lemmas.now) hops.now) }
    ensures lemmas { IfOk result (λ needed. FlagLemmas needed.items lemmas.now) }
    ensures size { IfOk result (λ needed. length needed.items ≡ length lemmas.now) }
{
    let mut needed = vec![in alloc; false; lemmas.len()]?;
    need_of_hops(&mut needed, hops);
    need_of_lemmas(&mut needed, lemmas);
    Ok(needed)
}

/// The move, with the new number of its lemma.
fn renamed(ranks: &[Option<u32>], moved: Move) -> Move
    ensures { result ≡ renamed ranks.now moved }
{
    match moved {
        Move::Over(lemma) => match ranks.get(lemma as usize) {
            Some(rank) => match *rank {
                Some(rank) => Move::Over(rank),
                None => Move::Over(lemma),
            },
            None => Move::Over(lemma),
        },
        Move::Arm(number) => Move::Arm(number),
        Move::Into => Move::Into,
    }
}

/// The moves, with the new numbers of the lemmas.
fn renumbered(alloc: Global, ranks: &[Option<u32>], moves: &[Move]) -> Result<Items<Move>, NoMemory>
    ensures { IfOk result (λ made. made ≡ renumber ranks.now moves.now) }
{
    let mut made = Items::new(alloc);
    for number in 0..moves.len() {
        made.push(renamed(ranks, moves[number]))?;
    }
    Ok(made)
}

/// The lemmas that are kept, and for each old lemma its number among them.
#[derive(Debug, Drop)]
struct Kept {
    lemmas: Items<Lemma>,
    ranks: Vec<Option<u32>>,
}

impl Kept {
    /// Keeps the lemma, where it has a flag, with the new numbers of the lemmas that it needs.
    fn keep(&mut self, alloc: Global, lemma: &Lemma, needed: bool) -> Result<(), NoMemory>
        ensures { OnOk result (KeepsOne lemma.now needed self.old.lemmas self.old.ranks.items
            self.new.lemmas self.new.ranks.items) }
    {
        if !needed {
            self.ranks.push(None)?;
            return Ok(());
        }
        let moves = renumbered(alloc, self.ranks.as_slice(), lemma.moves.as_slice())?;
        let rank = number_of(self.lemmas.len())?;
        let range = lemma.range;
        self.lemmas.push(Lemma { range, moves })?;
        self.ranks.push(Some(rank))?;
        Ok(())
    }
}

/// The lemmas that have flags.
fn kept_of(alloc: Global, lemmas: &[Lemma], needed: &[bool]) -> Result<Kept, NoMemory>
    requires size { length needed.now ≡ length lemmas.now }
    requires flags { FlagLemmas needed.now lemmas.now }
    ensures { IfOk result (λ kept. Keeps lemmas.now needed.now kept.lemmas kept.ranks.items) }
{
    let mut kept = Kept {
        lemmas: Items::new(alloc),
        ranks: Vec::new(alloc),
    };
    for number in 0..lemmas.len() {
        kept.keep(alloc, &lemmas[number], needed[number])?;
    }
    Ok(kept)
}

/// The hops, with the new numbers of the lemmas.
fn hops_by(alloc: Global, ranks: &[Option<u32>], hops: &[Hop]) -> Result<Items<Hop>, NoMemory>
    ensures { IfOk result (λ made. Renumbers ranks.now hops.now made) }
{
    let mut made = Items::new(alloc);
    for number in 0..hops.len() {
        let hop = &hops[number];
        let range = hop.range;
        let moves = renumbered(alloc, ranks, hop.moves.as_slice())?;
        made.push(Hop { range, moves })?;
    }
    Ok(made)
}

/// The trail with only the lemmas that its hops need, or that one of these needs.
pub fn shortened(alloc: Global, trail: &Trail) -> Result<Trail, NoMemory>
    ensures { (never_first : Chooser → Bool) (program : Program) →
        IsFound never_first program trail.now →
        IfOk result (λ short. IsFound never_first program short) }
{
    let lemmas = trail.lemmas.as_slice();
    let hops = trail.hops.as_slice();
    let needed = needed_of(alloc, lemmas, hops)?;
    let Kept { lemmas, ranks } = kept_of(alloc, lemmas, needed.as_slice())?;
    let hops = hops_by(alloc, ranks.as_slice(), hops)?;
    Ok(Trail {
        fault: trail.fault,
        lemmas,
        hops,
    })
}
