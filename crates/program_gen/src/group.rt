//! Groups of four paragraphs.

ghost use Rattle.std.specs.Prelude.{◌≡◌, ◌≤◌, ◌++◌, OnOk};
ghost use Rattle.cob_base.specs.Answers.{Makes};
ghost use Rattle.program_gen.specs.Generated.{next_of, group_of, groups_of};

use crate::parts::{jumping, leaving};
use cob_base::{Items, NoMemory};
use cob_tree::Paragraph;
use std::alloc::Global;

/// The number after this one in the sequence.
fn next_of(x: u32) -> u32
    ensures { result ≡ next_of x }
{
    ((1103515245 * x as u64 + 12345) % 2147483648) as u32
}

/// Adds a group, and answers the last number that it used.
fn push_group(
    alloc: Global,
    paragraphs: &mut Items<Paragraph>,
    group: u32,
    x: u32,
) -> Result<u32, NoMemory>
    requires low { 1 ≤ group }
    requires high { group ≤ 1249 }
    ensures last { Makes (next_of (next_of (next_of x))) result }
    ensures added { OnOk result (paragraphs.new ≡ paragraphs.old ++ group_of group x) }
{
    let first = next_of(x);
    let second = next_of(first);
    let third = next_of(second);
    paragraphs.push(jumping(alloc, group, 1, first)?)?;
    paragraphs.push(jumping(alloc, group, 2, second)?)?;
    paragraphs.push(jumping(alloc, group, 3, third)?)?;
    paragraphs.push(leaving(alloc, group)?)?;
    Ok(third)
}

/// Adds so many groups, by the sequence that begins after their number.
pub fn push_groups(alloc: Global, paragraphs: &mut Items<Paragraph>, n: u32) -> Result<(), NoMemory>
    requires { n ≤ 1249 }
    ensures { OnOk result (paragraphs.new ≡ paragraphs.old ++ groups_of n 1 n) }
{
    let mut x = n;
    for group in 1..n + 1 {
        x = push_group(alloc, paragraphs, group, x)?;
    }
    Ok(())
}
