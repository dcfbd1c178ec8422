//! The order of procedures.

ghost use Rattle.std.specs.Prelude.{◌≡◌, ◌<◌, ◌^◌, length, IfOk, IfSome};
ghost use Rattle.cob_base.specs.Answers.{Makes};
ghost use Rattle.out_names.specs.Ordering.{AreMarked, AreWaiting, may_stand, first_ready, order_of};

use cob_base::{Items, NoMemory};
use std::alloc::Global;

/// Marks the ranges that are called.
fn mark(marks: &mut [bool], callees: &[u32])
    ensures { AreMarked marks.old callees.now marks.new }
{
    for callee in callees {
        if (*callee as usize) < marks.len() {
            marks[*callee as usize] = true;
        }
    }
}

/// Which ranges wait for a caller that isn't in the order yet.
fn waiting(alloc: Global, calls: &[Items<u32>], stands: &[bool]) -> Result<Vec<bool>, NoMemory>
    requires { length calls.now ≡ length stands.now }
    ensures size { IfOk result (λ marks. length marks.items ≡ length calls.now) }
    ensures value { IfOk result (λ marks. AreWaiting calls.now stands.now marks.items) }
{
    let mut marks = Vec::from_elem(alloc, false, calls.len())?;
    for (at, callees) in calls.iter().enumerate() {
        if !stands[at] {
            mark(&mut marks, callees.as_slice());
        }
    }
    Ok(marks)
}

/// Whether this range isn't in the order yet, and waits for no caller.
fn is_ready(stands: &[bool], waits: &[bool], at: usize) -> bool
    requires stands { at < length stands.now }
    requires waits { at < length waits.now }
    ensures { result ≡ may_stand stands.now waits.now at }
{
    !stands[at] && !waits[at]
}

/// The first range that isn't in the order yet and waits for no caller.
fn first_ready(
    alloc: Global,
    calls: &[Items<u32>],
    stands: &[bool],
) -> Result<Option<u32>, NoMemory>
    requires same { length calls.now ≡ length stands.now }
    requires few { length calls.now < 2 ^ 32 }
    ensures value { Makes (first_ready (length calls.now) calls.now stands.now 0) result }
    ensures within { IfOk result (λ next. IfSome next (λ number. number < length calls.now)) }
{
    let marks = waiting(alloc, calls, stands)?;
    for at in 0..calls.len() {
        let ready = is_ready(stands, marks.as_slice(), at);
        if ready {
            return Ok(Some(at as u32));
        }
    }
    Ok(None)
}

/// The order of ranges, by their numbers, where `calls` gives the numbers that each calls: the
/// first one first, then always the one with the lowest number whose callers are all in the order
/// already.
pub fn order(alloc: Global, calls: &[Items<u32>]) -> Result<Items<u32>, NoMemory>
    requires { length calls.now < 2 ^ 32 }
    ensures { Makes (order_of calls.now) result }
{
    let mut order = Items::new(alloc);
    let mut stands = Vec::from_elem(alloc, false, calls.len())?;
    let mut next = Some(0);
    for _ in 0..calls.len() {
        match next {
            None => return Ok(order),
            Some(number) => {
                order.push(number)?;
                stands[number as usize] = true;
                next = first_ready(alloc, calls, stands.as_slice())?;
            }
        }
    }
    Ok(order)
}
