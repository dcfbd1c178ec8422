//! Lists of numbers in ascending order.

ghost use Rattle.std.specs.Prelude.{◌≡◌, ◌++◌, ◌∷◌, [], true, false, IfOk, OnOk};
ghost use Rattle.pending_returns.specs.Tabled.{Lists, Orders, StandOnce};

use cob_base::{Items, NoMemory};
use std::alloc::Global;

/// This number as a `u32`; out of memory where it needs more bits.
pub fn number_of(at: usize) -> Result<u32, NoMemory>
    ensures { IfOk result (λ number. number ≡ at) }
{
    match u32::try_from(at) {
        Ok(number) => Ok(number),
        Err(_) => Err(NoMemory),
    }
}

/// Adds a number where its flag is on.
fn add_if(numbers: &mut Items<u32>, flag: bool, at: usize) -> Result<(), NoMemory>
    ensures on { flag ≡ true → OnOk result (numbers.new ≡ numbers.old ++ at ∷ []) }
    ensures off { flag ≡ false → numbers.new ≡ numbers.old }
{
    if !flag {
        return Ok(());
    }
    let number = number_of(at)?;
    numbers.push(number)
}

/// The numbers of the flags that are on, in ascending order.
pub fn lists(alloc: Global, flags: &[bool]) -> Result<Items<u32>, NoMemory>
    ensures { IfOk result (λ numbers. Lists flags.now numbers) }
{
    let mut numbers = Items::new(alloc);
    for at in 0..flags.len() {
        add_if(&mut numbers, flags[at], at)?;
    }
    Ok(numbers)
}

/// These numbers, in ascending order.
pub fn rising(alloc: Global, numbers: &[u32]) -> Result<Items<u32>, NoMemory>
    requires once { StandOnce numbers.now }
    ensures { IfOk result (λ sorted. Orders numbers.now sorted) }
{
    let mut sorted = Vec::from_slice(alloc, numbers)?;
    sorted.sort_unstable();
    Ok(Items::from_vec(sorted))
}
