//! The numbers of cells.

ghost use Rattle.std.specs.Prelude.{◌≡◌, ◌+◌, length, IfOk, OnOk};
ghost use Rattle.control_flow_theory.specs.main_theorem.Numbering.{place_among};
ghost use Rattle.added_items.specs.counters.Counting.{Rises};

use cob_base::NoMemory;

/// The number, after all of these, of a cell that isn't there.
fn number_behind(cells: &[u32], cell: u32) -> Result<u32, NoMemory>
    ensures { IfOk result (λ number. number ≡ length cells.now + cell) }
{
    match u32::try_from(cells.len()) {
        Ok(count) => match count.checked_add(cell) {
            Some(number) => Ok(number),
            None => Err(NoMemory),
        },
        Err(_) => Err(NoMemory),
    }
}

/// The place of the cell among the counters, or a number after all of these. A number that needs
/// more than 32 bits is out of memory.
fn number_of(cells: &[u32], cell: u32) -> Result<u32, NoMemory>
    requires { Rises 0 cells.now }
    ensures { IfOk result (λ number. number ≡ place_among cells.now cell) }
{
    match cells.binary_search(&cell) {
        Ok(at) => match u32::try_from(at) {
            Ok(number) => Ok(number),
            Err(_) => Err(NoMemory),
        },
        Err(_) => number_behind(cells, cell),
    }
}

/// Gives the cell its number.
pub fn number_cell(cell: &mut u32, cells: &[u32]) -> Result<(), NoMemory>
    requires { Rises 0 cells.now }
    ensures { OnOk result (cell.new ≡ place_among cells.now cell.old) }
{
    *cell = number_of(cells, *cell)?;
    Ok(())
}
