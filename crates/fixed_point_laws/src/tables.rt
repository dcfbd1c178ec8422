//! The table of cells gives how many arms their choices have.

ghost use Rattle.fixed_point_laws.specs.Tables.{TablesTellArms};

/// The largest number of a cell by which closed graphs choose is the number of its arms.
pub fn tables_tell_arms()
    ensures { TablesTellArms }
{}
