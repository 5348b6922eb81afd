// Worked rows, computed on the definitions.
ghost use Rattle.reql_catalog.specs.Worked.{Rows};

/// Worked rows of the catalogue: what is made, dropped and refused, in the order of the checks.
pub fn worked_rows()
    ensures { Rows }
{}
