// Worked rows, computed on the definitions.
ghost use Rattle.reql_table_machine_spec.specs.Worked.{Rows};

/// Worked rows of feeds: queues, skips, drops, owners and limits.
pub fn worked_rows()
    ensures { Rows }
{}
