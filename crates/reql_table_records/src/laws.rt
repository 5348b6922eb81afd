// How writing and reading meet, as a clause of a function that does nothing.
ghost use Rattle.reql_table_records.specs.Laws.{ReadsBack};

/// Records that can be written in the format are read back from the body of their block, each the
/// same and in their order.
pub fn records_are_read_back()
    ensures { ReadsBack }
{}
