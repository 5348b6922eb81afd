// A kind of feed that meets the laws: one document, a number.
use crate::laws::Meaning;
use std::collections::LinkedList;

/// What a feed of the sample keeps of its request.
pub struct Kept {
    pub size: u64,
    pub squash: bool,
}

/// A table of one number, whose feeds tell its changes.
pub struct OneNumber;

impl Meaning for OneNumber {
    ghost use Rattle.reql_table_machine_spec.specs.Sample.{one_number, Good, May};

    type Docs = u64;

    type Indexes = u64;

    type Write = LinkedList<u64>;

    type IndexCmd = u64;

    type Request = Kept;

    type Summary = u64;

    type Change = u64;

    type Kept = Kept;

    type Item = u64;

    type Value = u64;

    ghost feeding = { one_number };

    ghost good = { Good };

    ghost may = { May };
}
