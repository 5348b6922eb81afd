// The test of each term of a feed, by its row.
ghost use Rattle.reql_plan_spec.specs.Feeding.{row_test};

use crate::counts::limit_test;
use crate::keys::{between_test, get_test, keys_test};
use reql_datum::Fault;
use reql_plan_context::Test;
use reql_term::{Op, TermFields, Terms};
use std::alloc::Global;

/// The test of each term of a feed.
#[derive(Drop)]
pub(crate) struct RowTest;

impl Test for RowTest {
    ghost test = { λ s. row_test };

    fn check(&self, alloc: Global, op: Op, args: &Terms, opts: &TermFields) -> Result<(), Fault> {
        match op {
            Op::Get => get_test(alloc, args.as_slice()),
            Op::GetAll => keys_test(alloc, args.as_slice(), opts),
            Op::Between => between_test(alloc, args.as_slice(), opts),
            Op::Limit => limit_test(alloc, args.as_slice()),
            _ => Ok(()),
        }
    }
}
