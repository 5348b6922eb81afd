// What the call of a row gives.
use crate::messages::message_call;
use crate::scram::scram_call;
use rows_reader::{Answers, Row};
use std::alloc::Global;

/// The calls of `reql_scram` and `reql_login`.
pub(crate) struct Calls;

impl Answers for Calls {
    fn answer(&self, alloc: Global, row: &Row<'_>) -> Option<String> {
        if let Some(told) = scram_call(alloc, row.call, row.arguments) {
            return Some(told);
        }
        message_call(alloc, row.call, row.arguments)
    }
}
