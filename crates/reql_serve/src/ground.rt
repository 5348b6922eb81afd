// What all seats of a thread share.
use reql_catalog::Catalogue;
use reql_hall::Hall;
use reql_session_api::Planner;
use reql_table_spec::TableEngine;
use std::alloc::Global;
use std::sync::Wait;

/// What all seats of a thread share: the hall at whose desks they are, which has so many slots, and what plans their requests.
#[derive(Drop)]
pub(crate) struct Ground<
    'a,
    R: Wait,
    C: TableEngine + Drop,
    P: Planner<View = <C as TableEngine>::View>,
> {
    pub(crate) rt: &'a R,
    pub(crate) alloc: Global,
    pub(crate) hall: &'a Hall<C, Catalogue>,
    pub(crate) slots: u32,
    pub(crate) planner: &'a P,
}
