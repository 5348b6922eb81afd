//! What a request asks on its way, what it hears, and what it is answered: the plan of its term, what
//! the reply to a command says, and the texts of refusals.
#![tactic(auto)]

mod moves;
mod planning;
mod replies;
mod texts;

pub use moves::{Answered, Ask, Found, Move};
pub use planning::plan;
pub use replies::{Kept, kept_by};
pub use reql_faults::CompileFault;
pub use reql_plan_results::{Arm, Item};
pub use reql_plan_spec::{Plan, Setting};
pub use texts::{db_there, index_there, no_db, no_table, table_there};
