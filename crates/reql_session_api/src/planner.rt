// The calls by which a session reads bodies and follows plans.
ghost use Rattle.std.specs.Prelude.{◌≡◌, IfOk, []};
ghost use Rattle.reql_session_api.specs.Meant.{Course, asked_of, found_of, heard_with, move_of, next_of};

use crate::moves::{Found, Move};
use crate::query::Query;
use reql_memory::Memory;
use reql_session_spec::Planning;
use reql_table_spec::Limits;
use reql_term::TableView;
use std::alloc::Global;

/// What a session asks of planning, by calls.
pub trait Planner: Planning {
    /// What is looked at.
    type View: TableView;

    /// A request on its way.
    type Course;

    ghost state: { Self.Course → Course Self.Plan };

    /// The key that a greeting must bring.
    fn key(&self) -> &[u8]
        ensures { result.now ≡ (Self.talk self.now).key };

    /// The password of a login.
    fn password(&self) -> &[u8]
        ensures { result.now ≡ (Self.talk self.now).password };

    fn limits(&self) -> &Limits
        ensures { result.now ≡ (Self.talk self.now).limits };

    /// Reads a body.
    fn read(&self, alloc: Global, body: &[u8]) -> Result<Query<Self::Plan>, Memory>
        ensures { IfOk result (λ query. asked_of query ≡ (Self.talk self.now).asked body.now) };

    /// How many items its answers hold at most.
    fn batch(&self, plan: &Self::Plan) -> u32
        ensures { result ≡ (Self.talk self.now).batch plan.now };

    /// A request begins, where so many cursors and feeds are open. It takes no memory.
    fn begin(&self, alloc: Global, plan: Self::Plan, noreply: bool, opened: u32) -> Self::Course
        ensures { state result ≡ record {
          plan = plan;
          noreply = noreply;
          count = opened;
          found = [];
        } };

    /// The next move of a request that has found nothing yet. After an `Err` the course is at no move.
    fn first(&self, course: &mut Self::Course) -> Result<Move, Memory>
        ensures same { state course.new ≡ state course.old }
        ensures goes { IfOk result (λ move. move_of move ≡ next_of (Self.talk self.now) (state course.old)) };

    /// The next move, after the last one found this. After an `Err` the course is at no move.
    fn next(&self, course: &mut Self::Course, found: Found<Self::View>) -> Result<Move, Memory>
        ensures heard { state course.new ≡ heard_with (found_of Self.View.documents Self.View.indexes found)
            (state course.old) }
        ensures goes { IfOk result (λ move. move_of move ≡ next_of (Self.talk self.now)
            (state course.new)) };
}
