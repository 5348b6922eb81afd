// What a session asks of planning.
ghost use Rattle.std.specs.Prelude.{◌≡◌, IfOk};
ghost use Rattle.reql_query_session_spec.specs.Told.{setting_of};

use crate::asking::asked;
use crate::course::QueryCourse;
use crate::moving::moved;
use reql_datum::Memory;
use reql_plan_spec::{Plan, Setting};
use reql_query_session_spec::QueryPlans;
use reql_session_api::{Found, Move, Planner, Query};
use reql_session_spec::Planning;
use reql_table_spec::{Limits, TableEngine};
use std::alloc::Global;
use std::marker::PhantomData;

/// What a session asks of planning where it plans ReQL, over tables of one engine.
#[derive(Drop)]
pub struct QueryPlanner<C> {
    plans: QueryPlans,
    engine: PhantomData<C>,
}

impl<C> QueryPlanner<C> {
    /// For sessions that want this key and keep these limits.
    pub fn new(plans: QueryPlans) -> QueryPlanner<C>
        ensures { result.plans ≡ plans }
    {
        QueryPlanner {
            plans,
            engine: PhantomData,
        }
    }
}

impl<C> Planning for QueryPlanner<C> {
    ghost use Rattle.reql_query_session_spec.specs.Told.{keys_by, talk, comes_by};
    ghost use Rattle.reql_query_session_spec.specs.Minding.{plans_are_told};

    type Plan = Plan;

    ghost talk = { λ p. talk (keys_by p.plans.key.items p.plans.password.items) p.plans.limits };

    ghost on = { λ p. comes_by p.plans.limits };

    ghost minds = { λ p. plans_are_told (keys_by p.plans.key.items p.plans.password.items) p.plans.limits };
}

impl<C: TableEngine> Planner for QueryPlanner<C>
where
    C::View: Drop,
{
    ghost use Rattle.reql_session_api.specs.Meant.{heard_with, found_of, move_of, next_of};
    ghost use Rattle.reql_query_session_spec.specs.Told.{keys_by, talk};
    ghost use Rattle.reql_planner.specs.State.{state_of};

    type View = C::View;

    type Course = QueryCourse<C::View>;

    ghost state = { λ c. state_of C.View.documents C.View.indexes c.plan.value c.setting c.seen.items };

    fn key(&self) -> &[u8] {
        self.plans.key.as_slice()
    }

    fn password(&self) -> &[u8] {
        self.plans.password.as_slice()
    }

    fn limits(&self) -> &Limits {
        &self.plans.limits
    }

    fn read(&self, alloc: Global, body: &[u8]) -> Result<Query<Plan>, Memory> {
        asked(alloc, body)
    }

    fn batch(&self, plan: &Plan) -> u32 {
        plan.batch
    }

    fn begin(&self, alloc: Global, plan: Plan, noreply: bool, opened: u32) -> QueryCourse<C::View> {
        let setting = Setting {
            noreply,
            batch: self.plans.limits.batch,
            cursors: self.plans.limits.cursors,
            opened,
        };
        QueryCourse::new(alloc, plan, setting)
    }

    #[tactic(auto, using(crate::proofs::Stating::begun))]
    fn first(&self, course: &mut QueryCourse<C::View>) -> Result<Move, Memory> {
        if course.is_fresh {
            return Ok(Move::LookNames);
        }
        Err(Memory)
    }

    #[tactic(auto, using(crate::proofs::Stating::stating))]
    fn next(&self, course: &mut QueryCourse<C::View>, found: Found<C::View>) -> Result<Move, Memory>
        ensures heard { state_of C.View.documents C.View.indexes course.new.plan.value course.new.setting
            course.new.seen.items
            ≡ heard_with (found_of C.View.documents C.View.indexes found)
            (state_of C.View.documents C.View.indexes course.old.plan.value course.old.setting
            course.old.seen.items) }
        ensures goes { IfOk result (λ move. move_of move
            ≡ next_of (talk (keys_by self.now.plans.key.items self.now.plans.password.items) self.now.plans.limits)
            (state_of C.View.documents C.View.indexes course.new.plan.value course.new.setting
            course.new.seen.items)) }
    {
        let next = course.go(found)?;
        keeps(&self.plans.limits, course.setting)?;
        moved(course.alloc, next)
    }
}

// Whether a request began under these limits, which it always did.
#[tactic(auto, using(crate::proofs::Onward::same_setting))]
fn keeps(limits: &Limits, setting: Setting) -> Result<(), Memory>
    ensures { IfOk result (λ _. setting_of limits.now setting.noreply setting.opened ≡ setting) }
{
    if setting.batch == limits.batch && setting.cursors == limits.cursors {
        return Ok(());
    }
    Err(Memory)
}
