// A request on its way.
ghost use Rattle.std.specs.Prelude.{◌≡◌};
ghost use Rattle.reql_planner.specs.Follows.{heard_in, is_none, MayFollow, may_follow_prop};

use crate::moving::{heard, is_answer};
use http_server::Log;
use reql_datum::Memory;
use reql_plan::Course;
use reql_plan_spec::{Plan, Setting};
use reql_plan_steps::Move;
use reql_session_api::Found;
use reql_term::TableView;
use std::alloc::Global;
use std::snapshot::Snapshot;

/// A request on its way, in a session.
///
/// Its plan and what it found are there for contracts alone, and take no memory. It is over after an
/// answer, and after want of memory.
#[derive(Drop)]
pub struct QueryCourse<V: TableView> {
    pub(crate) alloc: Global,
    pub(crate) plan: Snapshot<Plan>,
    pub(crate) setting: Setting,
    pub(crate) seen: Log<Found<V>, ()>,
    pub(crate) is_fresh: bool,
    pub(crate) is_over: bool,
    pub(crate) course: Course<V>,
    pub(crate) ghost starts: { is_fresh ≡ is_none seen.items },
    pub(crate) ghost follows: { MayFollow V.documents V.indexes V.entries plan.value setting
        (heard_in V.documents V.indexes seen.items) is_over course } by { may_follow_prop V.documents V.indexes V.entries plan.value setting
            (heard_in V.documents V.indexes seen.items) is_over course },
}

impl<V: TableView + Drop> QueryCourse<V> {
    ghost use Rattle.std.specs.Prelude.{[], ◌∷◌, ◌++◌, IfOk, true};
    ghost use Rattle.reql_table_spec.specs.Engines.{HoldsEntries};
    ghost use Rattle.reql_plan_steps.specs.Heard.{move_of};
    ghost use Rattle.reql_plan_spec.specs.Course.{plan_next};

    /// The course of a plan, which has found nothing yet.
    pub(crate) fn new(alloc: Global, plan: Plan, setting: Setting) -> QueryCourse<V>
        ensures plan { result.plan.value ≡ plan }
        ensures setting { result.setting ≡ setting }
        ensures seen { result.seen.items ≡ [] }
    {
        let told = Snapshot::of(&plan);
        QueryCourse {
            alloc,
            plan: told,
            setting,
            seen: Log::new(),
            is_fresh: true,
            is_over: false,
            course: Course::new(plan, setting),
        }
    }

    // It has found this, too. Whether it was over before is told, and it is over until it goes on.
    fn hear(&mut self, found: &Found<V>) -> bool
        ensures plan { self.new.plan.value ≡ self.old.plan.value }
        ensures setting { self.new.setting ≡ self.old.setting }
        ensures seen { self.new.seen.items ≡ self.old.seen.items ++ (found.now, tt) ∷ [] }
        ensures course { self.new.course ≡ self.old.course }
        ensures was { result ≡ self.old.is_over }
        ensures over { self.new.is_over ≡ true }
    {
        let was = self.is_over;
        let seen = self.seen.and(found, &());
        self.seen = seen;
        self.is_fresh = false;
        self.is_over = true;
        was
    }

    /// The next move, after the last one found this.
    pub(crate) fn go(&mut self, found: Found<V>) -> Result<Move, Memory>
        requires holds { HoldsEntries V.documents V.indexes V.entries }
        ensures plan { self.new.plan.value ≡ self.old.plan.value }
        ensures setting { self.new.setting ≡ self.old.setting }
        ensures seen { self.new.seen.items ≡ self.old.seen.items ++ (found, tt) ∷ [] }
        ensures goes { IfOk result (λ m. move_of m ≡ plan_next self.new.plan.value self.new.setting
            (heard_in V.documents V.indexes self.new.seen.items)) }
    {
        if self.hear(&found) {
            return Err(Memory);
        }
        let alloc = self.alloc;
        let next = self.course.next(alloc, Some(heard(found)))?;
        self.is_over = is_answer(&next);
        Ok(next)
    }
}
