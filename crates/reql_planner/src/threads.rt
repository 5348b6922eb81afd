// That threads may share what sessions ask of planning. The check proves it here.
use crate::planner::QueryPlanner;

fn is_sync<T: Sync>(_value: &T) {}

fn threads_share_planners<C: Sync>(planner: &QueryPlanner<C>) {
    is_sync(planner);
}
