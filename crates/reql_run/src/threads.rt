// That the engine of each table may move to another thread, and that threads may share a planner over
// it. The check proves it here.
use crate::outcome::Core;
use reql_planner::QueryPlanner;

fn is_send<T: Send>(_value: &T) {}

fn is_sync<T: Sync>(_value: &T) {}

fn engines_cross_threads(core: &Core) {
    is_send(core);
}

fn threads_share_planners(planner: &QueryPlanner<Core>) {
    is_sync(planner);
}
