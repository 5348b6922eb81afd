// That the engine of a table may move to another thread, where its feeds may. The check proves it here.
use crate::table_core::TableCore;
use reql_opening::Opening;

fn is_send<T: Send>(_value: &T) {}

fn cores_cross_threads<F: Opening + Send>(core: &TableCore<F>) {
    is_send(core);
}
