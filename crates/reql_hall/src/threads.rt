// What may cross threads, whatever the engines. The check proves it here, for all who use the crate.
use crate::desk::Desk;
use crate::hall::Hall;
use reql_shared::Engine;

fn is_send<T: Send>(_value: &T) {}

fn is_sync<T: Sync>(_value: &T) {}

// A desk may move to another thread where its engines may.
fn desks_cross_threads<C: Engine + Send, N: Engine + Send>(desk: &Desk<C, N>) {
    is_send(desk);
}

// Threads may share a hall whose engines may cross threads.
fn threads_share_halls<C: Engine + Send, N: Engine + Send>(hall: &Hall<C, N>) {
    is_sync(hall);
}
