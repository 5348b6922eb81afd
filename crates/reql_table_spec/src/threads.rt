// What may move to another thread. The check proves it here, for all who use the crate.
use crate::command::{Entry, FeedSpec, Order};
use crate::engine::Kept;

fn is_send<T: Send>(_value: &T) {}

// A command may move to another thread, and a member of a history.
fn commands_cross_threads(order: &Order, entry: &Entry) {
    is_send(order);
    is_send(entry);
}

fn requests_of_feeds_cross_threads(spec: &FeedSpec) {
    is_send(spec);
}

fn changes_cross_threads(kept: &Kept) {
    is_send(kept);
}
