// That the open feeds of a table may move to another thread, where a feed may. The check proves it here.
use crate::feeds::Feeds;
use crate::following::Following;

fn is_send<T: Send>(_value: &T) {}

fn feeds_cross_threads<F: Following + Send>(feeds: &Feeds<F>) {
    is_send(feeds);
}
