// That an open feed of any kind may move to another thread. The check proves it here.
use crate::feed::OpenFeed;

fn is_send<T: Send>(_value: &T) {}

fn open_feeds_cross_threads(feed: &OpenFeed) {
    is_send(feed);
}
