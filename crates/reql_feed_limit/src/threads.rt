// That a limit feed may move to another thread, and what a change does to it. The check proves it here.
use crate::element::LimitStep;
use crate::feed::LimitFeed;

fn is_send<T: Send>(_value: &T) {}

fn limit_feeds_cross_threads(feed: &LimitFeed) {
    is_send(feed);
}

fn steps_cross_threads(step: &LimitStep) {
    is_send(step);
}
