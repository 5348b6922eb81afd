// That what a feed follows may move to another thread. The check proves it here.
use crate::follows::Follows;

fn is_send<T: Send>(_value: &T) {}

fn what_feeds_follow_crosses_threads(follows: &Follows) {
    is_send(follows);
}
