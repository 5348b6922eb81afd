// That a feed of one document or of a range may move to another thread. The check proves it here.
use crate::feed::RangeFeed;

fn is_send<T: Send>(_value: &T) {}

fn range_feeds_cross_threads(feed: &RangeFeed) {
    is_send(feed);
}
