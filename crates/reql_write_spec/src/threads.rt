// That writes may move to another thread. The check proves it here.
use crate::command::WriteCmd;

fn is_send<T: Send>(_value: &T) {}

fn writes_cross_threads(write: &WriteCmd) {
    is_send(write);
}
