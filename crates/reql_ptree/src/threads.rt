// That trees may be sent to other threads, and shared with them. The check proves it here.
use crate::tree::Tree;

fn crosses<T: Send + Sync>(_held: &T) {}

fn trees_cross(tree: &Tree) {
    crosses(tree);
}
