// That a catalogue may move to another thread. The check proves it here.
use crate::catalogue::Catalogue;

fn is_send<T: Send>(_value: &T) {}

fn catalogues_cross_threads(catalogue: &Catalogue) {
    is_send(catalogue);
}
