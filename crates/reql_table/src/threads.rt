// That tables may be sent to other threads, and shared with them. The check proves it here.
use crate::edit::Prepared;
use crate::table::Table;

fn crosses<T: Send + Sync>(_held: &T) {}

fn tables_cross(table: &Table) {
    crosses(table);
}

fn prepared_cross(prepared: &Prepared) {
    crosses(prepared);
}
