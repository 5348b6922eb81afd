// A table at a place of its history.
ghost use Rattle.reql_core.specs.Counted.{counted};
ghost use Rattle.reql_core.specs.Moments.{stand, led_by};

use reql_memory::Memory;
use reql_table::Table;
use reql_table_spec::Entry;
use reql_tail::Led;
use std::marker::Model;

/// A table after so many entries and so many changes.
#[derive(Drop)]
pub(crate) struct Moment {
    pub(crate) table: Table,
    pub(crate) place: u64,
    pub(crate) stamp: u64,
}

/// What contracts see of where a table stands. No value of it is made.
pub struct Stand {
    nothing: (),
}

impl Model for Stand {
    ghost use Rattle.std.specs.Prelude.{[]};
    ghost use Rattle.std.specs.Coded.{codes};
    ghost use Rattle.reql_datum.specs.Code.{plain_code, list_code, pairs_code};
    ghost use Rattle.reql_term.specs.FormCode.{form_code};
    ghost use Rattle.reql_table_spec.specs.Table.{DocumentTable, opening};

    ghost Value = { DocumentTable };

    ghost coded = { Prim.hlevel (codes, plain_code, list_code, pairs_code, form_code) };

    ghost view = { λ s. opening [] [] };
}

impl Led for Moment {
    type Entry = Entry;

    type State = Stand;

    ghost state = { λ m. stand m.table m.place m.stamp };

    ghost after = { led_by };

    ghost place = { λ t. t.place };

    fn share(&self) -> Result<Moment, Memory> {
        Ok(Moment {
            table: self.table.share()?,
            place: self.place,
            stamp: self.stamp,
        })
    }

    ghost counts = { counted };
}
