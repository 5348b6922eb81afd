// A member of an object, as an entry of a sorted map.
use crate::datum::{Datum, Field};
use crate::name::Name;
use reql_memory::sorted_map::{Entry, Query};
use std::cmp::Ordering;
use std::mem;

impl Entry for Field {
    ghost use Rattle.std.specs.Prelude.{ℕ, List};
    ghost use Rattle.std.proofs.Common.{refl};
    ghost use Rattle.std.proofs.lemmas.Cmp.{nat_list_cmp_total};
    ghost use Rattle.reql_datum.specs.Members.{text_order};
    ghost use Rattle.reql_datum.specs.Plain.{Plain};
    ghost use Rattle.reql_datum.specs.View.{plain, member};

    type Key = Name;

    type Value = Datum;

    ghost KeySeen = { List ℕ };

    ghost ValueSeen = { Plain };

    ghost key_seen = { λ n. n };

    ghost value_seen = { plain };

    ghost order_by = { text_order };

    ghost pair = { member };

    ghost parts = { λ m. (m.name, m.value) };

    fn of(name: Name, value: Datum) -> Field {
        Field { name, value }
    }

    fn into_parts(self) -> (Name, Datum) {
        let Field { name, value } = self;
        (name, value)
    }

    fn value(&self) -> &Datum {
        &self.value
    }

    fn replace(&mut self, value: Datum) -> Datum {
        mem::replace(&mut self.value, value)
    }

    fn order(&self, name: &Name) -> Ordering {
        self.name.order(name.as_str())
    }

    ghost total = { nat_list_cmp_total };

    ghost seen = { λ m. refl };
}

impl<'a> Query<Field> for &'a str {
    ghost key = { λ s. s.now };

    fn order_of(&self, field: &Field) -> Ordering {
        field.name.order(self)
    }
}
