// A member of terms by name, as an entry of a sorted map.
use crate::term::{Term, TermField};
use reql_datum::Name;
use reql_memory::sorted_map::{Entry, Query};
use std::cmp::Ordering;
use std::mem;

impl Entry for TermField {
    ghost use Rattle.std.specs.Prelude.{ℕ, List};
    ghost use Rattle.std.proofs.Common.{refl};
    ghost use Rattle.std.proofs.lemmas.Cmp.{nat_list_cmp_total};
    ghost use Rattle.reql_datum.specs.Members.{text_order};
    ghost use Rattle.reql_term.specs.Form.{Form};
    ghost use Rattle.reql_term.specs.View.{form_of, field_of};

    type Key = Name;

    type Value = Term;

    ghost KeySeen = { List ℕ };

    ghost ValueSeen = { Form };

    ghost key_seen = { λ n. n };

    ghost value_seen = { form_of };

    ghost order_by = { text_order };

    ghost pair = { field_of };

    ghost parts = { λ m. (m.name, m.value) };

    fn of(name: Name, value: Term) -> TermField {
        TermField { name, value }
    }

    fn into_parts(self) -> (Name, Term) {
        let TermField { name, value } = self;
        (name, value)
    }

    fn value(&self) -> &Term {
        &self.value
    }

    fn replace(&mut self, value: Term) -> Term {
        mem::replace(&mut self.value, value)
    }

    fn order(&self, name: &Name) -> Ordering {
        self.name.order(name.as_str())
    }

    ghost total = { nat_list_cmp_total };

    ghost seen = { λ m. refl };
}

impl<'a> Query<TermField> for &'a str {
    ghost key = { λ s. s.now };

    fn order_of(&self, field: &TermField) -> Ordering {
        field.name.order(self)
    }
}
