// What is printed of a term has a text: names and texts are in UTF-8, names rise, and numbers have 64 bits.
ghost use Rattle.std.specs.Prelude.{◌≡◌, IsUtf8};
ghost use Rattle.reql_datum.specs.Members.{AreRising};
ghost use Rattle.reql_datum.specs.View.{plain};
ghost use Rattle.reql_term.specs.Form.{variable, forms_of, named_of};
ghost use Rattle.reql_term.specs.View.{form_of};
ghost use Rattle.reql_read.specs.Spelling.{spelled_ids, spelled_literal, spelled, spelled_all, spelled_named, HasText, HaveText, MembersHaveText, members_list};

use reql_datum::{Datum, Name};
use reql_json::ZoneText;
use reql_term::{Term, TermFields, Terms};

fn name_is_utf8(name: &Name)
    ensures { IsUtf8 name.now }
{
    let _bytes = name.as_str().as_bytes();
}

#[tactic(auto, using(crate::proofs::Spelled::literals))]
fn literal_has_text(datum: &Datum)
    ensures { HasText (spelled_literal (plain datum.now)) }
{
    match datum {
        Datum::Num(n) => {
            let _in_range = n.get();
        }
        Datum::Text(name) => name_is_utf8(name),
        Datum::Time(moment) => {
            let _in_range = moment.at().get();
            let _zone = ZoneText::of(moment.zone());
        }
        Datum::Binary(_) => {}
        Datum::Null | Datum::Bool(_) => {}
        Datum::Low | Datum::High | Datum::List(_) | Datum::Obj(_) => {}
    }
}

fn ids_have_text(ids: &[u64])
    ensures { HaveText (spelled_ids ids.now) }
{}

#[tactic(auto, using(crate::proofs::Spelled::variable_text))]
fn variable_has_text(id: u64)
    ensures { HasText (spelled (variable id)) }
{
    let _number = id;
}

/// What is printed of a term has a text.
#[cycle(texts)]
#[tactic(auto, using(crate::proofs::Spelled::calls))]
pub(crate) fn has_text(term: &Term)
    ensures { HasText (spelled (form_of term.now)) }
{
    match term {
        Term::Lit(datum) => literal_has_text(datum),
        Term::Arr(terms) => have_text(terms),
        Term::Obj(fields) => named_have_text(fields),
        Term::Var(id) => variable_has_text(*id),
        Term::Row | Term::Slot(_) => {}
        Term::Func(params, body) => {
            ids_have_text(params.as_slice());
            has_text(body.term());
        }
        Term::Op { args, opts, .. } => {
            have_text(args);
            named_have_text(opts);
        }
    }
}

#[cycle(texts)]
#[tactic(auto, using(crate::proofs::Below::below, reql_datum::proofs::Walks::walks))]
fn have_text(terms: &Terms)
    ensures { HaveText (spelled_all (forms_of terms.now)) }
{
    let mut place = 0;
    while let Some(term) = terms.at(place) {
        has_text(term);
        place += 1;
    }
}

#[cycle(texts)]
#[tactic(auto, using(crate::proofs::Below::below, reql_datum::proofs::Walks::walks, crate::proofs::Spelled::names))]
fn named_have_text(fields: &TermFields)
    ensures text { MembersHaveText (spelled_named (named_of fields.now)) }
    ensures rising { AreRising (members_list (spelled_named (named_of fields.now))) }
{
    let mut place = 0;
    while let Some((name, term)) = fields.at(place) {
        name_is_utf8(name);
        has_text(term);
        place += 1;
    }
}
