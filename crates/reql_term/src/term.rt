// A term, and the lists and maps of terms in it.
ghost use Rattle.std.specs.Prelude.{◌≡◌, [], ◌∷◌, ◌++◌, length, map, is_ok, IfOk, IfErr, OnSome, MatchOption, drop, ◌+◌, ◌^◌, ◌<◌, option_map, slice_get, set, Some, nat_eq, if◌then◌else◌};
ghost use Rattle.reql_datum.specs.Members.{find, put, without, AreRising};
ghost use Rattle.reql_term.specs.View.{form_of, field_of};

use crate::op::Op;
use crate::params::Params;
use reql_datum::{Datum, Memory, Name, Refused};
use reql_memory::copy_on_write::{copied, own, push_on, roomy, shown};
use reql_memory::sorted_map;
use std::alloc::{AllocError, Global};
use std::marker::Model;
use std::mem;
use std::sync::Arc;

/// A term of ReQL.
///
/// Contracts see it by `form_of`, as what it says. Its lists, maps and bodies are shared as those of
/// documents are: a copy is a count. Terms may be sent and shared between threads.
#[cycle(term)]
#[derive(Drop)]
pub enum Term {
    /// A document.
    Lit(Datum),
    /// The array of what its terms give.
    Arr(Terms),
    /// The object of what its terms give.
    Obj(TermFields),
    /// The value of a variable, by its id.
    Var(u64),
    /// The parameter of the nearest function of one parameter around.
    Row,
    /// A function: its parameters and its body.
    Func(Params, Body),
    /// The table in a slot.
    Slot(u32),
    /// Any other operator, with its arguments and its optional arguments.
    Op {
        op: Op,
        args: Terms,
        opts: TermFields,
    },
}

/// Terms in order, from place 0. Contracts see the list of what they say.
#[cycle(term)]
#[derive(Drop)]
pub struct Terms {
    alloc: Global,
    held: Option<Arc<Vec<Term>>>,
}

/// The body of a function: one term. Contracts see what it says.
#[cycle(term)]
#[derive(Drop)]
pub struct Body {
    held: Arc<Term>,
}

/// Terms by name, a map that rises by the bytes of the names.
///
/// Contracts see the list of its members, each a name with what its term says. A look-up takes a
/// logarithm of steps, and the member at a place a constant number. A map that is built by rising
/// names takes linear time.
#[cycle(term)]
#[derive(Drop)]
pub struct TermFields {
    alloc: Global,
    held: Option<Arc<Vec<TermField>>>,
}

#[cycle(term)]
#[derive(Drop)]
pub(crate) struct TermField {
    pub(crate) name: Name,
    pub(crate) value: Term,
}

// A map of up to so many names takes no more memory than at its first.
const ROOM: usize = 4;

impl Model for Terms {
    ghost use Rattle.std.specs.Prelude.{List, map};
    ghost use Rattle.reql_term.specs.Form.{Form, list_weight};
    ghost use Rattle.reql_term.specs.FormCode.{forms_code};

    ghost Value = { List Form };

    ghost coded = { forms_code };

    ghost use Rattle.reql_term.specs.View.{form_of};
    ghost use Rattle.reql_memory.specs.CopyOnWrite.{held_items};

    ghost view = { λ a. map form_of (held_items a.held) };

    ghost size = { list_weight };

    ghost use Rattle.reql_term.specs.Falls.{held_fall};

    ghost size_decreases = { λ a h. held_fall a.alloc a.held };
}

impl Model for Body {
    ghost use Rattle.reql_term.specs.Form.{Form, weight};
    ghost use Rattle.reql_term.specs.FormCode.{form_code};

    ghost Value = { Form };

    ghost coded = { form_code };

    ghost use Rattle.reql_term.specs.View.{form_of};

    ghost view = { λ a. form_of a.held.value };

    ghost size = { weight };

    ghost use Rattle.reql_term.specs.Falls.{body_falls};

    ghost size_decreases = { λ a h. body_falls a.held.value };
}

impl Model for TermFields {
    ghost use Rattle.std.specs.Prelude.{List, ℕ, map};
    ghost use Rattle.reql_term.specs.Form.{Form, fields_weight};
    ghost use Rattle.reql_term.specs.FormCode.{fields_code};

    ghost Value = { List (List ℕ × Form) };

    ghost coded = { fields_code };

    ghost use Rattle.reql_term.specs.View.{field_of};
    ghost use Rattle.reql_memory.specs.CopyOnWrite.{held_items};

    ghost view = { λ a. map field_of (held_items a.held) };

    ghost use Rattle.reql_datum.specs.Members.{AreRising};

    ghost invariant = { λ a. AreRising (map field_of (held_items a.held)) };

    ghost size = { fields_weight };

    ghost use Rattle.reql_term.specs.Falls.{held_fields_fall};

    ghost size_decreases = { λ a h. held_fields_fall a.alloc a.held };
}

impl Term {
    /// An equal term that shares all it holds, in a constant number of steps. Memory where a count of
    /// sharers is full.
    pub fn copy(&self) -> Result<Term, Memory>
        ensures { IfOk result (λ t. t ≡ self.now) }
    {
        match self {
            Term::Lit(d) => Ok(Term::Lit(d.copy()?)),
            Term::Arr(terms) => Ok(Term::Arr(terms.copy()?)),
            Term::Obj(fields) => Ok(Term::Obj(fields.copy()?)),
            Term::Var(id) => Ok(Term::Var(*id)),
            Term::Row => Ok(Term::Row),
            Term::Func(params, body) => Ok(Term::Func(params.copy()?, body.copy()?)),
            Term::Slot(slot) => Ok(Term::Slot(*slot)),
            Term::Op { op, args, opts } => Ok(Term::Op {
                op: *op,
                args: args.copy()?,
                opts: opts.copy()?,
            }),
        }
    }
}

impl Clone for Term {
    ghost is_clone = { λ t u. u ≡ t };

    fn clone(&self) -> Result<Term, AllocError> {
        match self.copy() {
            Ok(term) => Ok(term),
            Err(_) => Err(AllocError),
        }
    }
}

impl Clone for TermField {
    ghost is_clone = { λ m n. n ≡ m };

    fn clone(&self) -> Result<TermField, AllocError> {
        let (Ok(name), Ok(value)) = (self.name.copy(), self.value.copy()) else {
            return Err(AllocError);
        };
        Ok(TermField { name, value })
    }
}

impl Terms {
    /// The list of nothing, which takes no memory.
    pub fn new(alloc: Global) -> Terms
        ensures { result ≡ [] }
    {
        Terms { alloc, held: None }
    }

    /// The list of nothing, with room for so many terms.
    pub fn with_room(alloc: Global, room: usize) -> Result<Terms, Memory>
        ensures { IfOk result (λ terms. terms ≡ []) }
    {
        let held = roomy(alloc, room)?;
        Ok(Terms { alloc, held })
    }

    /// The terms as a slice.
    pub fn as_slice(&self) -> &[Term]
        ensures { map form_of result.now ≡ self.now }
    {
        shown(&self.held)
    }

    /// How many terms it has.
    pub fn len(&self) -> usize
        ensures { result ≡ length self.now }
    {
        self.as_slice().len()
    }

    /// Whether it has no term.
    pub fn is_empty(&self) -> bool
        ensures { result ≡ nat_eq (length self.now) 0 }
    {
        self.as_slice().is_empty()
    }

    /// The term at a place. With `rest`, a loop over the places proves itself.
    pub fn at(&self, place: usize) -> Option<&Term>
        ensures found { option_map (λ t. form_of t.now) result ≡ slice_get self.now place }
        ensures rest { MatchOption result (drop place self.now ≡ [])
            (λ t. drop place self.now ≡ form_of t.now ∷ drop (place + 1) self.now) }
        ensures place_fits { OnSome result (place < 2 ^ 63) }
    {
        self.seek(place)
    }

    fn seek(&self, place: usize) -> Option<&Term>
        ensures found { option_map (λ t. form_of t.now) result ≡ slice_get self.now place }
        ensures place_fits { OnSome result (place < 2 ^ 63) }
    {
        self.as_slice().get(place)
    }

    /// Adds a term at the end, in place where the list isn't shared.
    pub fn push(&mut self, item: Term) -> Result<(), Refused<Term>>
        ensures items { self.new ≡ (if is_ok result then self.old ++ form_of item ∷ []
            else self.old) }
        ensures back { IfErr result (λ refused. refused.back ≡ item) }
    {
        push_on(self.alloc, &mut self.held, item)
    }

    /// Writes a term over the one at a place, which it gives, in place where the list isn't shared.
    #[tactic(auto, using(crate::proofs::Sets::set_seen))]
    pub fn set(&mut self, place: usize, item: Term) -> Result<Term, Refused<Term>>
        requires there { place < length self.old }
        ensures replaced { IfOk result (λ old. slice_get self.old place ≡ Some (form_of old)) }
        ensures items { self.new ≡ (if is_ok result then set self.old place (form_of item)
            else self.old) }
        ensures back { IfErr result (λ refused. refused.back ≡ item) }
    {
        if let Err(_) = own(self.alloc, &mut self.held, 0) {
            return Err(Refused { back: item });
        }
        match &mut self.held {
            None => Err(Refused { back: item }),
            Some(list) => match Arc::get_mut(list) {
                None => Err(Refused { back: item }),
                Some(held) => Ok(set_in(held, place, item)),
            },
        }
    }

    /// An equal list that shares the terms. Memory where the count of sharers is full.
    pub fn copy(&self) -> Result<Terms, Memory>
        ensures { IfOk result (λ terms. terms ≡ self.now) }
    {
        let held = copied(&self.held)?;
        Ok(Terms {
            alloc: self.alloc,
            held,
        })
    }
}

fn set_in(held: &mut Vec<Term>, place: usize, item: Term) -> Term
    requires there { place < length held.old.items }
    ensures replaced { slice_get held.old.items place ≡ Some result }
    ensures items { held.new.items ≡ set held.old.items place item }
{
    mem::replace(&mut held[place], item)
}

impl Body {
    /// The body that is a term, which is handed back where there is no memory.
    pub fn new(alloc: Global, term: Term) -> Result<Body, Refused<Term>>
        ensures ok { IfOk result (λ body. body ≡ form_of term) }
        ensures back { IfErr result (λ refused. refused.back ≡ term) }
    {
        match Arc::new(alloc, term) {
            Ok(held) => Ok(Body { held }),
            Err(failed) => Err(Refused { back: failed.value }),
        }
    }

    /// The term.
    pub fn term(&self) -> &Term
        ensures { form_of result.now ≡ self.now }
    {
        &self.held
    }

    /// An equal body that shares the term. Memory where the count of sharers is full.
    pub fn copy(&self) -> Result<Body, Memory>
        ensures { IfOk result (λ body. body ≡ self.now) }
    {
        let held = Arc::try_clone(&self.held)?;
        Ok(Body { held })
    }
}

impl TermFields {
    /// The map of nothing, which takes no memory.
    pub fn new(alloc: Global) -> TermFields
        ensures { result ≡ [] }
    {
        TermFields { alloc, held: None }
    }

    /// The map of nothing, with room for so many names.
    pub fn with_room(alloc: Global, room: usize) -> Result<TermFields, Memory>
        ensures { IfOk result (λ fields. fields ≡ []) }
    {
        let held = roomy(alloc, room)?;
        Ok(TermFields { alloc, held })
    }

    fn members(&self) -> &[TermField]
        ensures members { map field_of result.now ≡ self.now }
        ensures rising { AreRising self.now }
    {
        shown(&self.held)
    }

    /// The term at a name.
    pub fn get(&self, name: &str) -> Option<&Term>
        ensures { option_map (λ t. form_of t.now) result ≡ find name.now self.now }
    {
        sorted_map::get(self.members(), &name)
    }

    /// Puts a term at a name, and gives the term that it replaced.
    pub fn put(&mut self, name: Name, value: Term) -> Result<Option<Term>, Refused<(Name, Term)>>
        ensures replaced { IfOk result (λ old. option_map form_of old ≡ find name self.old) }
        ensures members { self.new ≡ (if is_ok result then put name (form_of value) self.old
            else self.old) }
        ensures back { IfErr result (λ refused. refused.back ≡ (name, value)) }
    {
        sorted_map::put_shared(self.alloc, &mut self.held, ROOM, name, value)
    }

    /// Puts a term at a name, and lets go of the one that it replaced. A name above all others, as
    /// most are put, takes less than by `put`.
    pub fn set(&mut self, name: Name, value: Term) -> Result<(), Memory>
        ensures { self.new ≡ (if is_ok result then put name (form_of value) self.old
            else self.old) }
    {
        if sorted_map::is_above(shown(&self.held), &name) {
            return sorted_map::put_last(self.alloc, &mut self.held, ROOM, name, value);
        }
        drop(self.put(name, value)?);
        Ok(())
    }

    /// Removes a name with its term, and gives the term. Memory where a shared map can't be copied.
    pub fn remove(&mut self, name: &str) -> Result<Option<Term>, Memory>
        ensures removed { IfOk result (λ old. option_map form_of old ≡ find name.now self.old) }
        ensures members { self.new ≡ (if is_ok result then without name.now self.old
            else self.old) }
    {
        sorted_map::remove_shared(self.alloc, &mut self.held, &name)
    }

    /// An equal map that shares the members. Memory where the count of sharers is full.
    pub fn copy(&self) -> Result<TermFields, Memory>
        ensures { IfOk result (λ fields. fields ≡ self.now) }
    {
        let held = copied(&self.held)?;
        Ok(TermFields {
            alloc: self.alloc,
            held,
        })
    }

    /// How many names it has.
    pub fn len(&self) -> usize
        ensures { result ≡ length self.now }
    {
        self.members().len()
    }

    /// Whether it has no name.
    pub fn is_empty(&self) -> bool
        ensures { result ≡ nat_eq (length self.now) 0 }
    {
        self.members().is_empty()
    }

    /// The member at a place. With `rest`, a loop over the places proves itself.
    pub fn at(&self, place: usize) -> Option<(&Name, &Term)>
        ensures found { option_map (λ m. (m.0.now, form_of m.1.now)) result
            ≡ slice_get self.now place }
        ensures rest { MatchOption result (drop place self.now ≡ [])
            (λ m. drop place self.now ≡ (m.0.now, form_of m.1.now) ∷ drop (place + 1) self.now) }
        ensures place_fits { OnSome result (place < 2 ^ 63) }
        ensures rising { AreRising self.now }
    {
        self.seek(place)
    }

    fn seek(&self, place: usize) -> Option<(&Name, &Term)>
        ensures found { option_map (λ m. (m.0.now, form_of m.1.now)) result
            ≡ slice_get self.now place }
        ensures place_fits { OnSome result (place < 2 ^ 63) }
        ensures rising { AreRising self.now }
    {
        match self.members().get(place) {
            Some(field) => Some((&field.name, &field.value)),
            None => None,
        }
    }
}

fn crosses<T: Send + Sync>(_held: &T) {}

// Proved only while terms may be sent to other threads, and shared with them.
fn terms_cross(term: &Term, terms: &Terms, fields: &TermFields, body: &Body) {
    crosses(term);
    crosses(terms);
    crosses(fields);
    crosses(body);
}
