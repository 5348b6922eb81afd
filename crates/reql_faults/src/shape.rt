// What a changefeed may follow.
ghost use Rattle.std.specs.Prelude.{◌≡◌, Option, Some, None, option_map, codes};
ghost use Rattle.reql_term.specs.Form.{forms_of, named_of};
ghost use Rattle.reql_term.specs.View.{form_of};
ghost use Rattle.reql_faults.specs.Places.{text_at, first, option};
ghost use Rattle.reql_faults.specs.Shapes.{is_table, is_table_at, range_by, is_range, is_first_range, name_by, order_name, order_name_at, differ, source_by, is_source, order_over, order_by, is_order, is_order_at, are_ranges, are_arms, shape_if, shape_by, shape, shape_at};

use crate::part::{Part, part_of};
use crate::places::{count, first, option, text_at, text_in};
use reql_datum::Name;
use reql_term::{Op, Term, TermFields, Terms};

/// What a changefeed follows.
#[derive(Clone, Copy, Debug, PartialEq, Eq, Drop)]
pub enum Shape {
    /// One row: GET.
    Point,
    /// What a range of a table gives, document by document.
    Range,
    /// The first ones by an index: LIMIT over ORDER_BY.
    Limit,
    /// 2 to 16 ranges: UNION.
    United,
}

/// What a changefeed over this term follows. None for a term that none can follow.
pub fn shape_of(term: &Term) -> Option<Shape>
    ensures { result ≡ shape (form_of term.now) }
{
    match term {
        Term::Slot(_) => Some(Shape::Range),
        Term::Op { op, args, .. } => shape_by(part_of(*op), args, is_range(term)),
        _ => None,
    }
}

pub(crate) fn shape_at(term: Option<&Term>) -> Option<Shape>
    ensures { result ≡ shape_at (option_map (λ t. form_of t.now) term.entry) }
{
    match term {
        Some(term) => shape_of(term),
        None => None,
    }
}

fn shape_by(part: Part, args: &Terms, range: bool) -> Option<Shape>
    ensures { result ≡ shape_by part (forms_of args.now) range }
{
    match part {
        Part::Row => shape_if(Shape::Point, is_table_at(first(args))),
        Part::Limit => shape_if(Shape::Limit, is_order_at(first(args))),
        Part::Union => shape_if(Shape::United, are_arms(args)),
        _ => shape_if(Shape::Range, range),
    }
}

fn shape_if(shape: Shape, is: bool) -> Option<Shape>
    ensures { result ≡ shape_if shape is }
{
    if is {
        return Some(shape);
    }
    None
}

fn is_table(term: &Term) -> bool
    ensures { result ≡ is_table (form_of term.now) }
{
    match term {
        Term::Slot(_) => true,
        Term::Op { op, .. } => matches!(part_of(*op), Part::Table),
        _ => false,
    }
}

fn is_table_at(term: Option<&Term>) -> bool
    ensures { result ≡ is_table_at (option_map (λ t. form_of t.now) term.entry) }
{
    match term {
        Some(term) => is_table(term),
        None => false,
    }
}

#[cycle(range)]
#[tactic(auto, using(crate::proofs::Below::below))]
fn is_range(term: &Term) -> bool
    ensures { result ≡ is_range (form_of term.now) }
{
    match term {
        Term::Slot(_) => true,
        Term::Op { op, args, .. } => {
            range_by(part_of(*op), is_table_at(first(args)), is_first_range(args))
        }
        _ => false,
    }
}

#[cycle(range)]
#[tactic(auto, using(crate::proofs::Below::below))]
fn is_first_range(args: &Terms) -> bool
    ensures { result ≡ is_first_range (forms_of args.now) }
{
    match args.at(0) {
        Some(term) => is_range(term),
        None => false,
    }
}

fn range_by(part: Part, on_table: bool, on_range: bool) -> bool
    ensures { result ≡ range_by part on_table on_range }
{
    match part {
        Part::Table => true,
        Part::Between => on_table,
        Part::Keys => on_table,
        Part::Stage => on_range,
        _ => false,
    }
}

fn are_ranges(terms: &Terms) -> bool
    ensures { result ≡ are_ranges (forms_of terms.now) }
{
    let mut place = 0;
    while let Some(term) = terms.at(place) {
        if !is_range(term) {
            return false;
        }
        place += 1;
    }
    true
}

fn are_arms(terms: &Terms) -> bool
    ensures { result ≡ are_arms (forms_of terms.now) }
{
    let count = count(terms);
    2 <= count && count <= 16 && are_ranges(terms)
}

fn order_name(term: &Term) -> Option<&Name>
    ensures { option_map (λ s. s.now) result ≡ order_name (form_of term.now) }
{
    match term {
        Term::Op { op, args, .. } => name_by(part_of(*op), args),
        _ => text_in(term),
    }
}

fn name_by(part: Part, args: &Terms) -> Option<&Name>
    ensures { option_map (λ s. s.now) result ≡ name_by part (first (forms_of args.now)) }
{
    match part {
        Part::Direction => text_at(first(args)),
        _ => None,
    }
}

fn differ(a: Option<&Name>, b: Option<&Name>) -> bool
    ensures { result ≡ differ (option_map (λ s. s.now) a.entry) (option_map (λ s. s.now) b.entry) }
{
    let Some(a) = a else {
        return false;
    };
    match b {
        Some(b) => !a.order(b.as_str()).is_eq(),
        None => false,
    }
}

fn source_by(part: Part, name: Option<&Name>, args: &Terms, index: Option<&Term>) -> bool
    ensures { result ≡ source_by part (option_map (λ s. s.now) name.entry) (first (forms_of args.now))
        (option_map (λ t. form_of t.now) index.entry) }
{
    match part {
        Part::Table => true,
        Part::Between => is_table_at(first(args)) && !differ(name, text_at(index)),
        _ => false,
    }
}

fn is_source(name: Option<&Name>, term: &Term) -> bool
    ensures { result ≡ is_source (option_map (λ s. s.now) name.entry) (form_of term.now) }
{
    match term {
        Term::Slot(_) => true,
        Term::Op { op, args, opts } => source_by(part_of(*op), name, args, option(opts, "index")),
        _ => false,
    }
}

fn order_over(index: &Term, args: &Terms) -> bool
    ensures { result ≡ order_over (Some (form_of index.now)) (forms_of args.now) }
{
    let Some(source) = args.at(0) else {
        return false;
    };
    match args.at(1) {
        Some(_) => false,
        None => is_source(order_name(index), source),
    }
}

fn order_by(part: Part, args: &Terms, opts: &TermFields) -> bool
    ensures { result ≡ order_by part (forms_of args.now) (named_of opts.now) }
{
    match part {
        Part::Order => match option(opts, "index") {
            Some(index) => order_over(index, args),
            None => false,
        },
        _ => false,
    }
}

fn is_order(term: &Term) -> bool
    ensures { result ≡ is_order (form_of term.now) }
{
    match term {
        Term::Op { op, args, opts } => order_by(part_of(*op), args, opts),
        _ => false,
    }
}

fn is_order_at(term: Option<&Term>) -> bool
    ensures { result ≡ is_order_at (option_map (λ t. form_of t.now) term.entry) }
{
    match term {
        Some(term) => is_order(term),
        None => false,
    }
}
