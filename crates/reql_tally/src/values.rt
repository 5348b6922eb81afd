// The value of a feed.
ghost use Rattle.std.specs.Prelude.{◌≡◌, ◌++◌, codes, option_map, IfOk};
ghost use Rattle.reql_datum.specs.View.{plain};
ghost use Rattle.reql_feed_spec.specs.Fold.{without_nulls};
ghost use Rattle.reql_feed_spec.specs.Items.{present};
ghost use Rattle.reql_feed_spec.specs.Shown.{member_at};
ghost use Rattle.reql_table_spec.specs.Table.{held, is_limit};
ghost use Rattle.reql_opening.specs.Opens.{IsOpened};
ghost use Rattle.reql_table.specs.Seen.{documents_of, indexes_of};
ghost use Rattle.reql_tally.specs.Tallied.{value_of};
ghost use Rattle.reql_tally.specs.Views.{as_kept, listed, told};

use reql_bag::in_order;
use reql_core::{Opened, Opening};
use reql_datum::{Datum, Items};
use reql_memory::Memory;
use reql_table::Table;
use reql_table_spec::{FeedKind, FeedSpec};
use std::alloc::Global;

// What an opening item tells.
#[tactic(auto, using(reql_datum::proofs::Back::back))]
fn told(item: &Datum) -> Option<&Datum>
    ensures { option_map (λ d. plain d.now) result ≡ member_at (codes "new_val") (plain item.now) }
{
    match item {
        Datum::Obj(fields) => fields.get("new_val"),
        _ => None,
    }
}

fn add(values: &mut Items, value: Option<&Datum>) -> Result<(), Memory>
    ensures { IfOk result (λ _. values.new
        ≡ values.old ++ listed (option_map (λ d. plain d.now) value.entry)) }
{
    let Some(value) = value else {
        return Ok(());
    };
    let copied = value.copy()?;
    values.push(copied)?;
    Ok(())
}

fn all_told(alloc: Global, opening: &Items) -> Result<Items, Memory>
    ensures { IfOk result (λ values. values ≡ told opening.now) }
{
    let mut values = Items::new(alloc);
    let mut place = 0;
    while let Some(item) = opening.at(place) {
        add(&mut values, told(item))?;
        place += 1;
    }
    Ok(values)
}

fn no_null(value: &Datum) -> Option<&Datum>
    ensures { option_map (λ d. plain d.now) result ≡ present (plain value.now) }
{
    match value {
        Datum::Null => None,
        value => Some(value),
    }
}

#[tactic(auto, using(crate::proofs::Tellings::no_null_next))]
fn without_nulls(alloc: Global, values: &Items) -> Result<Items, Memory>
    ensures { IfOk result (λ rest. rest ≡ without_nulls values.now) }
{
    let mut rest = Items::new(alloc);
    let mut place = 0;
    while let Some(value) = values.at(place) {
        add(&mut rest, no_null(value))?;
        place += 1;
    }
    Ok(rest)
}

fn is_limit(kind: FeedKind) -> bool
    ensures { result ≡ is_limit kind }
{
    match kind {
        FeedKind::Point => false,
        FeedKind::Range => false,
        FeedKind::Limit(_) => true,
    }
}

// Values of a feed of the first of an order are in this order only where its items tell places.
fn as_kept(alloc: Global, kind: FeedKind, offsets: bool, values: Items) -> Result<Items, Memory>
    ensures { IfOk result (λ kept. kept ≡ as_kept kind offsets values) }
{
    if is_limit(kind) && !offsets {
        let values = in_order(alloc, values)?;
        return Ok(values);
    }
    Ok(values)
}

fn value_in<F: Opening>(
    alloc: Global,
    spec: &FeedSpec,
    table: &Table,
    opened: &Opened<F>,
) -> Result<Items, Memory>
    requires { IsOpened F.held F.fits F.reads spec.now table.now opened.now }
    ensures { IfOk result (λ values. values
        ≡ value_of (held (indexes_of table.now) spec.now) (documents_of table.now)) }
{
    let told = all_told(alloc, &opened.opening)?;
    let values = as_kept(alloc, opened.feed.kind(), opened.feed.spec().offsets, told)?;
    let rest = without_nulls(alloc, &values)?;
    Ok(rest)
}

/// The value of a feed on a table, without nulls.
pub(crate) fn value_on<F: Opening>(
    alloc: Global,
    spec: &FeedSpec,
    table: &Table,
) -> Result<Items, Memory>
    ensures { IfOk result (λ values. values
        ≡ value_of (held (indexes_of table.now) spec.now) (documents_of table.now)) }
{
    let opened: Option<Opened<F>> = F::open(alloc, spec, table)?;
    match opened {
        Some(opened) => {
            let values = value_in::<F>(alloc, spec, table, &opened)?;
            Ok(values)
        }
        None => Ok(Items::new(alloc)),
    }
}
