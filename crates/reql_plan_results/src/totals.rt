// Summaries of writes, one after another.
ghost use Rattle.std.specs.Prelude.{◌≡◌, ◌++◌, IfOk, OnOk};
ghost use Rattle.reql_plan_spec.specs.Summed.{sum as sum_of, first_of as first_of_two, both_of as both_of_two, nothing_done as nothing_done_of, added as added_of};

use reql_datum::{Items, Memory, Name};
use reql_write_spec::Summary;
use std::alloc::Global;

// The last count, as of documents' numbers.
const MOST: u64 = 9_007_199_254_740_992;

/// The summary of no write.
pub fn nothing_done(alloc: Global) -> Summary
    ensures { result ≡ nothing_done_of }
{
    Summary {
        deleted: 0,
        errors: 0,
        inserted: 0,
        replaced: 0,
        skipped: 0,
        unchanged: 0,
        first_error: None,
        generated: Items::new(alloc),
        changes: None,
    }
}

/// The summary of two writes, one after the other. Counts end at 2^53.
pub fn added(_alloc: Global, total: Summary, one: Summary) -> Result<Summary, Memory>
    ensures { IfOk result (λ s. s ≡ added_of total one) }
{
    let generated = joined(total.generated, &one.generated)?;
    let changes = both_of(total.changes, one.changes)?;
    Ok(Summary {
        deleted: sum(total.deleted, one.deleted),
        errors: sum(total.errors, one.errors),
        inserted: sum(total.inserted, one.inserted),
        replaced: sum(total.replaced, one.replaced),
        skipped: sum(total.skipped, one.skipped),
        unchanged: sum(total.unchanged, one.unchanged),
        first_error: first_of(total.first_error, one.first_error),
        generated,
        changes,
    })
}

#[tactic(auto, using(crate::proofs::Sums::sums))]
fn sum(a: u64, b: u64) -> u64
    ensures { result ≡ sum_of a b }
{
    if MOST <= a {
        return MOST;
    }
    if MOST - a <= b {
        return MOST;
    }
    a + b
}

fn first_of(a: Option<Name>, b: Option<Name>) -> Option<Name>
    ensures { result ≡ first_of_two a b }
{
    match a {
        Some(text) => Some(text),
        None => b,
    }
}

// A list with another after it.
fn joined(list: Items, more: &Items) -> Result<Items, Memory>
    ensures { IfOk result (λ items. items ≡ list ++ more.now) }
{
    let mut items = list;
    add_all(&mut items, more)?;
    Ok(items)
}

#[tactic(auto, using(reql_datum::proofs::Walks::walks))]
fn add_all(items: &mut Items, more: &Items) -> Result<(), Memory>
    ensures { OnOk result (items.new ≡ items.old ++ more.now) }
{
    let mut place = 0;
    while let Some(item) = more.at(place) {
        items.push(item.copy()?)?;
        place += 1;
    }
    Ok(())
}

fn both_of(a: Option<Items>, b: Option<Items>) -> Result<Option<Items>, Memory>
    ensures { IfOk result (λ list. list ≡ both_of_two a b) }
{
    let Some(first) = a else {
        return Ok(b);
    };
    match b {
        None => Ok(Some(first)),
        Some(second) => Ok(Some(joined(first, &second)?)),
    }
}
