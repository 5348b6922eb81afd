// What a server has from the start: names of tables, an engine for each slot, and plans.
ghost use Rattle.std.specs.Prelude.{◌≡◌, ◌≤◌, map, replicate, IfOk};
ghost use Rattle.reql_catalog.specs.Machine.{catalogue_machine, opening};
ghost use Rattle.reql_table_spec.specs.Limits.{usual_limits};
ghost use Rattle.reql_open_feed.specs.Open.{held_in};
ghost use Rattle.reql_table_spec.specs.Machine.{unused};
ghost use Rattle.reql_words.specs.Words.{named};
ghost use Rattle.reql_core.specs.Core.{state_of};

use crate::outcome::Core;
use reql_catalog::Catalogue;
use reql_core::{Opening, TableCore};
use reql_datum::Name;
use reql_memory::Memory;
use reql_query_session_spec::QueryPlans;
use reql_table_spec::Limits;
use std::alloc::Global;

/// What a server has before its first session.
pub(crate) struct Start {
    pub(crate) names: Catalogue,
    pub(crate) engines: Vec<Core>,
    pub(crate) plans: QueryPlans,
}

// Tables as words name them, by names that are kept.
pub(crate) fn names_of(alloc: Global, tables: &[(&str, &str)]) -> Result<Vec<(Name, Name)>, Memory>
    ensures { IfOk result (λ names. names.items ≡ map named tables.now) }
{
    let mut names = Vec::new(alloc);
    for (db, table) in tables {
        names.push((Name::of(alloc, db)?, Name::of(alloc, table)?))?;
    }
    Ok(names)
}

// An engine that nobody has used for each slot.
pub(crate) fn engines<F: Opening>(
    alloc: Global,
    limits: &Limits,
) -> Result<Vec<TableCore<F>>, Memory>
    requires { 2 ≤ limits.now.tail }
    ensures { IfOk result (λ all. map (state_of F.held) all.items
        ≡ replicate limits.now.slots (unused limits.now.feeds limits.now.tail)) }
{
    let mut all = Vec::new(alloc);
    for _ in 0..limits.slots {
        all.push(TableCore::new(alloc, limits)?)?;
    }
    Ok(all)
}

/// The names with these tables, an engine that nobody has used for each slot, and plans for who has the key or the
/// password, with the usual limits.
pub(crate) fn begin(
    alloc: Global,
    key: &str,
    password: &str,
    tables: &[(&str, &str)],
) -> Result<Start, Memory>
    ensures names { IfOk result (λ s. s.names ≡ opening (map named tables.now) usual_limits.slots) }
    ensures names_unused { IfOk result (λ s. catalogue_machine.place s.names ≡ 0) }
    ensures engines { IfOk result (λ s. map (state_of held_in) s.engines.items
        ≡ replicate usual_limits.slots (unused usual_limits.feeds usual_limits.tail)) }
    ensures key { IfOk result (λ s. s.plans.key.items ≡ key.now) }
    ensures password { IfOk result (λ s. s.plans.password.items ≡ password.now) }
    ensures limits { IfOk result (λ s. s.plans.limits ≡ usual_limits) }
{
    let limits = Limits::usual();
    let tables = names_of(alloc, tables)?;
    let names = Catalogue::new(alloc, &tables, limits.slots)?;
    let engines = engines(alloc, &limits)?;
    let key = key.as_bytes().to_vec(alloc)?;
    let password = password.as_bytes().to_vec(alloc)?;
    Ok(Start {
        names,
        engines,
        plans: QueryPlans {
            key,
            password,
            limits,
        },
    })
}
