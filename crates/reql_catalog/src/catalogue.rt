// The catalogue as an engine.
ghost use Rattle.std.specs.Prelude.{◌≡◌, ◌≤◌, ◌<◌, ◌+◌, ◌^◌, [], ◌∷◌, length, IfOk};
ghost use Rattle.reql_catalog.specs.Machine.{says, effect, on_made, on_dropped, done, one_more, opened, opening, no_names};
ghost use Rattle.reql_catalog.specs.Bounds.{OpensFrom};
ghost use Rattle.reql_catalog.specs.declared.command.CatCmd.TheVariants as cmds;

use crate::catalog::Catalog;
use crate::changing::{with_db, with_table, without_db, without_table};
use crate::command::{CatCmd, CatReply, CatSaid};
use crate::map::NameMap;
use crate::names::Names;
use crate::saying::says;
use reql_datum::Name;
use reql_memory::{Memory, Refused};
use reql_shared::{Engine, Snap};
use std::alloc::Global;
use std::marker::Model;

/// The catalogue of names: an engine whose commands make and drop databases and tables, and whose
/// look gives the names, shared. Contracts see what it knows.
#[derive(Drop)]
pub struct Catalogue {
    alloc: Global,
    known: Catalog,
}

impl Model for Catalogue {
    ghost use Rattle.std.specs.Prelude.{◌+◌, ◌<◌, ◌≤◌, ◌^◌, length};
    ghost use Rattle.std.specs.Coded.{codes};
    ghost use Rattle.reql_catalog.specs.declared.catalog.Catalog.{Catalog};

    ghost Value = { Catalog };

    ghost coded = { Prim.hlevel (codes) };

    ghost view = { λ a. a.known };

    ghost invariant = { λ a. (a.known.made ≤ a.known.names.place + 2 ^ 66)
        × (length a.known.names.slots ≤ a.known.most) × (a.known.most < 2 ^ 32) };
}

// What a command that was answered so does.
fn effect(alloc: Global, known: &Catalog, cmd: &CatCmd, said: &CatSaid) -> Result<Catalog, Memory>
    requires made { known.now.made + 1 < 2 ^ 128 }
    requires slots { length known.now.names.slots < 2 ^ 32 }
    ensures { IfOk result (λ r. r ≡ effect cmd.now said.now known.now) }
{
    match said {
        CatSaid::Made => on_made(alloc, known, cmd),
        CatSaid::Dropped { slots: _ } => on_dropped(alloc, known, cmd),
        _ => copy(known),
    }
}

fn copy(known: &Catalog) -> Result<Catalog, Memory>
    ensures { IfOk result (λ r. r ≡ known.now) }
{
    Ok(Catalog {
        names: known.names.copy()?,
        made: known.made,
        most: known.most,
    })
}

fn on_made(alloc: Global, known: &Catalog, cmd: &CatCmd) -> Result<Catalog, Memory>
    requires made { known.now.made + 1 < 2 ^ 128 }
    requires slots { length known.now.names.slots < 2 ^ 32 }
    ensures { IfOk result (λ r. r ≡ on_made cmd.now known.now) }
{
    match cmd {
        CatCmd::DbCreate(db) => with_db(alloc, known, db),
        CatCmd::TableCreate { db, table, key } => with_table(alloc, known, db, table, key),
        _ => copy(known),
    }
}

fn on_dropped(alloc: Global, known: &Catalog, cmd: &CatCmd) -> Result<Catalog, Memory>
    ensures { IfOk result (λ r. r ≡ on_dropped cmd.now known.now) }
{
    match cmd {
        CatCmd::DbDrop(db) => without_db(alloc, known, db),
        CatCmd::TableDrop { db, table } => without_table(alloc, known, db, table),
        _ => copy(known),
    }
}

// A command that is no entry.
fn done(alloc: Global, known: &Catalog, cmd: &CatCmd) -> Result<Catalog, Memory>
    requires made { known.now.made + 1 < 2 ^ 128 }
    requires slots { length known.now.names.slots < 2 ^ 32 }
    ensures { IfOk result (λ r. r ≡ done cmd.now known.now) }
{
    let said = says(alloc, known, cmd)?;
    effect(alloc, known, cmd, &said)
}

fn one_more(known: Catalog) -> Catalog
    requires { known.names.place + 1 < 2 ^ 64 }
    ensures { result ≡ one_more known }
{
    let Catalog { names, made, most } = known;
    let Names { place, dbs, slots } = names;
    let place = place + 1;
    let names = Names { place, dbs, slots };
    Catalog { names, made, most }
}

// A command that is an entry.
fn run(alloc: Global, known: &Catalog, cmd: &CatCmd) -> Result<(Catalog, CatSaid), Memory>
    requires made { known.now.made + 1 < 2 ^ 128 }
    requires slots { length known.now.names.slots < 2 ^ 32 }
    requires place { known.now.names.place + 1 < 2 ^ 64 }
    ensures known { IfOk result (λ r. r.0 ≡ one_more (done cmd.now known.now)) }
    ensures said { IfOk result (λ r. r.1 ≡ says known.now cmd.now) }
{
    let said = says(alloc, known, cmd)?;
    let next = effect(alloc, known, cmd, &said)?;
    Ok((one_more(next), said))
}

fn db_created(alloc: Global, known: &Catalog, db: &Name) -> Result<Catalog, Memory>
    requires made { known.now.made + 1 < 2 ^ 128 }
    requires slots { length known.now.names.slots < 2 ^ 32 }
    ensures { IfOk result (λ r. r ≡ done (cmds.DbCreate db.now) known.now) }
{
    let cmd = CatCmd::DbCreate(db.copy()?);
    done(alloc, known, &cmd)
}

fn table_created(
    alloc: Global,
    known: &Catalog,
    db: &Name,
    table: &Name,
    key: &Name,
) -> Result<Catalog, Memory>
    requires made { known.now.made + 1 < 2 ^ 128 }
    requires slots { length known.now.names.slots < 2 ^ 32 }
    ensures { IfOk result (λ r. r ≡ done (cmds.TableCreate db.now table.now key.now) known.now) }
{
    let cmd = CatCmd::TableCreate {
        db: db.copy()?,
        table: table.copy()?,
        key: key.copy()?,
    };
    done(alloc, known, &cmd)
}

// A table of an opening, whose database is made where it is missing.
fn open_table(alloc: Global, known: &Catalog, table: &(Name, Name)) -> Result<Catalog, Memory>
    requires made { known.now.made + 2 < 2 ^ 128 }
    requires slots { length known.now.names.slots ≤ known.now.most }
    requires most { known.now.most < 2 ^ 32 }
    ensures known { IfOk result (λ r. r ≡ opened (table.now ∷ []) known.now) }
    ensures bounds { IfOk result (λ r. OpensFrom known.now r) }
{
    let key = Name::of(alloc, "id")?;
    let with_db = db_created(alloc, known, &table.0)?;
    let opened = table_created(alloc, &with_db, &table.0, &table.1, &key)?;
    Ok(opened)
}

fn no_names(slots: u32) -> Catalog
    ensures { result ≡ no_names slots }
{
    let names = Names {
        place: 0,
        dbs: NameMap::new(),
        slots: None,
    };
    Catalog {
        names,
        made: 0,
        most: slots,
    }
}

// What is there before any table: the database `test`.
fn first_names(alloc: Global, slots: u32) -> Result<Catalog, Memory>
    ensures known { IfOk result (λ r. r ≡ opening [] slots) }
    ensures bounds { IfOk result (λ r. OpensFrom (no_names slots) r) }
{
    let nothing = no_names(slots);
    let test = Name::of(alloc, "test")?;
    let known = db_created(alloc, &nothing, &test)?;
    Ok(known)
}

impl Catalogue {
    /// A catalogue of so many slots, with the database `test` and these tables, each with the key
    /// field `id`, in the slots from 0 on; their databases are made where they are missing. None of
    /// this is an entry. The table of a pair that comes twice, or breaks the rule of names, or has no
    /// slot left, is left out; its database is made where its own name is good.
    pub fn new(alloc: Global, tables: &[(Name, Name)], slots: u32) -> Result<Catalogue, Memory>
        ensures opened { IfOk result (λ c. c ≡ opening tables.now slots) }
        ensures place { IfOk result (λ c. c.names.place ≡ 0) }
        ensures most { IfOk result (λ c. c.most ≡ slots) }
        ensures slots { IfOk result (λ c. length c.names.slots ≤ slots) }
    {
        let _few = tables.len();
        let mut known = first_names(alloc, slots)?;
        for table in tables {
            known = open_table(alloc, &known, table)?;
        }
        Ok(Catalogue { alloc, known })
    }
}

impl Engine for Catalogue {
    ghost use Rattle.std.specs.Prelude.{[]};
    ghost use Rattle.reql_catalog.specs.Machine.{catalogue_machine, no_names};

    type Cmd = CatCmd;

    type Reply = CatReply;

    type Question = Snap;

    type Answer = Names;

    type State = Catalog;

    type Told = CatReply;

    type Heard = Names;

    ghost machine = { catalogue_machine };

    ghost state = { λ c. c };

    ghost told = { λ r. r };

    ghost heard = { λ n. n };

    ghost tells = { λ old new by cmd reply. Unit {0} };

    ghost some_state = { no_names 0 };

    fn apply(&mut self, _by: u64, cmd: CatCmd) -> Result<CatReply, Refused<CatCmd>> {
        let place = self.known.names.place;
        if place == u64::MAX {
            drop(cmd);
            let said = CatSaid::HistoryFull { count: u64::MAX };
            return Ok(CatReply { place, said });
        }
        match run(self.alloc, &self.known, &cmd) {
            Ok((known, said)) => {
                drop(cmd);
                self.known = known;
                let place = place + 1;
                Ok(CatReply { place, said })
            }
            Err(_) => Err(Refused { back: cmd }),
        }
    }

    fn ask(&self, _question: &Snap) -> Result<Names, Memory> {
        self.known.names.copy()
    }

    fn records(answered: &CatReply) -> bool {
        match &answered.said {
            CatSaid::HistoryFull { count: _ } => false,
            _ => true,
        }
    }
}
