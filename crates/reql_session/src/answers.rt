// The bodies of a course's answers that leave nothing open, each as long as it may be.
ghost use Rattle.std.specs.Prelude.{◌≡◌, IfOk, Some, map};
ghost use Rattle.reql_datum.specs.View.{plain};
ghost use Rattle.reql_session_spec.specs.Requests.{Atom, Failed, Last};
ghost use Rattle.reql_session_spec.specs.Bodies.{body};
ghost use Rattle.reql_session_spec.specs.Tasks.{Talk, fitted};
ghost use Rattle.reql_session.specs.Ending.{seen_at};

use crate::points::by_slot;
use reql_answer::{ErrorType, Stamp};
use reql_bodies::{atom, failed, last};
use reql_datum::{Datum, Name, Point};
use reql_memory::Memory;
use reql_session_spec::Planning;
use reql_table_spec::Limits;
use std::alloc::Global;

/// The answer of one document.
pub(crate) fn write_one<P: Planning>(
    alloc: Global,
    limits: &Limits,
    names: u64,
    points: &[Point],
    document: &Datum,
) -> Result<Vec<u8>, Memory>
    ensures { (k : Talk P.Plan) → k.limits ≡ limits.now → IfOk result (λ b. b.items
        ≡ body (fitted k (Atom (plain document.now) (seen_at names points.now)))) }
{
    let points = by_slot(alloc, points)?;
    let stamp = Stamp {
        catalogue: names,
        points: points.as_slice(),
    };
    let body = atom(alloc, document, stamp)?;
    reql_bodies::fitted::<P>(alloc, limits, body, Some(stamp))
}

/// The answer of a stream that has no more.
pub(crate) fn write_last<P: Planning>(
    alloc: Global,
    limits: &Limits,
    names: u64,
    points: &[Point],
    documents: &[Datum],
) -> Result<Vec<u8>, Memory>
    ensures { (k : Talk P.Plan) → k.limits ≡ limits.now → IfOk result (λ b. b.items
        ≡ body (fitted k (Last (map plain documents.now) (Some (seen_at names points.now))))) }
{
    let points = by_slot(alloc, points)?;
    let stamp = Stamp {
        catalogue: names,
        points: points.as_slice(),
    };
    let body = last(alloc, documents, Some(stamp))?;
    reql_bodies::fitted::<P>(alloc, limits, body, Some(stamp))
}

/// The answer of a fault.
pub(crate) fn write_failed<P: Planning>(
    alloc: Global,
    limits: &Limits,
    names: u64,
    points: &[Point],
    error: ErrorType,
    why: &Name,
) -> Result<Vec<u8>, Memory>
    ensures { (k : Talk P.Plan) → k.limits ≡ limits.now → IfOk result (λ b. b.items
        ≡ body (fitted k (Failed error why.now (Some (seen_at names points.now))))) }
{
    let points = by_slot(alloc, points)?;
    let stamp = Stamp {
        catalogue: names,
        points: points.as_slice(),
    };
    let body = failed(alloc, error, why.as_str(), Some(stamp))?;
    reql_bodies::fitted::<P>(alloc, limits, body, Some(stamp))
}
