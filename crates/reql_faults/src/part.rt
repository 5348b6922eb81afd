// What an operator is in a term that a changefeed follows.
ghost use Rattle.std.specs.Prelude.{◌≡◌};
ghost use Rattle.reql_faults.specs.Shapes.{part_of};

use reql_term::Op;

/// What an operator is in a term that a changefeed follows.
#[derive(Clone, Copy, Drop)]
pub(crate) enum Part {
    /// TABLE.
    Table,
    /// GET, one row of a table.
    Row,
    /// BETWEEN, a range of a table by an index.
    Between,
    /// GET_ALL, the rows of keys.
    Keys,
    /// What looks at one document after another: FILTER, MAP, PLUCK, WITHOUT, MERGE, HAS_FIELDS,
    /// WITH_FIELDS.
    Stage,
    /// ORDER_BY.
    Order,
    /// ASC, DESC.
    Direction,
    /// LIMIT.
    Limit,
    /// UNION.
    Union,
    /// None of these.
    Other,
}

pub(crate) fn part_of(op: Op) -> Part
    ensures { result ≡ part_of op }
{
    match op {
        Op::Table => Part::Table,
        Op::Get => Part::Row,
        Op::Between => Part::Between,
        Op::GetAll => Part::Keys,
        Op::Filter => Part::Stage,
        Op::Map => Part::Stage,
        Op::Pluck => Part::Stage,
        Op::Without => Part::Stage,
        Op::Merge => Part::Stage,
        Op::HasFields => Part::Stage,
        Op::WithFields => Part::Stage,
        Op::OrderBy => Part::Order,
        Op::Asc => Part::Direction,
        Op::Desc => Part::Direction,
        Op::Limit => Part::Limit,
        Op::Union => Part::Union,
        _ => Part::Other,
    }
}
