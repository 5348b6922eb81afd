// Which operators take functions.
use reql_term::Op;

// The numbers of those of whose arguments one with `r.row` is a function: REDUCE, MAP, FILTER, CONCAT_MAP, MERGE, ORDER_BY, ASC,
// DESC, COUNT, OFFSETS_OF, CONTAINS, INNER_JOIN, OUTER_JOIN, EQ_JOIN, GROUP, SUM, AVG, MIN, MAX, UPDATE, REPLACE, FOR_EACH,
// INDEX_CREATE, FUNCALL.
const NUMBERS: [u32; 24] = [
    37, 38, 39, 40, 35, 41, 73, 74, 43, 87, 93, 48, 49, 50, 144, 145, 146, 147, 148, 53, 55, 68,
    75, 64,
];

/// Whether an argument with `r.row` is a function for this operator.
pub(crate) fn takes_functions(op: Op) -> bool {
    NUMBERS.contains(&op.number())
}
