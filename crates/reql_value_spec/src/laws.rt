// Laws of the value of a term.
ghost use Rattle.reql_value_spec.specs.Depends.{ValuesDependOnNames, FunctionsDependOnNames};
ghost use Rattle.reql_value_spec.specs.IndexLaws.{IndexListsAreInOrder};
ghost use Rattle.reql_value_spec.specs.Shapes.{ShapesAreByDocument};
ghost use Rattle.reql_value_spec.specs.Stages.{StagesGoByElement};

/// A value depends on the tables that stand in the term by their slots, and on no other; and on no
/// variable, where functions in the term bind all that it names.
pub fn dependence_law()
    ensures values { ValuesDependOnNames }
    ensures functions { FunctionsDependOnNames }
{}

/// MAP, FILTER, PLUCK, WITHOUT, MERGE, HAS_FIELDS and WITH_FIELDS go element by element over a
/// sequence, by what follows from their other arguments alone.
pub fn stage_law()
    ensures { StagesGoByElement }
{}

/// What a range feed shows goes document by document: over documents without a fault, the value of
/// its term is what it gives of each document by itself, in some order.
pub fn shape_law()
    ensures { ShapesAreByDocument }
{}

/// The index lists of a plain table whose documents rise by their keys are in order, with no entry
/// twice, and each entry is one of a document of the table.
pub fn index_law()
    ensures { IndexListsAreInOrder }
{}
