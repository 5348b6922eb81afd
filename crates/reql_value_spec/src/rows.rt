// Worked rows, computed on the definition.
ghost use Rattle.reql_value_spec.specs.Short.{Holds, shelf};
ghost use Rattle.reql_value_spec.specs.ScalarCases.{scalars};
ghost use Rattle.reql_value_spec.specs.FieldCases.{arrays, fields};
ghost use Rattle.reql_value_spec.specs.SequenceCases.{sequences, joins};
ghost use Rattle.reql_value_spec.specs.TableCases.{tables};
ghost use Rattle.reql_value_spec.specs.FaultCases.{faults, limited, unplanned};
ghost use Rattle.reql_value_spec.specs.Worked.{tagging, tagging_rows, pairing, pairing_rows, grouping, grouping_rows, lacking, lacking_rows, Entered, Answers, Shaped};

/// Cases of every operator: what each term gives over two small tables, family by family, and each
/// fault that evaluation can give.
#[tactic(auto, using(crate::proofs::Cases::scalars, crate::proofs::Cases::arrays, crate::proofs::Cases::fields, crate::proofs::Cases::sequences, crate::proofs::Cases::joins, crate::proofs::Cases::tables, crate::proofs::Cases::faults, crate::proofs::Cases::limited, crate::proofs::Cases::unplanned))]
pub fn worked_cases()
    ensures scalars { Holds shelf scalars }
    ensures arrays { Holds shelf arrays }
    ensures fields { Holds shelf fields }
    ensures sequences { Holds shelf sequences }
    ensures joins { Holds shelf joins }
    ensures tables { Holds shelf tables }
    ensures faults { Holds shelf faults }
    ensures limited { Holds (record shelf { array_limit = 2 }) limited }
    ensures unplanned { Holds shelf unplanned }
{}

/// Worked rows of terms over tables of their own, what a request is answered with, and a shape of a
/// feed.
#[tactic(auto, using(crate::proofs::Worked::tags, crate::proofs::Worked::pairs, crate::proofs::Worked::groups, crate::proofs::Worked::lacks, crate::proofs::Worked::enters, crate::proofs::Worked::answers, crate::proofs::Worked::has_a_shape))]
pub fn worked_rows()
    ensures tags { Holds tagging tagging_rows }
    ensures pairs { Holds pairing pairing_rows }
    ensures groups { Holds grouping grouping_rows }
    ensures lacks { Holds lacking lacking_rows }
    ensures entered { Entered }
    ensures answers { Answers }
    ensures shaped { Shaped }
{}
