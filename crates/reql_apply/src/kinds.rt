// The operators by kinds, each kind with rules of its own.
ghost use Rattle.std.specs.Prelude.{◌≡◌};
ghost use Rattle.reql_value_spec.specs.Table.{rule_of};
ghost use Rattle.reql_apply.specs.Kinds.{kind_rule};

use reql_rules::{Arith, Edit, Relate, SetOp, Total};
use reql_term::Op;

/// On documents as such.
#[derive(Clone, Copy)]
pub enum Scalar {
    MakeArray,
    Error,
    Comparison(Relate),
    Not,
    Arithmetic(Arith),
    CoerceTo,
    TypeOf,
    Funcall,
    Literal,
    Minval,
    Maxval,
    EpochTime,
    ToEpochTime,
}

/// Edits of arrays, and arrays as sets.
#[derive(Clone, Copy)]
pub enum OnArray {
    /// APPEND and PREPEND.
    AtEnd(Edit),
    /// INSERT_AT and CHANGE_AT.
    AtPlace(Edit),
    DeleteAt,
    SpliceAt,
    SetInsert,
    AsSets(SetOp),
}

/// On the fields of objects.
#[derive(Clone, Copy)]
pub enum OnFields {
    GetField,
    Bracket,
    HasFields,
    Pluck,
    Without,
    WithFields,
    Merge,
    Keys,
    Values,
    Object,
}

/// On tables and databases.
#[derive(Clone, Copy)]
pub enum OnTable {
    Db,
    Get,
    GetAll,
    Between,
    IndexList,
    /// INDEX_STATUS and INDEX_WAIT.
    IndexStatuses,
    Info,
    Config,
    Status,
}

/// On the elements of sequences.
#[derive(Clone, Copy)]
pub enum OnSequence {
    Reduce,
    Map,
    ConcatMap,
    Filter,
    OrderBy,
    OffsetsOf,
    Count,
    Contains,
}

/// Parts of sequences, and sequences made of others or of numbers.
#[derive(Clone, Copy)]
pub enum OnPart {
    Union,
    Slice,
    Skip,
    Limit,
    Nth,
    IsEmpty,
    Distinct,
    Range,
}

/// Totals, groups and joins.
#[derive(Clone, Copy)]
pub enum OnGroups {
    Total(Total),
    Group,
    Ungroup,
    InnerJoin,
    OuterJoin,
    EqJoin,
    Zip,
}

/// An operator by what it works on.
#[derive(Clone, Copy)]
pub enum Kind {
    Scalar(Scalar),
    OnArray(OnArray),
    OnFields(OnFields),
    OnTable(OnTable),
    OnSequence(OnSequence),
    OnPart(OnPart),
    OnGroups(OnGroups),
    /// No operator on values.
    Misplaced,
}

/// The kind of an operator.
pub fn kind_of(op: Op) -> Kind
    ensures { kind_rule result ≡ rule_of op }
{
    match op {
        Op::MakeArray => Kind::Scalar(Scalar::MakeArray),
        Op::Error => Kind::Scalar(Scalar::Error),
        Op::Eq => Kind::Scalar(Scalar::Comparison(Relate::Eq)),
        Op::Ne => Kind::Scalar(Scalar::Comparison(Relate::Ne)),
        Op::Lt => Kind::Scalar(Scalar::Comparison(Relate::Lt)),
        Op::Le => Kind::Scalar(Scalar::Comparison(Relate::Le)),
        Op::Gt => Kind::Scalar(Scalar::Comparison(Relate::Gt)),
        Op::Ge => Kind::Scalar(Scalar::Comparison(Relate::Ge)),
        Op::Not => Kind::Scalar(Scalar::Not),
        Op::Add => Kind::Scalar(Scalar::Arithmetic(Arith::Add)),
        Op::Sub => Kind::Scalar(Scalar::Arithmetic(Arith::Sub)),
        Op::Mul => Kind::Scalar(Scalar::Arithmetic(Arith::Mul)),
        Op::Div => Kind::Scalar(Scalar::Arithmetic(Arith::Div)),
        Op::Mod => Kind::Scalar(Scalar::Arithmetic(Arith::Mod)),
        Op::CoerceTo => Kind::Scalar(Scalar::CoerceTo),
        Op::TypeOf => Kind::Scalar(Scalar::TypeOf),
        Op::Funcall => Kind::Scalar(Scalar::Funcall),
        Op::Literal => Kind::Scalar(Scalar::Literal),
        Op::Minval => Kind::Scalar(Scalar::Minval),
        Op::Maxval => Kind::Scalar(Scalar::Maxval),
        Op::EpochTime => Kind::Scalar(Scalar::EpochTime),
        Op::ToEpochTime => Kind::Scalar(Scalar::ToEpochTime),
        Op::Append => Kind::OnArray(OnArray::AtEnd(Edit::Append)),
        Op::Prepend => Kind::OnArray(OnArray::AtEnd(Edit::Prepend)),
        Op::InsertAt => Kind::OnArray(OnArray::AtPlace(Edit::InsertAt)),
        Op::ChangeAt => Kind::OnArray(OnArray::AtPlace(Edit::ChangeAt)),
        Op::DeleteAt => Kind::OnArray(OnArray::DeleteAt),
        Op::SpliceAt => Kind::OnArray(OnArray::SpliceAt),
        Op::SetInsert => Kind::OnArray(OnArray::SetInsert),
        Op::SetUnion => Kind::OnArray(OnArray::AsSets(SetOp::SetUnion)),
        Op::SetIntersection => Kind::OnArray(OnArray::AsSets(SetOp::SetIntersection)),
        Op::SetDifference => Kind::OnArray(OnArray::AsSets(SetOp::SetDifference)),
        Op::Difference => Kind::OnArray(OnArray::AsSets(SetOp::Difference)),
        Op::Count => Kind::OnSequence(OnSequence::Count),
        Op::Contains => Kind::OnSequence(OnSequence::Contains),
        Op::Skip => Kind::OnPart(OnPart::Skip),
        Op::Limit => Kind::OnPart(OnPart::Limit),
        Op::IsEmpty => Kind::OnPart(OnPart::IsEmpty),
        Op::GetField => Kind::OnFields(OnFields::GetField),
        Op::Bracket => Kind::OnFields(OnFields::Bracket),
        Op::HasFields => Kind::OnFields(OnFields::HasFields),
        Op::Pluck => Kind::OnFields(OnFields::Pluck),
        Op::Without => Kind::OnFields(OnFields::Without),
        Op::WithFields => Kind::OnFields(OnFields::WithFields),
        Op::Merge => Kind::OnFields(OnFields::Merge),
        Op::Keys => Kind::OnFields(OnFields::Keys),
        Op::Values => Kind::OnFields(OnFields::Values),
        Op::Object => Kind::OnFields(OnFields::Object),
        Op::Reduce => Kind::OnSequence(OnSequence::Reduce),
        Op::Map => Kind::OnSequence(OnSequence::Map),
        Op::Filter => Kind::OnSequence(OnSequence::Filter),
        Op::ConcatMap => Kind::OnSequence(OnSequence::ConcatMap),
        Op::OrderBy => Kind::OnSequence(OnSequence::OrderBy),
        Op::Distinct => Kind::OnPart(OnPart::Distinct),
        Op::OffsetsOf => Kind::OnSequence(OnSequence::OffsetsOf),
        Op::Union => Kind::OnPart(OnPart::Union),
        Op::Slice => Kind::OnPart(OnPart::Slice),
        Op::Nth => Kind::OnPart(OnPart::Nth),
        Op::Range => Kind::OnPart(OnPart::Range),
        Op::InnerJoin => Kind::OnGroups(OnGroups::InnerJoin),
        Op::OuterJoin => Kind::OnGroups(OnGroups::OuterJoin),
        Op::EqJoin => Kind::OnGroups(OnGroups::EqJoin),
        Op::Zip => Kind::OnGroups(OnGroups::Zip),
        Op::Group => Kind::OnGroups(OnGroups::Group),
        Op::Ungroup => Kind::OnGroups(OnGroups::Ungroup),
        Op::Sum => Kind::OnGroups(OnGroups::Total(Total::Sum)),
        Op::Avg => Kind::OnGroups(OnGroups::Total(Total::Avg)),
        Op::Min => Kind::OnGroups(OnGroups::Total(Total::Min)),
        Op::Max => Kind::OnGroups(OnGroups::Total(Total::Max)),
        Op::Db => Kind::OnTable(OnTable::Db),
        Op::Get => Kind::OnTable(OnTable::Get),
        Op::GetAll => Kind::OnTable(OnTable::GetAll),
        Op::Between => Kind::OnTable(OnTable::Between),
        Op::IndexList => Kind::OnTable(OnTable::IndexList),
        Op::IndexStatus => Kind::OnTable(OnTable::IndexStatuses),
        Op::IndexWait => Kind::OnTable(OnTable::IndexStatuses),
        Op::Info => Kind::OnTable(OnTable::Info),
        Op::Config => Kind::OnTable(OnTable::Config),
        Op::Status => Kind::OnTable(OnTable::Status),
        _ => Kind::Misplaced,
    }
}
