// An operator applied to what its arguments gave.
ghost use Rattle.reql_datum.specs.Outcome.{Gives};
ghost use Rattle.reql_value_spec.specs.Meant.{Calls};
ghost use Rattle.reql_value_spec.specs.World.{World as Seen};
ghost use Rattle.reql_operand.specs.Called.{Answers};
ghost use Rattle.reql_operand.specs.Seen.{meant, all_shown, all_chosen};
ghost use Rattle.reql_operand.specs.Tables.{seen};
ghost use Rattle.reql_apply.specs.Kinds.{kind_rule, scalar_rule, array_rule, fields_rule, table_rule, sequence_rule, part_rule, groups_rule};

use crate::cost::pay;
use crate::firsts::{
    get_all_rule, group_rule, index_statuses_rule, order_by_rule, slice_rule, with_fields_rule,
};
use crate::kinds::{Kind, OnArray, OnFields, OnGroups, OnPart, OnSequence, OnTable, Scalar};
use crate::wrapped::{array, grouped_value, one, stream};
use reql_apply_group::{eq_join, join, total, ungroup, zip};
use reql_apply_path::{
    bracket, get_field_rule, has_fields_rule, keys_rule, merge_rule, nth_rule, object_rule,
    pluck_rule, values_rule, without_rule,
};
use reql_apply_scalar::{
    arithmetic, coerce_to, comparison, constant, delete_at, end_edit, epoch_time, funcall, literal,
    make_array, place_edit, set_insert, set_operation, splice_at, to_epoch_time,
};
use reql_apply_seq::{
    concat_map, contains, count, distinct, filter, is_empty, limit, map, offsets_of, range, reduce,
    skip, union,
};
use reql_apply_table::{between, config, db, get, index_list, info, status};
use reql_datum::{Datum, Fault};
use reql_operand::{Arg, Choice, Value, World, misplaced, negation, raise, type_of};
use reql_term::TableView;
use std::alloc::Global;

fn by_scalar<V: TableView, F: Fn(usize, &[Datum]) -> Result<Value, Fault>>(
    alloc: Global,
    op: Scalar,
    args: &[Arg],
    opts: &[Choice],
    world: &World<V>,
    call: &F,
) -> Result<Value, Fault>
    requires { F.IsAlwaysCallable call.now }
    ensures { let w = seen V.documents V.indexes V.entries world.now in
        (calls : Calls) → Answers w F.Fn call.now calls → Gives (meant w) result
        (scalar_rule op w calls (all_shown w args.now) (all_chosen w opts.now)) }
{
    match op {
        Scalar::MakeArray => array(make_array(alloc, args)),
        Scalar::Error => one(raise(alloc, args)),
        Scalar::Comparison(relation) => one(comparison(alloc, relation, args)),
        Scalar::Not => one(negation(alloc, args)),
        Scalar::Arithmetic(operation) => one(arithmetic(alloc, operation, args)),
        Scalar::CoerceTo => one(coerce_to(alloc, args, world)),
        Scalar::TypeOf => one(type_of(alloc, args)),
        Scalar::Funcall => funcall(alloc, args, call),
        Scalar::Literal => one(literal(alloc, args)),
        Scalar::Minval => one(constant(Datum::Low)),
        Scalar::Maxval => one(constant(Datum::High)),
        Scalar::EpochTime => one(epoch_time(alloc, args)),
        Scalar::ToEpochTime => one(to_epoch_time(alloc, args)),
    }
}

fn by_array(alloc: Global, op: OnArray, args: &[Arg], opts: &[Choice]) -> Result<Value, Fault>
    ensures { (w : Seen) (calls : Calls) → Gives (meant w) result
        (array_rule op w calls (all_shown w args.now) (all_chosen w opts.now)) }
{
    match op {
        OnArray::AtEnd(edit) => array(end_edit(alloc, edit, args)),
        OnArray::AtPlace(edit) => array(place_edit(alloc, edit, args)),
        OnArray::DeleteAt => array(delete_at(alloc, args)),
        OnArray::SpliceAt => array(splice_at(alloc, args)),
        OnArray::SetInsert => array(set_insert(alloc, args)),
        OnArray::AsSets(operation) => array(set_operation(alloc, operation, args)),
    }
}

fn by_sequence<V: TableView, F: Fn(usize, &[Datum]) -> Result<Value, Fault>>(
    alloc: Global,
    op: OnSequence,
    args: &[Arg],
    opts: &[Choice],
    world: &World<V>,
    call: &F,
) -> Result<Value, Fault>
    requires { F.IsAlwaysCallable call.now }
    ensures { let w = seen V.documents V.indexes V.entries world.now in
        (calls : Calls) → Answers w F.Fn call.now calls → Gives (meant w) result
        (sequence_rule op w calls (all_shown w args.now) (all_chosen w opts.now)) }
{
    match op {
        OnSequence::Reduce => one(reduce(alloc, args, world, call)),
        OnSequence::Map => map(alloc, args, world, call),
        OnSequence::ConcatMap => concat_map(alloc, args, world, call),
        OnSequence::Filter => filter(alloc, args, opts, world, call),
        OnSequence::OrderBy => order_by_rule(alloc, args, opts, world, call),
        OnSequence::OffsetsOf => offsets_of(alloc, args, world, call),
        OnSequence::Count => one(count(alloc, args, world, call)),
        OnSequence::Contains => one(contains(alloc, args, world, call)),
    }
}

fn by_part<V: TableView>(
    alloc: Global,
    op: OnPart,
    args: &[Arg],
    opts: &[Choice],
    world: &World<V>,
) -> Result<Value, Fault>
    ensures { let w = seen V.documents V.indexes V.entries world.now in
        (calls : Calls) → Gives (meant w) result
        (part_rule op w calls (all_shown w args.now) (all_chosen w opts.now)) }
{
    match op {
        OnPart::Union => union(alloc, args, world),
        OnPart::Slice => slice_rule(alloc, args, opts, world),
        OnPart::Skip => skip(alloc, args, world),
        OnPart::Limit => limit(alloc, args, world),
        OnPart::Nth => one(nth_rule(alloc, args, world)),
        OnPart::IsEmpty => one(is_empty(alloc, args, world)),
        OnPart::Distinct => distinct(alloc, args, opts, world),
        OnPart::Range => stream(range(alloc, args)),
    }
}

fn by_fields<V: TableView, F: Fn(usize, &[Datum]) -> Result<Value, Fault>>(
    alloc: Global,
    op: OnFields,
    args: &[Arg],
    opts: &[Choice],
    world: &World<V>,
    call: &F,
) -> Result<Value, Fault>
    requires { F.IsAlwaysCallable call.now }
    ensures { let w = seen V.documents V.indexes V.entries world.now in
        (calls : Calls) → Answers w F.Fn call.now calls → Gives (meant w) result
        (fields_rule op w calls (all_shown w args.now) (all_chosen w opts.now)) }
{
    match op {
        OnFields::GetField => get_field_rule(alloc, args, world),
        OnFields::Bracket => bracket(alloc, args, world),
        OnFields::HasFields => has_fields_rule(alloc, args, world),
        OnFields::Pluck => pluck_rule(alloc, args, world),
        OnFields::Without => without_rule(alloc, args, world),
        OnFields::WithFields => with_fields_rule(alloc, args, world),
        OnFields::Merge => merge_rule(alloc, args, world, call),
        OnFields::Keys => one(keys_rule(alloc, args)),
        OnFields::Values => one(values_rule(alloc, args)),
        OnFields::Object => one(object_rule(alloc, args)),
    }
}

fn by_table<V: TableView>(
    alloc: Global,
    op: OnTable,
    args: &[Arg],
    opts: &[Choice],
    world: &World<V>,
) -> Result<Value, Fault>
    ensures { let w = seen V.documents V.indexes V.entries world.now in
        (calls : Calls) → Gives (meant w) result
        (table_rule op w calls (all_shown w args.now) (all_chosen w opts.now)) }
{
    match op {
        OnTable::Db => db(alloc, args),
        OnTable::Get => get(alloc, args, world),
        OnTable::GetAll => get_all_rule(alloc, args, opts, world),
        OnTable::Between => between(alloc, args, opts, world),
        OnTable::IndexList => array(index_list(alloc, args, world)),
        OnTable::IndexStatuses => array(index_statuses_rule(alloc, args, world)),
        OnTable::Info => one(info(alloc, args, world)),
        OnTable::Config => one(config(alloc, args, world)),
        OnTable::Status => one(status(alloc, args, world)),
    }
}

fn by_grouping<V: TableView, F: Fn(usize, &[Datum]) -> Result<Value, Fault>>(
    alloc: Global,
    op: OnGroups,
    args: &[Arg],
    opts: &[Choice],
    world: &World<V>,
    call: &F,
) -> Result<Value, Fault>
    requires { F.IsAlwaysCallable call.now }
    ensures { let w = seen V.documents V.indexes V.entries world.now in
        (calls : Calls) → Answers w F.Fn call.now calls → Gives (meant w) result
        (groups_rule op w calls (all_shown w args.now) (all_chosen w opts.now)) }
{
    match op {
        OnGroups::Total(of) => one(total(alloc, of, args, world, call)),
        OnGroups::Group => grouped_value(group_rule(alloc, args, opts, world, call)),
        OnGroups::Ungroup => array(ungroup(alloc, args)),
        OnGroups::InnerJoin => join(alloc, false, args, world, call),
        OnGroups::OuterJoin => join(alloc, true, args, world, call),
        OnGroups::EqJoin => eq_join(alloc, args, opts, world, call),
        OnGroups::Zip => zip(alloc, args, world),
    }
}

/// An operator by the rule of its kind. Faults where the rule does; terms that are no operators on
/// values are misplaced. It is paid for before.
pub fn apply<V: TableView, F: Fn(usize, &[Datum]) -> Result<Value, Fault>>(
    alloc: Global,
    kind: Kind,
    args: &[Arg],
    opts: &[Choice],
    world: &World<V>,
    call: &F,
) -> Result<Value, Fault>
    requires { F.IsAlwaysCallable call.now }
    ensures { let w = seen V.documents V.indexes V.entries world.now in
        (calls : Calls) → Answers w F.Fn call.now calls → Gives (meant w) result
        (kind_rule kind w calls (all_shown w args.now) (all_chosen w opts.now)) }
{
    pay(alloc, kind, args, world)?;
    match kind {
        Kind::Scalar(op) => by_scalar(alloc, op, args, opts, world, call),
        Kind::OnArray(op) => by_array(alloc, op, args, opts),
        Kind::OnFields(op) => by_fields(alloc, op, args, opts, world, call),
        Kind::OnTable(op) => by_table(alloc, op, args, opts, world),
        Kind::OnSequence(op) => by_sequence(alloc, op, args, opts, world, call),
        Kind::OnPart(op) => by_part(alloc, op, args, opts, world),
        Kind::OnGroups(op) => by_grouping(alloc, op, args, opts, world, call),
        Kind::Misplaced => Err(Fault::QueryLogic(misplaced(alloc)?)),
    }
}
