// Rules applied to the members of each group.
ghost use Rattle.std.specs.Prelude.{◌≡◌, List, ◌∷◌, ◌<◌, length, drop, map, true, false, Ok};
ghost use Rattle.reql_datum.specs.Answer.{Answer};
ghost use Rattle.reql_datum.specs.Outcome.{Gives};
ghost use Rattle.reql_datum.specs.View.{plain};
ghost use Rattle.reql_rules.specs.Lists.{each};
ghost use Rattle.reql_value_spec.specs.Meant.{Meant, Given, Calls, grouped, given, one};
ghost use Rattle.reql_value_spec.specs.Sequenced.{on_group, on_groups as on_groups_of};
ghost use Rattle.reql_value_spec.specs.World.{World as Seen};
ghost use Rattle.reql_operand.specs.Called.{Answers};
ghost use Rattle.reql_operand.specs.Seen.{meant, shown, all_shown, all_chosen, group};
ghost use Rattle.reql_operand.specs.Tables.{seen};
ghost use Rattle.reql_argument_order.specs.Applied.{applied};
ghost use Rattle.reql_argument_order.specs.Called.{MeansValue};
ghost use Rattle.reql_argument_order.specs.Ruled.{ruled, ruled_on, in_groups, is_groups as is_groups_of, has_groups as has_groups_of, grouped_by, gives_groups, begins_with_groups};

use reql_apply::{Kind, apply, grouped_value};
use reql_datum::{Datum, Fault};
use reql_operand::{Arg, Callee, Choice, Group, Value, World, into_datum, sized};
use reql_term::{TableView, Way};
use reql_term_analysis::is_whole;
use std::alloc::Global;
use std::mem;

// An operator by its rule, within the limits on what it gives.
#[tactic(auto, unfolding(crate::specs::Ruled::ruled))]
fn at_once<V: TableView, F: Fn(usize, &[Datum]) -> Result<Value, Fault>>(
    alloc: Global,
    op: Kind,
    args: &[Arg],
    opts: &[Choice],
    world: &World<V>,
    call: &F,
) -> Result<Value, Fault>
    requires { F.IsAlwaysCallable call.now }
    ensures { let w = seen V.documents V.indexes V.entries world.now in
        (calls : Calls) → Answers w F.Fn call.now calls
        → Gives (meant w) result (ruled op w calls (all_chosen w opts.now) (all_shown w args.now)) }
{
    let value = apply(alloc, op, args, opts, world, call)?;
    sized(alloc, world.array_limit, value)
}

fn is_groups(arg: &Arg) -> bool
    ensures held { result ≡ gives_groups arg.now }
    ensures meant { (w : Seen) → result ≡ is_groups_of (shown w arg.now) }
{
    match arg {
        Arg::Value(value) => match value {
            Value::Grouped(_) => true,
            _ => false,
        },
        _ => false,
    }
}

fn has_groups(args: &[Arg]) -> bool
    ensures held { result ≡ begins_with_groups args.now }
    ensures meant { (w : Seen) → result ≡ has_groups_of (all_shown w args.now) }
{
    match args {
        [] => false,
        [first, ..] => is_groups(first),
    }
}

fn groups_of(first: Arg) -> Vec<Group>
    requires { gives_groups first ≡ true }
    ensures { (w : Seen) → shown w first ≡ given (grouped (map group result.items)) }
{
    match first {
        Arg::Value(value) => match value {
            Value::Grouped(groups) => groups,
            _ => unreachable!(),
        },
        _ => unreachable!(),
    }
}

// The groups of the first argument, taken out.
fn take_groups(args: &mut [Arg]) -> Vec<Group>
    requires { begins_with_groups args.old ≡ true }
    ensures first { (w : Seen) → all_shown w args.old
        ≡ given (grouped (map group result.items)) ∷ drop 1 (all_shown w args.new) }
    ensures some { 0 < length args.new }
{
    let none = Arg::Function(Callee {
        at: 0,
        makes_object: false,
    });
    groups_of(mem::replace(&mut args[0], none))
}

fn put_first(args: &mut [Arg], first: Arg)
    requires { 0 < length args.old }
    ensures first { (w : Seen) → all_shown w args.new
        ≡ shown w first ∷ drop 1 (all_shown w args.old) }
    ensures some { 0 < length args.new }
{
    drop(mem::replace(&mut args[0], first));
}

// The rule on the members of one group.
fn one_group<V: TableView, F: Fn(usize, &[Datum]) -> Result<Value, Fault>>(
    alloc: Global,
    op: Kind,
    members: Datum,
    args: &mut [Arg],
    opts: &[Choice],
    world: &World<V>,
    call: &F,
) -> Result<Value, Fault>
    requires call { F.IsAlwaysCallable call.now }
    requires some { 0 < length args.old }
    ensures some { 0 < length args.new }
    ensures rest { (w : Seen) → drop 1 (all_shown w args.new) ≡ drop 1 (all_shown w args.old) }
    ensures gives { let w = seen V.documents V.indexes V.entries world.now in
        (rest : List Given) (calls : Calls) → drop 1 (all_shown w args.old) ≡ rest
        → Answers w F.Fn call.now calls
        → Gives (meant w) result
        (ruled_on op w calls (all_chosen w opts.now) rest (one (plain members))) }
{
    put_first(args, Arg::Value(Value::One(members)));
    at_once(alloc, op, args, opts, world, call)
}

// The rule on one group, which keeps its name.
fn one_reduced<V: TableView, F: Fn(usize, &[Datum]) -> Result<Value, Fault>>(
    alloc: Global,
    op: Kind,
    g: &Group,
    args: &mut [Arg],
    opts: &[Choice],
    world: &World<V>,
    call: &F,
) -> Result<Group, Fault>
    requires call { F.IsAlwaysCallable call.now }
    requires some { 0 < length args.old }
    ensures some { 0 < length args.new }
    ensures rest { (w : Seen) → drop 1 (all_shown w args.new) ≡ drop 1 (all_shown w args.old) }
    ensures gives { let w = seen V.documents V.indexes V.entries world.now in
        (rest : List Given) (calls : Calls) → drop 1 (all_shown w args.old) ≡ rest
        → Answers w F.Fn call.now calls
        → Gives group result
        (on_group (ruled_on op w calls (all_chosen w opts.now) rest) (group g.now)) }
{
    let members = g.value.copy()?;
    let value = one_group(alloc, op, members, args, opts, world, call)?;
    let reduction = into_datum(alloc, value)?;
    Ok(Group {
        group: g.group.copy()?,
        value: reduction,
    })
}

fn each_group<V: TableView, F: Fn(usize, &[Datum]) -> Result<Value, Fault>>(
    alloc: Global,
    op: Kind,
    groups: &[Group],
    args: &mut [Arg],
    opts: &[Choice],
    world: &World<V>,
    call: &F,
) -> Result<Vec<Group>, Fault>
    requires call { F.IsAlwaysCallable call.now }
    requires some { 0 < length args.old }
    ensures { let w = seen V.documents V.indexes V.entries world.now in
        (calls : Calls) → Answers w F.Fn call.now calls
        → Gives (λ gs. map group gs.items) result
        (each (on_group (ruled_on op w calls (all_chosen w opts.now)
        (drop 1 (all_shown w args.old)))) (map group groups.now)) }
{
    let mut found = Vec::new(alloc);
    for g in groups {
        let reduced = one_reduced(alloc, op, g, args, opts, world, call)?;
        found.push(reduced)?;
    }
    Ok(found)
}

// The rule over the groups of the first argument.
fn by_each<V: TableView, F: Fn(usize, &[Datum]) -> Result<Value, Fault>>(
    alloc: Global,
    op: Kind,
    groups: &[Group],
    args: &mut [Arg],
    opts: &[Choice],
    world: &World<V>,
    call: &F,
) -> Result<Value, Fault>
    requires call { F.IsAlwaysCallable call.now }
    requires some { 0 < length args.old }
    ensures { let w = seen V.documents V.indexes V.entries world.now in
        (calls : Calls) → Answers w F.Fn call.now calls
        → Gives (meant w) result
        (grouped_by op w calls (all_chosen w opts.now) (drop 1 (all_shown w args.old))
        (map group groups.now)) }
{
    grouped_value(each_group(alloc, op, groups, args, opts, world, call))
}

fn over_groups<V: TableView, F: Fn(usize, &[Datum]) -> Result<Value, Fault>>(
    alloc: Global,
    op: Kind,
    args: &mut [Arg],
    opts: &[Choice],
    world: &World<V>,
    call: &F,
) -> Result<Value, Fault>
    requires call { F.IsAlwaysCallable call.now }
    requires grouped { begins_with_groups args.old ≡ true }
    ensures { let w = seen V.documents V.indexes V.entries world.now in
        (calls : Calls) → Answers w F.Fn call.now calls
        → Gives (meant w) result
        (in_groups op w calls (all_chosen w opts.now) (all_shown w args.old)) }
{
    let groups = take_groups(args);
    by_each(alloc, op, &groups, args, opts, world, call)
}

fn ungrouped<V: TableView, F: Fn(usize, &[Datum]) -> Result<Value, Fault>>(
    alloc: Global,
    op: Kind,
    args: &[Arg],
    opts: &[Choice],
    world: &World<V>,
    call: &F,
) -> Result<Value, Fault>
    requires call { F.IsAlwaysCallable call.now }
    requires ungrouped { (w : Seen) → has_groups_of (all_shown w args.now) ≡ false }
    ensures { let w = seen V.documents V.indexes V.entries world.now in
        (calls : Calls) → Answers w F.Fn call.now calls
        → Gives (meant w) result
        (in_groups op w calls (all_chosen w opts.now) (all_shown w args.now)) }
{
    at_once(alloc, op, args, opts, world, call)
}

// An operator by its rule, within the limits; where the first argument is grouped, on the members
// of each group.
fn by_groups<V: TableView, F: Fn(usize, &[Datum]) -> Result<Value, Fault>>(
    alloc: Global,
    op: Kind,
    args: Vec<Arg>,
    opts: &[Choice],
    world: &World<V>,
    call: &F,
) -> Result<Value, Fault>
    requires { F.IsAlwaysCallable call.now }
    ensures { let w = seen V.documents V.indexes V.entries world.now in
        (calls : Calls) → Answers w F.Fn call.now calls
        → Gives (meant w) result
        (in_groups op w calls (all_chosen w opts.now) (all_shown w args.items)) }
{
    let mut owned = args;
    if has_groups(&owned) {
        over_groups(alloc, op, &mut owned, opts, world, call)
    } else {
        ungrouped(alloc, op, &owned, opts, world, call)
    }
}

/// An operator by its rule, within the limits: at once, or on the members of each group where the
/// first argument is grouped and the operator does not take groups as they are.
#[tactic(auto, unfolding(crate::specs::Applied::applied))]
pub fn apply_by<V: TableView, F: Fn(usize, &[Datum]) -> Result<Value, Fault>>(
    alloc: Global,
    way: Way,
    op: Kind,
    args: Vec<Arg>,
    opts: &[Choice],
    world: &World<V>,
    call: &F,
) -> Result<Value, Fault>
    requires { F.IsAlwaysCallable call.now }
    ensures { let w = seen V.documents V.indexes V.entries world.now in
        (calls : Calls) → Answers w F.Fn call.now calls
        → Gives (meant w) result
        (applied way op w calls (all_chosen w opts.now) (all_shown w args.items)) }
{
    if is_whole(way) {
        return at_once(alloc, op, &args, opts, world, call);
    }
    by_groups(alloc, op, args, opts, world, call)
}

fn on_each<F: Fn(Value) -> Result<Value, Fault>>(
    alloc: Global,
    groups: &[Group],
    f: &F,
) -> Result<Vec<Group>, Fault>
    requires { F.IsAlwaysCallable f.now }
    ensures { (w : Seen) (m : Meant → Answer Meant) → MeansValue w F.Fn f.now m
        → Gives (λ gs. map group gs.items) result (each (on_group m) (map group groups.now)) }
{
    let mut found = Vec::new(alloc);
    for g in groups {
        let value = f(Value::One(g.value.copy()?))?;
        let reduction = into_datum(alloc, value)?;
        found.push(Group {
            group: g.group.copy()?,
            value: reduction,
        })?;
    }
    Ok(found)
}

/// A function of values, on the members of each group where the value is grouped.
pub(crate) fn on_groups<F: Fn(Value) -> Result<Value, Fault>>(
    alloc: Global,
    value: Value,
    f: &F,
) -> Result<Value, Fault>
    requires { F.IsAlwaysCallable f.now }
    ensures { (w : Seen) (m : Meant → Answer Meant) → MeansValue w F.Fn f.now m
        → Gives (meant w) result (on_groups_of m (meant w value)) }
{
    match value {
        Value::Grouped(groups) => Ok(Value::Grouped(on_each(alloc, &groups, f)?)),
        other => f(other),
    }
}
