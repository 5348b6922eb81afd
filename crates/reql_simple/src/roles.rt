// What operators do with simple terms.
ghost use Rattle.std.specs.Prelude.{◌≡◌, List, [], IfSome};
ghost use Rattle.reql_term.specs.Table.{way_of};
ghost use Rattle.reql_value_spec.specs.Meaning.{sense_by};
ghost use Rattle.reql_value_spec.specs.Sense.{Sense};
ghost use Rattle.reql_value_spec.specs.Table.{rule_of};
ghost use Rattle.reql_simple.specs.Stands.{role_sense};

use reql_rules::{Arith, Relate};
use reql_term::Op;

/// What an operator does with simple terms.
#[derive(Clone, Copy)]
pub(crate) enum Role {
    Bracket,
    Field,
    Comparison(Relate),
    Arithmetic(Arith),
    Negation,
    /// OR where it ends with the first that is true, else AND.
    Chain(bool),
}

/// The role of an operator that has one.
pub(crate) fn role_of(op: Op) -> Option<Role>
    ensures { IfSome result (λ role. (ss : List Sense)
        → sense_by (way_of op) (rule_of op) ss [] ≡ role_sense role ss) }
{
    match op {
        Op::Bracket => Some(Role::Bracket),
        Op::GetField => Some(Role::Field),
        Op::Eq => Some(Role::Comparison(Relate::Eq)),
        Op::Ne => Some(Role::Comparison(Relate::Ne)),
        Op::Lt => Some(Role::Comparison(Relate::Lt)),
        Op::Le => Some(Role::Comparison(Relate::Le)),
        Op::Gt => Some(Role::Comparison(Relate::Gt)),
        Op::Ge => Some(Role::Comparison(Relate::Ge)),
        Op::Add => Some(Role::Arithmetic(Arith::Add)),
        Op::Sub => Some(Role::Arithmetic(Arith::Sub)),
        Op::Mul => Some(Role::Arithmetic(Arith::Mul)),
        Op::Div => Some(Role::Arithmetic(Arith::Div)),
        Op::Mod => Some(Role::Arithmetic(Arith::Mod)),
        Op::Not => Some(Role::Negation),
        Op::Or => Some(Role::Chain(true)),
        Op::And => Some(Role::Chain(false)),
        _ => None,
    }
}
