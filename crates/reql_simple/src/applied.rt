// What operators give of documents that simple terms stand for.
ghost use Rattle.std.specs.Prelude.{◌≡◌, ℕ, [], ◌∷◌, IfSome};
ghost use Rattle.reql_value_spec.specs.Lazy.{stops as stops_of};
ghost use Rattle.reql_value_spec.specs.Sense.{Sense};
ghost use Rattle.reql_value_spec.specs.World.{Vars as Frames};
ghost use Rattle.reql_simple.specs.Found.{document};
ghost use Rattle.reql_simple.specs.Stands.{Stands, role_sense};
ghost use Rattle.reql_simple.specs.declared.roles.Role.TheVariants.{Comparison, Arithmetic};

use crate::lying::Found;
use crate::of_two::{field_of, reckoned, related};
use crate::roles::Role;
use reql_operand::Purse;
use reql_rules::{Arith, Relate};

/// Whether OR, where it is at true, or AND ends here.
pub(crate) fn stops(at: bool, x: &Found) -> bool
    ensures { result ≡ stops_of at (document x.now) }
{
    if at { x.is_true() } else { !x.is_true() }
}

/// An operator on one document.
pub(crate) fn by_one<'a>(role: Role, x: &Found<'a>) -> Option<Found<'a>>
    ensures { IfSome result (λ z. (limit : ℕ) (vars : Frames) (s : Sense)
        → Stands limit s vars (document x.now)
        → Stands limit (role_sense role (s ∷ [])) vars (document z)) }
{
    match role {
        Role::Negation => Some(Found::Truth(!x.is_true())),
        _ => None,
    }
}

/// An operator on two.
pub(crate) fn by_two<'a>(role: Role, limit: u64, x: &Found<'a>, y: &Found) -> Option<Found<'a>>
    ensures { IfSome result (λ z. (vars : Frames) (s t : Sense)
        → Stands limit s vars (document x.now) → Stands limit t vars (document y.now)
        → Stands limit (role_sense role (s ∷ t ∷ [])) vars (document z)) }
{
    match role {
        Role::Bracket => field_of(limit, x, y),
        Role::Field => field_of(limit, x, y),
        Role::Comparison(op) => comparison(op, x, y),
        Role::Arithmetic(op) => arithmetic(op, x, y),
        _ => None,
    }
}

/// The same, which is paid for: no more is looked at of two than the lesser has.
pub(crate) fn by_two_for<'a>(
    purse: &Purse,
    role: Role,
    limit: u64,
    x: &Found<'a>,
    y: &Found,
) -> Option<Found<'a>>
    ensures { IfSome result (λ z. (vars : Frames) (s t : Sense)
        → Stands limit s vars (document x.now) → Stands limit t vars (document y.now)
        → Stands limit (role_sense role (s ∷ t ∷ [])) vars (document z)) }
{
    let Ok(()) = purse.spend(x.size().min(y.size())) else {
        return None;
    };
    by_two(role, limit, x, y)
}

fn comparison<'a>(op: Relate, x: &Found<'a>, y: &Found) -> Option<Found<'a>>
    ensures { IfSome result (λ z. (limit : ℕ) (vars : Frames) (s t : Sense)
        → Stands limit s vars (document x.now) → Stands limit t vars (document y.now)
        → Stands limit (role_sense (Comparison op) (s ∷ t ∷ [])) vars (document z)) }
{
    match related(op, x, y) {
        Some(b) => Some(Found::Truth(b)),
        None => None,
    }
}

fn arithmetic<'a>(op: Arith, x: &Found<'a>, y: &Found) -> Option<Found<'a>>
    ensures { IfSome result (λ z. (limit : ℕ) (vars : Frames) (s t : Sense)
        → Stands limit s vars (document x.now) → Stands limit t vars (document y.now)
        → Stands limit (role_sense (Arithmetic op) (s ∷ t ∷ [])) vars (document z)) }
{
    let Some(m) = x.number() else {
        return None;
    };
    let Some(n) = y.number() else {
        return None;
    };
    match reckoned(op, m, n) {
        Some(k) => Some(Found::Number(k)),
        None => None,
    }
}
