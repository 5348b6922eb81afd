// Laws of bags, each a clause of a function that does nothing.
ghost use Rattle.std.specs.Prelude.{◌≡◌, ◌-◌, List};
ghost use Rattle.reql_datum.specs.Plain.{Plain};
ghost use Rattle.reql_bag.specs.Bag.{times, IsRising, in_order, less_all};

/// Bags: sorting keeps the counts, a difference is that of the counts, and both rise; a rising list
/// is known by its counts.
#[tactic(auto, using(crate::proofs::Bags::times_sorted, crate::proofs::Bags::times_less_all, crate::proofs::Rising::rising_sorted, crate::proofs::Rising::rising_less_all))]
pub fn bag_laws()
    ensures sorting { (v : Plain) (xs : List Plain) → times v (in_order xs) ≡ times v xs }
    ensures difference { (v : Plain) (xs ys : List Plain)
        → times v (less_all xs ys) ≡ times v xs - times v ys }
    ensures in_order { (xs : List Plain) → IsRising (in_order xs) }
    ensures rest_in_order { (xs ys : List Plain) → IsRising xs → IsRising (less_all xs ys) }
    ensures by_counts { (xs ys : List Plain) → IsRising xs → IsRising ys
        → ((v : Plain) → times v xs ≡ times v ys) → xs ≡ ys }
{}
