// What the calls on open feeds are to the machine of tables.
ghost use Rattle.reql_feeds.specs.Laws.{ChangesLead, OneChangeIsTold, ChangesGoOn, SubscribesOpen, TakesLeave, TakesGive, UnsubscribesClose};

/// A change that finds its old document leads from the documents before it to those after it. What the
/// calls on open feeds leave and give is what the machine of tables says of the command: the feeds
/// after a change, or after several, are those that were told of it; a Subscribe opens one more; a
/// Take leaves and gives what is said here; an Unsubscribe closes.
#[tactic(auto, using(crate::proofs::Machine::one_change, crate::proofs::Machine::changes_go_on, crate::proofs::Machine::subscribes_open, crate::proofs::Machine::takes_give))]
pub fn feeds_laws()
    ensures lead { ChangesLead }
    ensures one { OneChangeIsTold }
    ensures several { ChangesGoOn }
    ensures subscribe { SubscribesOpen }
    ensures left { TakesLeave }
    ensures given { TakesGive }
    ensures closed { UnsubscribesClose }
{}
