// What a queue is to the table whose feed it is of.
ghost use Rattle.reql_queue.specs.Record.{PushesAreOfTheRecord, TakesAreOfTheRecord, GivenBackIsAsBefore};
ghost use Rattle.reql_queue.specs.Worked.{Rows};

/// The queue is what the record of a feed has of it, whatever the items stand for; and what was taken
/// and given back leaves it as it was.
#[tactic(auto, using(crate::proofs::Records::pushes, crate::proofs::Records::back))]
pub fn queue_laws<T, I, K>()
    ensures pushes { PushesAreOfTheRecord T I K }
    ensures takes { TakesAreOfTheRecord T I K }
    ensures back { GivenBackIsAsBefore T }
{}

/// Worked rows of queues: drops, counts and Takes.
pub fn worked_rows()
    ensures { Rows }
{}
