// What holds of the use of any desk.
ghost use Rattle.std.specs.Prelude.{◌∷◌, ◌++◌, [], List};
ghost use Rattle.reql_shared.specs.declared.recorded.Recorded.{Recorded};
ghost use Rattle.reql_shared.specs.Sight.{Sight, Learns};
ghost use Rattle.reql_shared.specs.Acts.{Act};
ghost use Rattle.reql_shared.specs.Plays.{Plays};
ghost use Rattle.reql_shared.specs.Parts.{Part, between};
ghost use Rattle.reql_hall.specs.Rooms.{Sitting};
ghost use Rattle.reql_hall.specs.Shares.{Share, Seen, Divides, Grew, Grows, share, seen_by, BeginsAll, LiesIn};

use reql_shared::Engine;

/// Who acted by a pass has used it.
pub fn acts_are_uses<E: Engine>()
    ensures { (old new : Sight E.Cmd E.State) (acts : List (Act E.Cmd E.Told E.Question E.Heard))
        → Plays E.machine old new acts → Grew old new }
{}

/// A later use lengthens what divides the earlier one by its own part.
pub fn later_uses_divide<E: Engine>()
    ensures { (a b c : Sight E.Cmd E.State) (parts : List (Part E.Cmd E.State))
        → Divides (between a b) parts → Grew a b → Grew b c
        → Divides (between a c) (parts ++ between b c ∷ []) }
{}

/// What divides the use of a pass divides it still where the pass only learns.
pub fn learning_divides<E: Engine>()
    ensures { (a b c : Sight E.Cmd E.State) (history : List (Recorded E.Cmd))
        (parts : List (Part E.Cmd E.State)) → Divides (between a b) parts → Grew a b
        → Learns b c history → Divides (between a c) parts }
{}

/// What a desk did lies in what it has seen then.
pub fn shares_lie<C: Engine, N: Engine>()
    ensures { (old new : Sitting C.Cmd C.State N.Cmd N.State) → Grows C.some_state old new
        → LiesIn (share C.some_state old new) (seen_by C.some_state new) }
{}

/// What lies in histories lies in all that begin with them.
pub fn shares_lie_in_longer_histories<C: Engine, N: Engine>()
    ensures { (done : Share C.Cmd C.State N.Cmd N.State) (seen later : Seen C.Cmd N.Cmd)
        → BeginsAll seen later → LiesIn done seen → LiesIn done later }
{}
