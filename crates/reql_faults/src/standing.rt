// Where a term stands.
ghost use Rattle.std.specs.Prelude.{◌≡◌, ◌<◌, ◌^◌};
ghost use Rattle.reql_faults.specs.Faults.{is_outside, takes_writes, may_stand, is_arm, place_if, arm_at, place_at, body_of, member_of};

use reql_term::Task;

/// Where a term stands.
#[derive(Clone, Copy, Drop)]
pub enum Place {
    /// At the root.
    Root,
    /// As an arm of a BRANCH at the root.
    Arm,
    /// As the function of a FOR_EACH at one of these.
    Each,
    /// As that function's body.
    Body,
    /// As a member of an array that is the body.
    Member,
    /// Anywhere else.
    Inside,
}

fn place_if(place: Place, is: bool) -> Place
    ensures { result ≡ place_if place is }
{
    if is {
        return place;
    }
    Place::Inside
}

impl Place {
    pub(crate) fn is_outside(self) -> bool
        ensures { result ≡ is_outside self }
    {
        match self {
            Place::Root => true,
            Place::Arm => true,
            _ => false,
        }
    }

    fn takes_writes(self) -> bool
        ensures { result ≡ takes_writes self }
    {
        match self {
            Place::Body => true,
            Place::Member => true,
            _ => self.is_outside(),
        }
    }

    /// Whether a term that asks for this may stand there.
    pub(crate) fn may_hold(self, task: Task) -> bool
        ensures { result ≡ may_stand self task }
    {
        match task {
            Task::Write => self.takes_writes(),
            Task::ForEach => self.is_outside(),
            Task::Catalogue => self.is_outside(),
            Task::Index => self.is_outside(),
            Task::Sync => self.is_outside(),
            _ => true,
        }
    }

    fn of_arm(self, place: usize, count: usize) -> Place
        requires fits { place < 2 ^ 63 }
        ensures { result ≡ arm_at self place count }
    {
        match self {
            Place::Root => place_if(Place::Arm, place % 2 == 1 || place + 1 == count),
            _ => Place::Inside,
        }
    }

    /// Where the argument at a place of so many stands.
    pub(crate) fn of_part(self, task: Task, place: usize, count: usize) -> Place
        requires fits { place < 2 ^ 63 }
        ensures { result ≡ place_at self task place count }
    {
        match task {
            Task::Branch => self.of_arm(place, count),
            Task::ForEach => place_if(Place::Each, self.is_outside() && place == 1),
            _ => Place::Inside,
        }
    }

    /// Where the body of a function stands.
    pub(crate) fn of_body(self) -> Place
        ensures { result ≡ body_of self }
    {
        match self {
            Place::Each => Place::Body,
            _ => Place::Inside,
        }
    }

    /// Where a member of an array stands.
    pub(crate) fn of_member(self) -> Place
        ensures { result ≡ member_of self }
    {
        match self {
            Place::Body => Place::Member,
            _ => Place::Inside,
        }
    }
}
