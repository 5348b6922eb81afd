// Watches: whose turn it is.
ghost use Rattle.std.specs.Prelude.{◌≡◌, ◌<◌};

use reql_outside::Link;

/// Wakes one thread that serves many links by turns, each at a place of its own. The places are numbered from 0.
pub trait Watch<L: Link> {
    /// Waits until a place has something to do, or some time has passed, and names one: of those that have something to do
    /// the one that has waited longest. It may name a place that has nothing to do.
    fn next(&mut self, places: usize) -> usize
        requires { 0 < places }
        ensures { result < places };

    /// A link came to the place, which has been given no other since the last one left.
    fn enters(&mut self, _place: usize, _link: &L) {}

    /// Whether the session of the place may have something to hear, to say or to be told, so that a turn is worth while.
    fn wakes(&mut self, _place: usize, link: &mut L) -> bool
        ensures still { L.tape link.new ≡ L.tape link.old };

    /// The turn of the place is over, and it waits for what its link said that it awaits.
    fn rests(&mut self, _place: usize, _link: &L) {}

    /// The session of the place ended.
    fn leaves(&mut self, _place: usize) {}

    /// The place has no session, and its door had no client.
    fn passes(&mut self, _place: usize) {}

    /// The place takes no more clients.
    fn retires(&mut self, _place: usize) {}
}

/// A watch that never waits: it names one place after another, and each wakes.
#[derive(Drop)]
pub struct Rounds {
    // the place that is named next, or one past the last
    place: usize,
}

impl Rounds {
    /// A watch that begins with the first place.
    pub fn new() -> Rounds {
        Rounds { place: 0 }
    }
}

impl<L: Link> Watch<L> for Rounds {
    fn next(&mut self, places: usize) -> usize {
        let place = if self.place < places { self.place } else { 0 };
        self.place = place + 1;
        place
    }

    fn wakes(&mut self, _place: usize, _link: &mut L) -> bool {
        true
    }
}
