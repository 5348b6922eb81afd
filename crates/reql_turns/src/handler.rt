// What answers the frames of a session.
ghost use Rattle.std.specs.Prelude.{◌≡◌, ◌++◌, ℕ, List, []};
ghost use Rattle.reql_wire.specs.Frames.{Fits, spelling};
ghost use Rattle.reql_hall.specs.Rooms.{Rooms};
ghost use Rattle.reql_catalog.specs.declared.catalog.Catalog.{Catalog};
ghost use Rattle.reql_table_spec.specs.Machine.{State};
ghost use Rattle.reql_session_spec.specs.Books.{all_arms};
ghost use Rattle.reql_session_spec.specs.Logins.{Admitted, Stage};
ghost use Rattle.reql_session_spec.specs.Session.{Mach, Leaving, Rest, Visits};
ghost use Rattle.reql_session_spec.specs.Tasks.{Talk};
ghost use Rattle.reql_session_spec.specs.Worlds.{Does};
ghost use Rattle.reql_session_spec.specs.declared.end.End.{End as AnEnd};
ghost use Rattle.reql_session_api.specs.World.{AtWork, place_at, world_at, Outcome};
ghost use Rattle.reql_turns.specs.Rolling.{Rolls};

use reql_outside::Link;
use reql_session_spec::End;
use reql_table_spec::Limits;
use reql_wire::Frame;

/// What answers the frames of a session over a link: it has a desk, a clock and dice, and keeps the session's books.
pub trait Handler<L: Link> {
    type Plan;

    ghost talk: { Self → Talk Self.Plan };

    ghost work: { Self → AtWork };

    // What it keeps true of itself between its calls, from the session's first one on.
    ghost ready: { Self → Type 0 };

    // The hall at whose desk it works.
    ghost hall: { Self → Rooms State Catalog };

    /// The key that a greeting must bring.
    fn key(&self) -> &[u8]
        ensures { result.now ≡ (talk self.now).key };

    /// The password by which a login is made.
    fn password(&self) -> &[u8]
        ensures { result.now ≡ (talk self.now).password };

    fn limits(&self) -> &Limits
        ensures { result.now ≡ (talk self.now).limits };

    /// Sixteen bytes of its dice, or none where they failed. It stays ready, and nothing else changes.
    fn roll(&mut self) -> Option<[u8; 16]>
        requires ready { ready self.old }
        ensures ready { ready self.new }
        ensures hall { hall self.new ≡ hall self.old }
        ensures talk { talk self.new ≡ talk self.old }
        ensures rolled { Rolls (work self.old) (work self.new) result };

    /// A turn begins: each waiting CONTINUE is visited. It stays ready.
    fn visit(&mut self, link: &mut L) -> Option<End>
        requires ready { ready self.old }
        ensures ready { ready self.new }
        ensures hall { hall self.new ≡ hall self.old }
        ensures talk { talk self.new ≡ talk self.old }
        ensures visited { (held : List ℕ) (stage : Stage) → Outcome (talk self.old)
            (world_at (L.tape link.old) (work self.old) held stage Rest) (L.tape link.new)
            (work self.new) held stage (Visits []) 1 result };

    /// A frame is taken and answered, where all visits were made. It stays ready.
    fn handle(&mut self, link: &mut L, frame: &Frame) -> Option<End>
        requires ready { ready self.old }
        ensures ready { ready self.new }
        ensures hall { hall self.new ≡ hall self.old }
        ensures talk { talk self.new ≡ talk self.old }
        ensures handled { (rest : List ℕ) → Fits (talk self.old).limits.frame frame.now
            → Outcome (talk self.old) (world_at (L.tape link.old) (work self.old)
            (spelling frame.now ++ rest) Admitted (Visits [])) (L.tape link.new) (work self.new) rest Admitted
            Rest 0 result };

    /// The session leaves: what is open is closed. It stays ready.
    fn leave(&mut self)
        requires ready { ready self.old }
        ensures ready { ready self.new }
        ensures hall { hall self.new ≡ hall self.old }
        ensures clock { (work self.new).clock ≡ (work self.old).clock }
        ensures dice { (work self.new).dice ≡ (work self.old).dice }
        ensures left { (m : Mach Self.Plan) (end : AnEnd) → m.doing
            ≡ Leaving (all_arms (work self.old).books) end
            → Does (talk self.old) (place_at (work self.old) m)
            (place_at (work self.new) record m { doing = Leaving [] end }) [] };
}
