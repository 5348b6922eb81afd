ghost use Rattle.std.specs.Prelude.{◌≡◌, ◌<◌, length};
ghost use Rattle.reql_outside.specs.Tape.{Tape, Receives, RecvFits, Sends, SendFits};

/// What one `recv` answers.
#[derive(Clone, Copy, Debug, PartialEq, Eq)]
pub enum Recv {
    /// So many bytes, at least 1, now stand at the front of the buffer.
    Got(usize),
    /// No byte came within the link's time.
    Idle,
    /// No byte will come any more.
    End,
    /// An error came, and `faults_in` rose by one, as with no other answer.
    Failed,
}

/// What one `send` answers.
#[derive(Clone, Copy, Debug, PartialEq, Eq)]
pub enum Sending {
    /// So many bytes of the piece's front, at least 1, were taken.
    Sent(usize),
    /// An error came or nothing was taken, and `faults_out` rose by one, as with no other answer.
    Failed,
}

/// What a session waits for, as it tells its link.
#[derive(Clone, Copy, Debug, PartialEq, Eq)]
pub enum Expected {
    /// The rest of the greeting or of the login, which a client owes soon after it came.
    Greeting,
    /// The rest of a frame that has begun.
    Rest,
    /// A frame, for which a client may take as long as it likes.
    Frame,
}

/// A link to one client: bytes come in any pieces, and go out in any pieces.
///
/// A count of faults that stands at 2^64 - 1 counts as risen: it stays there.
pub trait Link {
    /// What is left of a link that is done with.
    type Record;

    /// What the link tells of itself: its bytes, where it tells them, and its counts.
    ghost tape: { Self → Tape };

    /// What the record keeps of that.
    ghost kept: { Self.Record → Tape };

    /// Receives some bytes into the front of the buffer, which isn't empty.
    fn recv(&mut self, buf: &mut [u8]) -> Recv
        requires { 0 < length buf.old }
        ensures fits { RecvFits result (length buf.old) }
        ensures told { Receives (tape self.old) (tape self.new) buf.new result };

    /// Sends some bytes of the front of a piece, which isn't empty.
    fn send(&mut self, piece: &[u8]) -> Sending
        requires { 0 < length piece.now }
        ensures fits { SendFits result (length piece.now) }
        ensures told { Sends (tape self.old) (tape self.new) piece.now result };

    /// Tells the link what its session waits for, so that the link can be over where the client takes
    /// too long for it. What is told holds until it is told anew; at first it is `Greeting`.
    fn expects(&mut self, _expected: Expected)
        ensures still { tape self.new ≡ tape self.old }
    {}

    /// Tells the link that its session waits for a change of the table in a slot.
    ///
    /// The next `recv` may then answer `Idle` as soon as the table may have changed. What is told
    /// holds for that one `recv`. Tell it before the table is looked at, so that no change is missed.
    fn awaits(&mut self, _slot: u32)
        ensures still { tape self.new ≡ tape self.old }
    {}

    /// Tells the link that its session changed, or dropped, the table in a slot.
    fn changed(&mut self, _slot: u32)
        ensures still { tape self.new ≡ tape self.old }
    {}

    /// Ends the link, and gives its record.
    fn finish(self) -> Self::Record
        ensures { kept result ≡ tape self };
}
