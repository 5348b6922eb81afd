use reql_wire::GreetFault;

/// How a session ended.
#[derive(Clone, Copy, Debug, PartialEq, Eq)]
pub enum End {
    /// No more came, and nothing was held.
    Closed,
    /// No more came while so many bytes were held.
    Cut { held: usize },
    /// The greeting was refused, and it was told.
    Refused(GreetFault),
    /// The header of a frame announced so many bytes, which are too many.
    TooLong { len: u32 },
    /// A receive failed.
    ReadFault,
    /// A send failed.
    WriteFault,
    /// All turns were used up.
    Worn,
    /// Memory was wanted before the greeting was answered, for bytes that came, or for the body of a whole frame.
    Memory,
}
