ghost use Rattle.std.specs.Prelude.{◌≡◌};
ghost use Rattle.reql_answer.specs.Body.{code_of};

/// The kinds of fault that a request meets when it runs, as `ErrorType` of ql2.proto names them.
#[derive(Clone, Copy, PartialEq, Eq, Debug)]
pub enum ErrorType {
    /// Want of memory.
    Internal,
    /// A limit was reached.
    ResourceLimit,
    /// The query asks for what has no answer.
    QueryLogic,
    /// A part of a document, or an element, isn't there.
    NonExistence,
    /// The server can't do it as things stand.
    OpFailed,
    /// The query raised it by ERROR.
    User,
}

impl ErrorType {
    /// Its number on the wire.
    pub fn code(self) -> u32
        ensures { result ≡ code_of self }
    {
        match self {
            ErrorType::Internal => 1_000_000,
            ErrorType::ResourceLimit => 2_000_000,
            ErrorType::QueryLogic => 3_000_000,
            ErrorType::NonExistence => 3_100_000,
            ErrorType::OpFailed => 4_100_000,
            ErrorType::User => 5_000_000,
        }
    }
}
