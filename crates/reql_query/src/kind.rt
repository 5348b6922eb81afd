// The kinds of faults.
ghost use Rattle.std.specs.Prelude.{◌≡◌};
ghost use Rattle.reql_query.specs.Answers.{code_kind, kind_of};
ghost use Rattle.reql_query.specs.Printing.{kind_name};

/// The kind of a fault that an answer tells (`ql2.proto`, ResponseType and ErrorType).
#[derive(Clone, Copy, Debug, PartialEq, Eq)]
pub enum Kind {
    Client,
    Compile,
    Internal,
    ResourceLimit,
    QueryLogic,
    NonExistence,
    OpFailed,
    OpIndeterminate,
    User,
    Permission,
    /// Another fault of running.
    Runtime,
}

impl Kind {
    /// Its name in the protocol.
    pub fn name(self) -> &'static str
        ensures { result.now ≡ kind_name self }
    {
        match self {
            Kind::Client => "CLIENT_ERROR",
            Kind::Compile => "COMPILE_ERROR",
            Kind::Internal => "INTERNAL",
            Kind::ResourceLimit => "RESOURCE_LIMIT",
            Kind::QueryLogic => "QUERY_LOGIC",
            Kind::NonExistence => "NON_EXISTENCE",
            Kind::OpFailed => "OP_FAILED",
            Kind::OpIndeterminate => "OP_INDETERMINATE",
            Kind::User => "USER",
            Kind::Permission => "PERMISSION_ERROR",
            Kind::Runtime => "RUNTIME_ERROR",
        }
    }
}

#[tactic(auto, unfolding(crate::specs::Answers::kind_of))]
/// The kind of an answer of a type from 16 to 18 with this code.
pub fn kind_of(number: u64, code: Option<u64>) -> Kind
    ensures { result ≡ kind_of number code }
{
    if number == 16 {
        return Kind::Client;
    }
    if number == 17 {
        return Kind::Compile;
    }
    match code {
        Some(code) => code_kind(code),
        None => Kind::Runtime,
    }
}

#[tactic(auto, unfolding(crate::specs::Answers::code_kind))]
// The kind of a code.
fn code_kind(code: u64) -> Kind
    ensures { result ≡ code_kind code }
{
    match code {
        1_000_000 => Kind::Internal,
        2_000_000 => Kind::ResourceLimit,
        3_000_000 => Kind::QueryLogic,
        3_100_000 => Kind::NonExistence,
        4_100_000 => Kind::OpFailed,
        4_200_000 => Kind::OpIndeterminate,
        5_000_000 => Kind::User,
        6_000_000 => Kind::Permission,
        _ => Kind::Runtime,
    }
}
