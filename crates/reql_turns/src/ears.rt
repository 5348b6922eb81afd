// What a session has heard, and where its greeting or its login stands.
use reql_scram::Proving;
use reql_wire::{Feeder, GreetFault, Greeter};

/// Where the greeting of a session stands.
#[derive(Clone, Copy)]
pub(crate) enum Phase {
    /// It isn't whole yet.
    Waiting,
    /// It is whole, and is to be answered.
    Whole,
    /// It is the version of a login, which is to be answered.
    Called,
    /// The version was answered, and the messages of the login come.
    Login,
    /// It is refused, and that is to be told.
    Wrong(GreetFault),
    /// It was answered, or its login is over.
    Over,
}

/// What a session has heard: a greeting, and the bytes behind it, of a login's messages or of frames.
#[derive(Drop)]
pub(crate) struct Ears {
    pub greeter: Greeter,
    pub feeder: Feeder,
    pub phase: Phase,
    /// What the last message of a login is held against, once it was asked for.
    pub proving: Option<Proving>,
}
