// What a door is told of its sessions and of its worker.
use crate::worker::WorkState;
use reql_net::{Parting, Rest};
use reql_session_spec::End;
use reql_wire::GreetFault;

// How a session ended.
pub(crate) fn parting_of(end: End) -> Parting {
    match end {
        End::Closed => Parting::Closed,
        End::Cut { .. } => Parting::Cut,
        End::Refused(fault) => refusal_of(fault),
        End::TooLong { .. } => Parting::TooLong,
        End::ReadFault => Parting::ReadFault,
        End::WriteFault => Parting::WriteFault,
        End::Worn => Parting::Worn,
        End::Memory => Parting::Memory,
    }
}

// Why a greeting, or a login, was refused.
fn refusal_of(fault: GreetFault) -> Parting {
    match fault {
        GreetFault::BadVersion { .. } | GreetFault::BadProtocol { .. } => Parting::Version,
        GreetFault::KeyTooLong { .. } | GreetFault::BadKey => Parting::Key,
        GreetFault::Login(_) => Parting::Login,
    }
}

// Why a worker ended.
pub(crate) fn rest_of(state: WorkState) -> Rest {
    match state {
        WorkState::Ready | WorkState::Done => Rest::Done,
        WorkState::Over => Rest::Over,
        WorkState::Failed => Rest::Failed,
        WorkState::Memory => Rest::Memory,
    }
}
