// What the program says on standard error.
use crate::help::RIGHT;
use reql_words::{Refusal, Wanted};
use std::io::ErrorKind;
use std::process::ExitCode;

/// What is wanted where the words end too early, as a message says it.
fn wanted(what: Wanted) -> &'static str {
    match what {
        Wanted::Command => "a command",
        Wanted::Key => "a key after --key",
        Wanted::TableName => "a table, DB.NAME, after --table",
        Wanted::Password => "a password after --password",
        Wanted::PasswordFile => "a file after --password-file",
        Wanted::Port => "a port, 1 to 65535, after --port",
        Wanted::Workers => "a number of workers, 1 to 64, after --workers",
        Wanted::Clients => "a number of clients, 1 to 4096, after --clients",
        Wanted::Sessions => "a number of sessions, 1 to 4294967295, after --sessions",
        Wanted::Seed => "a seed, 0 to 1000000, after load",
        Wanted::Size => "a number of documents, 1 to 20000, after the seed",
    }
}

/// Says why the words can't be read.
pub fn unread(rt: &HostRuntime, kind: ErrorKind) -> ExitCode {
    if kind == ErrorKind::OutOfMemory {
        return out_of_memory(rt);
    }
    let _ = eprintln!(rt; "reqld: a word is not UTF-8; reqld --help says how to use it");
    ExitCode::from(2)
}

/// Says why the words are wrong. A message that can't be written is let go, and none tells a password.
pub fn complain(rt: &HostRuntime, refusal: Refusal<'_>) -> ExitCode {
    let _ = match refusal {
        Refusal::Wrong { word } => {
            eprintln!(rt; "reqld: unexpected word `{word}`; right would be: {RIGHT}")
        }
        Refusal::NotWithin { word, least, most } => eprintln!(rt;
            "reqld: unexpected word `{word}`; right would be: a number from {least} to {most}, \
             in digits without a sign or a zero before them"
        ),
        Refusal::BadPassword => eprintln!(rt;
            "reqld: what --password says is no password: it has at most 256 printable ASCII characters"
        ),
        Refusal::Missing { what } => {
            let what = wanted(what);
            eprintln!(rt; "reqld: {what} is missing; right would be: {RIGHT}")
        }
    };
    ExitCode::from(2)
}

/// Says that there is no memory.
pub fn out_of_memory(rt: &HostRuntime) -> ExitCode {
    let _ = eprintln!(rt; "reqld: out of memory");
    ExitCode::from(8)
}

/// Says why no socket can be had.
pub fn unopened(rt: &HostRuntime, kind: ErrorKind) -> ExitCode {
    if kind == ErrorKind::OutOfMemory {
        return out_of_memory(rt);
    }
    let _ = eprintln!(rt;
        "reqld: the sockets that wake clients can't be opened: are too many files open?"
    );
    ExitCode::from(3)
}

/// Says why a server that listened ended, where it is not that it served all it was to.
pub fn told(rt: &HostRuntime, port: u16, status: u8, is_opened: bool) -> ExitCode {
    let _ = match (status, is_opened) {
        (3, false) => eprintln!(rt;
            "reqld: port {port} of 127.0.0.1 can't be opened: is it in use, or below 1024? \
             Another one is named by --port"
        ),
        (3, true) => eprintln!(rt; "reqld: no more clients can be taken from port {port}"),
        (8, _) => eprintln!(rt; "reqld: out of memory"),
        _ => Ok(()),
    };
    ExitCode::from(status)
}

/// Says why a load printed nothing.
pub fn unprinted(rt: &HostRuntime, status: u8) -> ExitCode {
    let _ = match status {
        5 => eprintln!(rt; "reqld: the standard output can't be written"),
        8 => eprintln!(rt; "reqld: out of memory, or a session of the load was not served whole"),
        _ => Ok(()),
    };
    ExitCode::from(status)
}
