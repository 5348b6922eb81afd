//! `reqld`: a document database server that speaks RethinkDB's client protocol.
//!
//! It serves one session over standard input and output, those of clients that connect to a port, or a load of its own. `run` and
//! `listen` of `reql_run` are the whole server, and `load` of `reql_loading` is it under that load; `main` hands them the process's
//! words and devices.
#![tactic(auto)]

mod help;
mod messages;
mod opening;
mod password;

use crate::help::{VERSION, print_help};
use crate::messages::{complain, out_of_memory, told, unopened, unprinted, unread};
use crate::opening::opening_line;
use crate::password::{Unread, no_password, password_in};
use reql_loading::load;
use reql_net::TcpNet;
use reql_outside::{OsClock, OsDice, StdLink, StdSink};
use reql_run::{listen, run};
use reql_words::{Command, Refusal, command_of, with_password};
use std::process::ExitCode;
use std::{env, io};

fn words_of(rt: &HostRuntime) -> io::Result<Vec<String>> {
    let mut words = Vec::new(rt.alloc());
    for word in env::args(rt)?.skip(1) {
        words.push(word)?;
    }
    Ok(words)
}

// The words in which a password that stands in a file is told, where they name one, or why there is none.
fn told_words(rt: &HostRuntime, words: &[String]) -> Result<Option<Vec<String>>, ExitCode> {
    let Command::PasswordFile { path } = command_of(words) else {
        return Ok(None);
    };
    let password = match password_in(rt, path) {
        Ok(password) => password,
        Err(why) => return Err(no_password(rt, path, why)),
    };
    let Ok(words) = with_password(rt.alloc(), words, &password) else {
        return Err(out_of_memory(rt));
    };
    if let Command::Refused(Refusal::BadPassword) = command_of(&words) {
        return Err(no_password(rt, path, Unread::Line));
    }
    Ok(Some(words))
}

// The net of a server that listens, with this line first where anything is said of its clients.
fn net_of(rt: HostRuntime, opening: io::Result<Option<String>>) -> Result<TcpNet, ExitCode> {
    let Ok(opening) = opening else {
        return Err(out_of_memory(&rt));
    };
    match TcpNet::new(rt, opening) {
        Ok(net) => Ok(net),
        Err(error) => Err(unopened(&rt, error.kind())),
    }
}

fn main(rt: HostRuntime) -> ExitCode {
    let alloc = rt.alloc();
    let said = match words_of(&rt) {
        Ok(words) => words,
        Err(error) => return unread(&rt, error.kind()),
    };
    let words = match told_words(&rt, &said) {
        Ok(Some(words)) => words,
        Ok(None) => said,
        Err(status) => return status,
    };
    match command_of(&words) {
        Command::Help => printed(print_help(&rt)),
        Command::Version => printed(println!(rt; "{VERSION}")),
        Command::Refused(refusal) => complain(&rt, refusal),
        Command::Listen {
            port,
            clients,
            key,
            password,
            quiet,
            tables,
            ..
        } => {
            let opening = if quiet {
                Ok(None)
            } else {
                opening_line(alloc, port, clients, key, password, tables.as_slice())
            };
            let mut net = match net_of(rt, opening) {
                Ok(net) => net,
                Err(status) => return status,
            };
            let outcome = listen(&rt, alloc, &words, &mut net);
            told(&rt, port, outcome.status, outcome.ended.is_ok())
        }
        Command::Load { .. } => {
            let loaded = load(&rt, alloc, &words, &mut StdSink::new(rt));
            unprinted(&rt, loaded.status)
        }
        Command::Stdio { .. } => {
            let (dice, clock) = (OsDice::new(rt), OsClock::new(rt));
            let outcome = run(&rt, alloc, &words, StdLink::new(rt), dice, clock);
            ExitCode::from(outcome.status)
        }
        // a password that stands in a file was told above
        Command::PasswordFile { .. } => ExitCode::from(2),
    }
}

fn printed(outcome: io::Result<()>) -> ExitCode {
    match outcome {
        Ok(()) => ExitCode::from(0),
        Err(_) => ExitCode::from(5),
    }
}
