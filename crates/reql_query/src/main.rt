//! `reqld query`, `reqld dump` and `reqld restore`: a shell. It asks a server by bodies of the protocol or by chained text, and prints
//! each result as a line of JSON; or it prints the documents of a table so, or inserts those that such lines are.
//!
//! `ask_all` asks by one body and prints all that it gives; `main` hands it the bodies of the command line, or those of the
//! standard input as they come.
#![tactic(auto)]

mod answer;
mod asking;
mod connecting;
mod dumping;
mod help;
mod inserting;
mod kind;
mod line;
mod messages;
mod password;
mod printing;
mod querying;
mod requests;
mod restoring;
mod status;
mod tally;
mod words;

ghost use Rattle.reql_query.specs.Words.{FitsServer, FitsTable};

use crate::connecting::connect;
use crate::dumping::dump;
use crate::help::print_help;
use crate::messages::{
    Voice, say_long_key, say_missing, say_no_port, say_no_table, say_unread_words, say_untold,
    say_wrong,
};
use crate::querying::{ask_input, ask_words};
use crate::restoring::restore;
use crate::status::{ANSWERED, Loss, WORDS, status_of};
use crate::words::{Command, Server, Table, command_of};
use std::process::ExitCode;
use std::{env, io};

fn words_of(rt: &HostRuntime) -> io::Result<Vec<String>> {
    let mut words = Vec::new(rt.alloc());
    for word in env::args(rt)?.skip(1) {
        words.push(word)?;
    }
    Ok(words)
}

// The command that the words name, of `query` also where they name none.
fn voice_of(rt: HostRuntime, words: &[String]) -> Voice {
    let command = match words.first() {
        Some(word) if word.as_str() == "dump" => "dump",
        Some(word) if word.as_str() == "restore" => "restore",
        _ => "query",
    };
    Voice { rt, command }
}

// Connects to a server, and asks by the bodies, or by the standard input where there are none.
fn query(voice: Voice, server: Server<'_>, bodies: &[String]) -> u8
    requires { FitsServer server }
{
    match connect(voice, server) {
        Ok(client) if bodies.is_empty() => ask_input(voice, client),
        Ok(client) => ask_words(voice, client, bodies),
        Err(status) => status,
    }
}

fn dump_table(voice: Voice, server: Server<'_>, table: Table<'_>) -> u8
    requires server { FitsServer server }
    requires table { FitsTable table }
{
    match connect(voice, server) {
        Ok(client) => dump(voice, client, table),
        Err(status) => status,
    }
}

fn restore_table(voice: Voice, server: Server<'_>, table: Table<'_>) -> u8
    requires { FitsServer server }
{
    match connect(voice, server) {
        Ok(client) => restore(voice, client, table),
        Err(status) => status,
    }
}

fn main(rt: HostRuntime) -> ExitCode {
    let Ok(words) = words_of(&rt) else {
        say_unread_words(Voice {
            rt,
            command: "query",
        });
        return ExitCode::from(WORDS);
    };
    let voice = voice_of(rt, &words);
    match command_of(&words) {
        Command::Ask { server, bodies } => return ExitCode::from(query(voice, server, bodies)),
        Command::Dump { server, table } => return ExitCode::from(dump_table(voice, server, table)),
        Command::Restore { server, table } => {
            return ExitCode::from(restore_table(voice, server, table));
        }
        Command::Help => {
            return match print_help(&rt) {
                Ok(()) => ExitCode::from(ANSWERED),
                Err(_) => ExitCode::from(status_of(&Loss::Unprinted)),
            };
        }
        Command::Wrong { word } => say_wrong(voice, word),
        Command::NoPort { word } => say_no_port(voice, word),
        Command::NoTable { word } => say_no_table(voice, word),
        Command::LongKey => say_long_key(voice),
        Command::Missing { option } => say_missing(voice, option),
        Command::Untold { wanted } => say_untold(voice, wanted),
    }
    ExitCode::from(WORDS)
}
