// What the words ask for: the command that comes first.
ghost use Rattle.std.specs.Prelude.{map, string_bytes};
ghost use Rattle.reql_words.specs.Words.{Asks, Says, asks, asks_options, ends_in, said_nothing};

use crate::load::load_of;
use crate::options::{Options, Server, say_all};
use crate::tables::Tables;

/// What is wanted where the words end too early.
#[derive(Clone, Copy, Debug, PartialEq, Eq)]
pub enum Wanted {
    Command,
    /// The key after `--key`.
    Key,
    /// The table after `--table`.
    TableName,
    /// The password after `--password`.
    Password,
    /// The file after `--password-file`.
    PasswordFile,
    /// The port after `--port`.
    Port,
    /// The number of workers after `--workers`.
    Workers,
    /// The number of clients after `--clients`.
    Clients,
    /// The number of sessions after `--sessions`.
    Sessions,
    /// The seed after `load`.
    Seed,
    /// The number of documents after the seed.
    Size,
}

/// Why words ask for nothing.
#[derive(Clone, Copy, Debug, PartialEq, Eq)]
pub enum Refusal<'a> {
    /// This word, the first such, can't stand where it does.
    Wrong {
        word: &'a str,
    },
    /// In place of this word, the first such, a number from the least to the most is wanted, in decimal
    /// digits without a sign or a needless zero before them.
    NotWithin {
        word: &'a str,
        least: u64,
        most: u64,
    },
    /// What is said by `--password` is more than 256 characters, or one of them is no printable one of
    /// ASCII.
    BadPassword,
    /// The words end where this is wanted.
    Missing {
        what: Wanted,
    },
}

/// What the words ask for.
#[derive(Drop)]
pub enum Command<'a> {
    /// Serve one session over standard input and output to who has this authorization key, or logs
    /// in with this password, with these tables: each once, by its database and its name, in the
    /// order of the words.
    Stdio {
        key: &'a str,
        password: &'a str,
        tables: Tables<'a>,
    },
    /// Serve so many sessions in all, 1 to 4294967295, as they connect to this port, 1 to 65535, by so
    /// many workers, 1 to 64, and so many clients at once, 1 to 4096. Where it is quiet, say nothing of
    /// them. The key, the password and the tables are as above.
    Listen {
        port: u16,
        workers: u32,
        clients: u32,
        sessions: u64,
        key: &'a str,
        password: &'a str,
        quiet: bool,
        tables: Tables<'a>,
    },
    /// Put the password that stands in this file in the file's place among the words, and do what
    /// they ask for then.
    PasswordFile {
        path: &'a str,
    },
    /// Serve the load of this seed, 0 to 1000000, with so many documents, 1 to 20000, and say what it left.
    Load {
        seed: u32,
        size: u32,
    },
    /// Say how to use the program.
    Help,
    /// Say which version of the program this is.
    Version,
    /// Nothing: the words are none that ask for something.
    Refused(Refusal<'a>),
}

/// What the words ask for: `stdio [--key K] [--password P] [--table DB.NAME]..` or
/// `listen [--port P] [--workers W] [--clients C] [--sessions S] [--quiet] [--key K] [--password P] [--table DB.NAME]..`,
/// the options in any order, `load SEED SIZE`, `--help`, `-h` or `--version`, each alone. `--key=K` is
/// taken as `--key K`, and so is every option with a value; `--password-file F` stands for a password. A
/// key has at most 1024 bytes, a password at most 256, each a printable one of ASCII; there are at most
/// 256 tables; P is 1 to 65535 and 28015 where it isn't said, W is 1 to 64 and 4 where it isn't said, C is
/// 1 to 4096 and 1024 where it isn't said, and S is 1 to 4294967295, and this where it isn't said; SEED is
/// 0 to 1000000 and SIZE 1 to 20000. It takes no memory.
pub fn command_of(words: &[String]) -> Command<'_>
    ensures { Says (asks (map string_bytes words.now)) result }
{
    let Some((first, rest)) = words.split_first() else {
        return Command::Refused(Refusal::Missing {
            what: Wanted::Command,
        });
    };
    match first.as_str() {
        "stdio" => server_of(Server::Stdio, rest),
        "listen" => server_of(Server::Listen, rest),
        "load" => load_of(rest),
        "--help" | "-h" => ended(Command::Help, rest),
        "--version" => ended(Command::Version, rest),
        word => Command::Refused(Refusal::Wrong { word }),
    }
}

// What the options of a server ask for.
fn server_of(server: Server, words: &[String]) -> Command<'_>
    ensures { Says (asks_options (map string_bytes words.now) (said_nothing server)) result }
{
    let mut said = Options::new(server);
    match say_all(words, &mut said) {
        Ok(()) => said.served(),
        Err(refusal) => Command::Refused(refusal),
    }
}

// A command after which no word may stand.
pub(crate) fn ended<'a>(command: Command<'a>, rest: &'a [String]) -> Command<'a>
    ensures { (a : Asks) → Says a command.entry → Says (ends_in a (map string_bytes rest.now))
        result }
{
    match rest.first() {
        None => command,
        Some(word) => Command::Refused(Refusal::Wrong {
            word: word.as_str(),
        }),
    }
}
