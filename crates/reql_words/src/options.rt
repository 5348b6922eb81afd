// The options of a command, one after another.
ghost use Rattle.std.specs.Prelude.{◌≡◌, ◌≤◌, map, string_bytes, is_none, option_map, unwrap_or, IfOk, []};
ghost use Rattle.reql_words.specs.Words.{Missing, Numbers, Says, SaysAll, Steps, asks_options, is_whole, lacks_number, lacks_value, no_password, number_once, refused, said_nothing, said_of, serves, serves_by, value_in, with_clients, with_file, with_key, with_number, with_option, with_password, with_port, with_quiet, with_sessions, with_table, with_whole, with_workers, within_or};
ghost use Rattle.reql_words.specs.declared.options.Server.TheVariants as servers;

use crate::numbers::number_within;
use crate::passwords::is_password;
use crate::tables::{Tables, is_one_more, table_in};
use crate::words::{Command, Refusal, Wanted};
use reql_wire::LONGEST_KEY;

// How a server has its sessions.
#[derive(Clone, Copy)]
pub(crate) enum Server {
    Stdio,
    Listen,
}

// What the options of a server so far have said.
#[derive(Drop)]
pub(crate) struct Options<'a> {
    pub(crate) server: Server,
    pub(crate) key: Option<&'a str>,
    pub(crate) password: Option<&'a str>,
    pub(crate) file: Option<&'a str>,
    pub(crate) tables: Tables<'a>,
    pub(crate) port: Option<u16>,
    pub(crate) workers: Option<u32>,
    pub(crate) clients: Option<u32>,
    pub(crate) sessions: Option<u64>,
    pub(crate) quiet: bool,
}

impl<'a> Options<'a> {
    pub(crate) fn new(server: Server) -> Options<'a>
        ensures { said_of result ≡ said_nothing server }
    {
        Options {
            server,
            key: None,
            password: None,
            file: None,
            tables: Tables::new(),
            port: None,
            workers: None,
            clients: None,
            sessions: None,
            quiet: false,
        }
    }

    // All options are said.
    pub(crate) fn served(self) -> Command<'a>
        ensures { Says (serves (said_of self.entry)) result }
    {
        match self.file {
            Some(path) => Command::PasswordFile { path },
            None => self.serving(),
        }
    }

    // All options are said, and none names a file.
    fn serving(self) -> Command<'a>
        ensures { Says (serves_by self.entry.server (said_of self.entry)) result }
    {
        let key = said_or_none(self.key);
        let password = said_or_none(self.password);
        match self.server {
            Server::Stdio => Command::Stdio {
                key,
                password,
                tables: self.tables,
            },
            Server::Listen => Command::Listen {
                port: self.port.unwrap_or(28_015),
                workers: self.workers.unwrap_or(4),
                clients: self.clients.unwrap_or(1024),
                sessions: self.sessions.unwrap_or(4_294_967_295),
                key,
                password,
                quiet: self.quiet,
                tables: self.tables,
            },
        }
    }

    // Whether neither a password nor its file is said.
    fn no_password(&self) -> bool
        ensures { result ≡ no_password (said_of self.now) }
    {
        self.password.is_none() && self.file.is_none()
    }
}

// All options are said, after those that said this, or a word is refused.
pub(crate) fn say_all<'a>(words: &'a [String], said: &mut Options<'a>) -> Result<(), Refusal<'a>>
    ensures { SaysAll (asks_options (map string_bytes words.now) (said_of said.old)) (said_of said.new)
        result }
{
    let Some((word, rest)) = words.split_first() else {
        return Ok(());
    };
    let word = word.as_str();
    if is_whole(word) {
        return match with_whole(word, said) {
            Ok(()) => say_all(rest, said),
            Err(refusal) => Err(refusal),
        };
    }
    let Some((value, rest)) = rest.split_first() else {
        return Err(lacks_value(word, said));
    };
    match with_option(word, value.as_str(), said) {
        Ok(()) => say_all(rest, said),
        Err(refusal) => Err(refusal),
    }
}

// Whether the word says an option whole: with its value behind the first equals sign, or one without a value.
pub(crate) fn is_whole(word: &str) -> bool
    ensures { result ≡ is_whole word.now }
{
    value_in(word).is_some() || word == "--quiet"
}

// An option and its value, where the word has an equals sign.
pub(crate) fn value_in(word: &str) -> Option<(&str, &str)>
    ensures { option_map (λ p. (p.0.now, p.1.now)) result ≡ value_in word.now }
{
    word.split_once('=')
}

// One more option is said by one word, or this is why it can't be.
fn with_whole<'a>(word: &'a str, said: &mut Options<'a>) -> Result<(), Refusal<'a>>
    ensures { Steps (with_whole word.now (said_of said.old)) (said_of said.new) result }
{
    match value_in(word) {
        Some((option, value)) => with_option(option, value, said),
        None => with_quiet(word, said),
    }
}

fn with_quiet<'a>(word: &'a str, said: &mut Options<'a>) -> Result<(), Refusal<'a>>
    ensures { Steps (with_quiet said.old.server word.now (said_of said.old)) (said_of said.new) result }
{
    match said.server {
        Server::Listen if !said.quiet => {
            said.quiet = true;
            Ok(())
        }
        _ => Err(Refusal::Wrong { word }),
    }
}

// One more option is said, or this is why it can't be.
fn with_option<'a>(word: &'a str, value: &'a str, said: &mut Options<'a>) -> Result<(), Refusal<'a>>
    ensures { Steps (with_option word.now value.now (said_of said.old)) (said_of said.new) result }
{
    match word {
        "--key" => with_key(word, value, said),
        "--table" => with_table(value, said),
        "--password" => with_password(word, value, said),
        "--password-file" => with_file(word, value, said),
        _ => match said.server {
            Server::Stdio => Err(Refusal::Wrong { word }),
            Server::Listen => with_number(word, value, said),
        },
    }
}

fn with_key<'a>(word: &'a str, value: &'a str, said: &mut Options<'a>) -> Result<(), Refusal<'a>>
    ensures { Steps (with_key word.now value.now (said_of said.old)) (said_of said.new) result }
{
    if said.key.is_some() {
        return Err(Refusal::Wrong { word });
    }
    if value.len() > LONGEST_KEY {
        return Err(Refusal::Wrong { word: value });
    }
    said.key = Some(value);
    Ok(())
}

// No refusal tells the password.
fn with_password<'a>(
    word: &'a str,
    value: &'a str,
    said: &mut Options<'a>,
) -> Result<(), Refusal<'a>>
    ensures { Steps (with_password word.now value.now (said_of said.old)) (said_of said.new) result }
{
    if !said.no_password() {
        return Err(Refusal::Wrong { word });
    }
    if !is_password(value) {
        return Err(Refusal::BadPassword);
    }
    said.password = Some(value);
    Ok(())
}

fn with_file<'a>(word: &'a str, value: &'a str, said: &mut Options<'a>) -> Result<(), Refusal<'a>>
    ensures { Steps (with_file word.now value.now (said_of said.old)) (said_of said.new) result }
{
    if !said.no_password() {
        return Err(Refusal::Wrong { word });
    }
    said.file = Some(value);
    Ok(())
}

fn with_table<'a>(value: &'a str, said: &mut Options<'a>) -> Result<(), Refusal<'a>>
    ensures { Steps (with_table value.now (said_of said.old)) (said_of said.new) result }
{
    let Some((db, table)) = table_in(value) else {
        return Err(Refusal::Wrong { word: value });
    };
    if !is_one_more(said.tables.as_slice(), db, table) {
        return Err(Refusal::Wrong { word: value });
    }
    said.tables.push((db, table));
    Ok(())
}

// One more option that a server that listens has alone.
fn with_number<'a>(word: &'a str, value: &'a str, said: &mut Options<'a>) -> Result<(), Refusal<'a>>
    ensures { Steps (with_number servers.Listen word.now value.now (said_of said.old)) (said_of said.new) result }
{
    match word {
        "--port" => with_port(word, value, said),
        "--workers" => with_workers(word, value, said),
        "--clients" => with_clients(word, value, said),
        "--sessions" => with_sessions(word, value, said),
        _ => Err(Refusal::Wrong { word }),
    }
}

fn with_port<'a>(word: &'a str, value: &'a str, said: &mut Options<'a>) -> Result<(), Refusal<'a>>
    ensures { Steps (with_port word.now value.now (said_of said.old)) (said_of said.new) result }
{
    let port = number_once(word, value, said.port.is_none(), 1, 65_535)?;
    said.port = Some(port as u16);
    Ok(())
}

fn with_workers<'a>(
    word: &'a str,
    value: &'a str,
    said: &mut Options<'a>,
) -> Result<(), Refusal<'a>>
    ensures { Steps (with_workers word.now value.now (said_of said.old)) (said_of said.new) result }
{
    let workers = number_once(word, value, said.workers.is_none(), 1, 64)?;
    said.workers = Some(workers as u32);
    Ok(())
}

fn with_clients<'a>(
    word: &'a str,
    value: &'a str,
    said: &mut Options<'a>,
) -> Result<(), Refusal<'a>>
    ensures { Steps (with_clients word.now value.now (said_of said.old)) (said_of said.new) result }
{
    let clients = number_once(word, value, said.clients.is_none(), 1, 4096)?;
    said.clients = Some(clients as u32);
    Ok(())
}

fn with_sessions<'a>(
    word: &'a str,
    value: &'a str,
    said: &mut Options<'a>,
) -> Result<(), Refusal<'a>>
    ensures { Steps (with_sessions word.now value.now (said_of said.old)) (said_of said.new) result }
{
    let sessions = number_once(word, value, said.sessions.is_none(), 1, 4_294_967_295)?;
    said.sessions = Some(sessions);
    Ok(())
}

// The number that an option says for the first time, or why it doesn't.
fn number_once<'a>(
    word: &'a str,
    value: &'a str,
    is_first: bool,
    least: u64,
    most: u64,
) -> Result<u64, Refusal<'a>>
    ensures said { Numbers (number_once word.now value.now is_first least most) result }
    ensures within { IfOk result (λ n. n ≤ most) }
{
    if !is_first {
        return Err(Refusal::Wrong { word });
    }
    number_or(value, least, most)
}

// The number in a word, or why it isn't right.
pub(crate) fn number_or<'a>(word: &'a str, least: u64, most: u64) -> Result<u64, Refusal<'a>>
    ensures said { Numbers (within_or word.now least most) result }
    ensures within { IfOk result (λ n. n ≤ most) }
{
    match number_within(word, least, most) {
        Some(number) => Ok(number),
        None => Err(Refusal::NotWithin { word, least, most }),
    }
}

// The words end at an option.
fn lacks_value<'a>(word: &'a str, said: &Options<'a>) -> Refusal<'a>
    ensures { lacks_value word.now (said_of said.now) ≡ refused result }
{
    if word == "--key" && said.key.is_none() {
        return missing(Wanted::Key);
    }
    if word == "--table" {
        return missing(Wanted::TableName);
    }
    if word == "--password" && said.no_password() {
        return missing(Wanted::Password);
    }
    if word == "--password-file" && said.no_password() {
        return missing(Wanted::PasswordFile);
    }
    match said.server {
        Server::Stdio => Refusal::Wrong { word },
        Server::Listen => lacks_number(word, said),
    }
}

// The words of a server that listens end at an option that others haven't.
fn lacks_number<'a>(word: &'a str, said: &Options<'a>) -> Refusal<'a>
    ensures { lacks_number servers.Listen word.now (said_of said.now) ≡ refused result }
{
    if word == "--port" && said.port.is_none() {
        return missing(Wanted::Port);
    }
    if word == "--workers" && said.workers.is_none() {
        return missing(Wanted::Workers);
    }
    if word == "--clients" && said.clients.is_none() {
        return missing(Wanted::Clients);
    }
    if word == "--sessions" && said.sessions.is_none() {
        return missing(Wanted::Sessions);
    }
    Refusal::Wrong { word }
}

// The words end where this is wanted.
pub(crate) fn missing<'a>(what: Wanted) -> Refusal<'a>
    ensures { Missing what ≡ refused result }
{
    Refusal::Missing { what }
}

// What an option says, and nothing where it isn't said.
fn said_or_none(said: Option<&str>) -> &str
    ensures { result.now ≡ unwrap_or (option_map (λ k. k.now) said.entry) [] }
{
    match said {
        Some(said) => said,
        None => "",
    }
}
