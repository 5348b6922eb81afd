// The words of the command line.
ghost use Rattle.std.specs.Prelude.{◌≡◌, ◌≤◌, true, IfSome};
ghost use Rattle.std.specs.List.{list_all};
ghost use Rattle.reql_query.specs.Words.{Fits, FitsCredential, FitsServer, FitsTable, IsName, IsRight, Says, is_name_byte};

/// What the words ask for.
#[derive(Clone, Copy)]
pub enum Command<'a> {
    /// Ask the server by these bodies: where there are none, by those that stand on the standard input, a line each.
    Ask {
        server: Server<'a>,
        bodies: &'a [String],
    },
    /// Print each document of this table.
    Dump {
        server: Server<'a>,
        table: Table<'a>,
    },
    /// Insert the documents on the standard input, a line each, into this table.
    Restore {
        server: Server<'a>,
        table: Table<'a>,
    },
    /// Say how to use the program.
    Help,
    /// Nothing: this word can't stand where it does.
    Wrong {
        word: &'a str,
    },
    /// Nothing: this word is no port.
    NoPort {
        word: &'a str,
    },
    /// Nothing: this word names no table.
    NoTable {
        word: &'a str,
    },
    /// Nothing: the key is longer than a server takes.
    LongKey,
    /// Nothing: the words end behind this option, which has a value.
    Missing {
        option: &'a str,
    },
    /// Nothing: the words end, and this is missing.
    Untold {
        wanted: &'a str,
    },
}

/// A server at a port of 127.0.0.1, 1 to 65535, and how it is entered.
#[derive(Clone, Copy)]
pub struct Server<'a> {
    pub port: u16,
    pub credential: Credential<'a>,
}

/// How a server is entered.
#[derive(Clone, Copy)]
pub enum Credential<'a> {
    /// By this authorization key, of at most 1024 bytes.
    Key(&'a str),
    /// By a login with this password.
    Password(&'a str),
    /// By a login with the password that is the first line of this file.
    PasswordFile(&'a str),
}

/// A table, and the database that it is in.
#[derive(Clone, Copy)]
pub struct Table<'a> {
    pub database: &'a str,
    pub name: &'a str,
}

// The commands.
#[derive(Clone, Copy, PartialEq, Eq)]
enum Verb {
    Query,
    Dump,
    Restore,
}

// The port of a server that was told no other.
const USUAL_PORT: u16 = 28_015;

// The longest key that a server takes.
const LONGEST_KEY: usize = 1024;

// The longest name of a database or table.
const LONGEST_NAME: usize = 127;

// What the options so far have said.
#[derive(Clone, Copy)]
pub(crate) struct Said<'a> {
    pub port: Option<u16>,
    pub credential: Option<Credential<'a>>,
    pub table: Option<Table<'a>>,
}

// The number of a port, in digits without a sign or a needless zero.
fn port_of(word: &str) -> Option<u16>
    ensures { IfSome result (λ port. 1 ≤ port) }
{
    if !word.bytes().all(|byte| byte.is_ascii_digit()) || word.starts_with('0') {
        return None;
    }
    match word.parse::<u16>() {
        Ok(port) if port > 0 => Some(port),
        _ => None,
    }
}

fn is_name_byte(byte: u8) -> bool
    ensures { result ≡ is_name_byte byte }
{
    (65 <= byte && byte <= 90)
        || (97 <= byte && byte <= 122)
        || (48 <= byte && byte <= 57)
        || byte == 95
        || byte == 45
}

fn are_name_bytes(text: &[u8]) -> bool
    ensures { result ≡ list_all is_name_byte text.now }
{
    text.iter().all(|byte| is_name_byte(*byte))
}

// Whether a text is a name of a database or table.
fn is_name(text: &str) -> bool
    ensures { result ≡ true → IsName text.now }
{
    if text.is_empty() || text.len() > LONGEST_NAME {
        return false;
    }
    are_name_bytes(text.as_bytes())
}

// The table that a word names, `DB.NAME`.
fn table_of(word: &str) -> Option<Table<'_>>
    ensures { IfSome result FitsTable }
{
    let (database, name) = word.split_once('.')?;
    if is_name(database) && is_name(name) {
        return Some(Table { database, name });
    }
    None
}

// What is said once the port is said by this word.
fn say_port<'a>(said: Said<'a>, word: &'a str) -> Result<Said<'a>, Command<'a>>
    requires { IsRight said }
    ensures { Says result }
{
    match port_of(word) {
        Some(port) => Ok(Said {
            port: Some(port),
            credential: said.credential,
            table: said.table,
        }),
        None => Err(Command::NoPort { word }),
    }
}

// What is said once the table is said by this word.
fn say_table<'a>(said: Said<'a>, word: &'a str) -> Result<Said<'a>, Command<'a>>
    requires { IsRight said }
    ensures { Says result }
{
    match table_of(word) {
        Some(table) => Ok(Said {
            port: said.port,
            credential: said.credential,
            table: Some(table),
        }),
        None => Err(Command::NoTable { word }),
    }
}

// What is said once it is said how the server is entered.
fn say_credential<'a>(said: Said<'a>, credential: Credential<'a>) -> Result<Said<'a>, Command<'a>>
    requires right { IsRight said }
    requires fits { FitsCredential credential }
    ensures { Says result }
{
    Ok(Said {
        port: said.port,
        credential: Some(credential),
        table: said.table,
    })
}

// What is said once the key is said.
fn say_key<'a>(said: Said<'a>, key: &'a str) -> Result<Said<'a>, Command<'a>>
    requires { IsRight said }
    ensures { Says result }
{
    if key.len() > LONGEST_KEY {
        return Err(Command::LongKey);
    }
    say_credential(said, Credential::Key(key))
}

// What is said once this option has this value, where it can be one of any command.
fn say<'a>(said: Said<'a>, option: &'a str, value: &'a str) -> Result<Said<'a>, Command<'a>>
    requires { IsRight said }
    ensures { Says result }
{
    if option == "--port" && said.port.is_none() {
        return say_port(said, value);
    }
    if option == "--table" && said.table.is_none() {
        return say_table(said, value);
    }
    if said.credential.is_some() {
        return Err(Command::Wrong { word: option });
    }
    if option == "--key" {
        return say_key(said, value);
    }
    if option == "--password" {
        return say_credential(said, Credential::Password(value));
    }
    if option == "--password-file" {
        return say_credential(said, Credential::PasswordFile(value));
    }
    Err(Command::Wrong { word: option })
}

fn port_in(said: Said<'_>) -> u16
    requires { IsRight said }
    ensures { 1 ≤ result }
{
    match said.port {
        Some(port) => port,
        None => USUAL_PORT,
    }
}

fn credential_in<'a>(said: Said<'a>) -> Credential<'a>
    requires { IsRight said }
    ensures { FitsCredential result }
{
    match said.credential {
        Some(credential) => credential,
        None => Credential::Key(""),
    }
}

fn server_in<'a>(said: Said<'a>) -> Server<'a>
    requires { IsRight said }
    ensures { FitsServer result }
{
    Server {
        port: port_in(said),
        credential: credential_in(said),
    }
}

fn asked<'a>(said: Said<'a>, bodies: &'a [String]) -> Command<'a>
    requires { IsRight said }
    ensures { Fits result }
{
    if said.table.is_some() {
        return Command::Wrong { word: "--table" };
    }
    Command::Ask {
        server: server_in(said),
        bodies,
    }
}

// What is asked for by a command with a table, once all its options are said.
fn on_table<'a>(verb: Verb, said: Said<'a>) -> Command<'a>
    requires { IsRight said }
    ensures { Fits result }
{
    let Some(table) = said.table else {
        return Command::Untold { wanted: "a table" };
    };
    let server = server_in(said);
    if verb == Verb::Dump {
        return Command::Dump { server, table };
    }
    Command::Restore { server, table }
}

// An option, its value, and the words behind it.
fn option_in(words: &[String]) -> Option<(&str, &str, &[String])> {
    let (word, behind) = words.split_first()?;
    if let Some((option, value)) = word.as_str().split_once('=') {
        return Some((option, value, behind));
    }
    let (value, behind) = behind.split_first()?;
    Some((word.as_str(), value.as_str(), behind))
}

fn begins_with_dash(word: &str) -> bool {
    word.starts_with('-')
}

// What the words behind the options of `query` ask for.
fn behind_options<'a>(said: Said<'a>, words: &'a [String]) -> Command<'a>
    requires { IsRight said }
    ensures { Fits result }
{
    let Some((word, behind)) = words.split_first() else {
        return asked(said, words);
    };
    if word.as_str() == "--" {
        return asked(said, behind);
    }
    if !begins_with_dash(word.as_str()) {
        return asked(said, words);
    }
    lacking(word.as_str())
}

// What the words behind some options ask for.
fn behind<'a>(verb: Verb, said: Said<'a>, words: &'a [String]) -> Command<'a>
    requires { IsRight said }
    ensures { Fits result }
{
    if verb == Verb::Query {
        return behind_options(said, words);
    }
    match words.first() {
        Some(word) => lacking(word.as_str()),
        None => on_table(verb, said),
    }
}

// Whether an option begins here, and not the bodies.
fn begins_option(words: &[String]) -> bool {
    match words.first() {
        Some(word) => begins_with_dash(word.as_str()) && word.as_str() != "--",
        None => false,
    }
}

// What the words behind a command ask for.
fn options_of<'a>(verb: Verb, words: &'a [String]) -> Command<'a>
    ensures { Fits result }
{
    let mut said = Said {
        port: None,
        credential: None,
        table: None,
    };
    let mut rest = words;
    for _ in 0..words.len() {
        if !begins_option(rest) {
            break;
        }
        let Some((option, value, behind)) = option_in(rest) else {
            break;
        };
        match say(said, option, value) {
            Ok(more) => said = more,
            Err(command) => return command,
        }
        rest = behind;
    }
    behind(verb, said, rest)
}

fn verb_of(word: &str) -> Option<Verb> {
    match word {
        "query" => Some(Verb::Query),
        "dump" => Some(Verb::Dump),
        "restore" => Some(Verb::Restore),
        _ => None,
    }
}

fn is_help(words: &[String]) -> bool {
    match words {
        [word] => word.as_str() == "--help" || word.as_str() == "-h",
        _ => false,
    }
}

/// What the words ask for: `query`, `dump` or `restore`, and behind it options in any order and each once, and of `query` then
/// `[--] [BODY..]`; or `--help` or `-h` alone, or behind a command. `--port=P` is taken as `--port P`. It takes no memory.
pub fn command_of(words: &[String]) -> Command<'_>
    ensures { Fits result }
{
    if is_help(words) {
        return Command::Help;
    }
    let Some((word, behind)) = words.split_first() else {
        return Command::Untold {
            wanted: "a command",
        };
    };
    if is_help(behind) {
        return Command::Help;
    }
    match verb_of(word.as_str()) {
        Some(verb) => options_of(verb, behind),
        None => Command::Wrong {
            word: word.as_str(),
        },
    }
}

// The words end behind one that begins with a dash, or it is one that can't stand there.
fn lacking(word: &str) -> Command<'_>
    ensures { Fits result }
{
    match word {
        "--port" | "--table" | "--key" | "--password" | "--password-file" => {
            Command::Missing { option: word }
        }
        _ => Command::Wrong { word },
    }
}
