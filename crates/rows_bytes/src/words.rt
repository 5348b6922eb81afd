use reql_words::{Command, Refusal, Wanted, command_of, with_password};
use std::alloc::Global;
use std::test::Fail;

// Words of a load, and what they ask for.
const LOADS: [(&[&str], &str); 10] = [
    (&["load", "0", "1"], "load 0 1"),
    (&["load", "1000000", "20000"], "load 1000000 20000"),
    (&["load"], "a seed is missing"),
    (&["load", "7"], "a size is missing"),
    (&["load", "1000001", "400"], "`1000001` isn't 0 to 1000000"),
    (&["load", "07", "400"], "`07` isn't 0 to 1000000"),
    (&["load", "--key", "k"], "`--key` isn't 0 to 1000000"),
    (&["load", "7", "0"], "`0` isn't 1 to 20000"),
    (&["load", "7", "20001"], "`20001` isn't 1 to 20000"),
    (&["load", "7", "400", "--key"], "wrong `--key`"),
];

// Words, and what they ask for, as `shown` says it.
const CASES: [(&[&str], &str); 81] = [
    (&[], "a command is missing"),
    (&["--help"], "help"),
    (&["--help", "stdio"], "wrong `stdio`"),
    (&["-h"], "help"),
    (&["-h", "-h"], "wrong `-h`"),
    (
        &[
            "listen",
            "--quiet",
            "--port=1",
            "--key=a=b",
            "--table=a.b",
            "--workers=2",
            "--sessions=3",
            "--password=p ~",
        ],
        "listen 1 2 1024 3 `a=b` `p ~` quiet a/b",
    ),
    (&["listen", "--port="], "`` isn't 1 to 65535"),
    (&["listen", "--verbose=1"], "wrong `--verbose`"),
    (&["listen", "--quiet", "--quiet"], "wrong `--quiet`"),
    (&["listen", "--quiet=yes"], "wrong `--quiet`"),
    (&["stdio", "--quiet"], "wrong `--quiet`"),
    (&["stdio", "--password"], "a password is missing"),
    (&["stdio", "--password", ""], "stdio ``"),
    (&["stdio", "--password", "é"], "a bad password"),
    (&["stdio", "--password=a\nb"], "a bad password"),
    (
        &["stdio", "--password", "", "--password", "b"],
        "wrong `--password`",
    ),
    (&["stdio", "--password-file"], "a file is missing"),
    (&["listen", "--password-file", "f"], "the password in `f`"),
    (
        &["stdio", "--password-file=f", "--password=b"],
        "wrong `--password`",
    ),
    (
        &["stdio", "--password=b", "--password-file=f"],
        "wrong `--password-file`",
    ),
    (&["--version"], "version"),
    (&["--version", "--help"], "wrong `--help`"),
    (&[""], "wrong ``"),
    (
        &["listen", "--port", "28015"],
        "listen 28015 4 1024 4294967295 ``",
    ),
    (
        &[
            "listen",
            "--table",
            "b.z",
            "--sessions",
            "4294967295",
            "--key",
            "k",
            "--workers",
            "64",
            "--table",
            "a.y",
            "--port",
            "65535",
        ],
        "listen 65535 64 1024 4294967295 `k` b/z a/y",
    ),
    (
        &["listen", "--port", "1", "--workers", "1", "--sessions", "1"],
        "listen 1 1 1024 1 ``",
    ),
    (&["listen"], "listen 28015 4 1024 4294967295 ``"),
    (
        &["listen", "--workers", "2"],
        "listen 28015 2 1024 4294967295 ``",
    ),
    (&["listen", "--port"], "a port is missing"),
    (&["listen", "--port", "1", "--port"], "wrong `--port`"),
    (&["listen", "--port", "1", "--port", "1"], "wrong `--port`"),
    (&["listen", "--workers"], "a number of workers is missing"),
    (
        &["listen", "--workers", "1", "--workers"],
        "wrong `--workers`",
    ),
    (
        &["listen", "--workers", "1", "--workers", "1"],
        "wrong `--workers`",
    ),
    (&["listen", "--sessions"], "a number of sessions is missing"),
    (
        &["listen", "--sessions", "1", "--sessions"],
        "wrong `--sessions`",
    ),
    (
        &["listen", "--sessions", "1", "--sessions", "1"],
        "wrong `--sessions`",
    ),
    (&["listen", "28015"], "wrong `28015`"),
    (&["listen", "--port", "28015", "stdio"], "wrong `stdio`"),
    (&["listen", "--help", "1"], "wrong `--help`"),
    (&["listen", "--port", "0"], "`0` isn't 1 to 65535"),
    (&["listen", "--port", "65536"], "`65536` isn't 1 to 65535"),
    (&["listen", "--port", ""], "`` isn't 1 to 65535"),
    (&["listen", "--port", "028015"], "`028015` isn't 1 to 65535"),
    (&["listen", "--port", "+1"], "`+1` isn't 1 to 65535"),
    (&["listen", "--port", "-1"], "`-1` isn't 1 to 65535"),
    (&["listen", "--port", "1e3"], "`1e3` isn't 1 to 65535"),
    (&["listen", "--port", "١"], "`١` isn't 1 to 65535"),
    (
        &["listen", "--port", "18446744073709551617"],
        "`18446744073709551617` isn't 1 to 65535",
    ),
    (&["listen", "--workers", "0"], "`0` isn't 1 to 64"),
    (&["listen", "--workers", "65"], "`65` isn't 1 to 64"),
    (&["listen", "--sessions", "0"], "`0` isn't 1 to 4294967295"),
    (
        &["listen", "--sessions", "4294967296"],
        "`4294967296` isn't 1 to 4294967295",
    ),
    (&["listen", "--table", "docs"], "wrong `docs`"),
    (&["stdio", "--workers"], "wrong `--workers`"),
    (&["--key", "k", "stdio"], "wrong `--key`"),
    (&["stdio"], "stdio ``"),
    (&["stdio", "docs"], "wrong `docs`"),
    (&["stdio", "--help"], "wrong `--help`"),
    (&["stdio", "--help", "--table"], "wrong `--help`"),
    (&["stdio", "--port", "28015"], "wrong `--port`"),
    (&["stdio", "--key"], "a key is missing"),
    (&["stdio", "--key", ""], "stdio ``"),
    (&["stdio", "--key", "--table"], "stdio `--table`"),
    (&["stdio", "--key", "k", "--key"], "wrong `--key`"),
    (&["stdio", "--key", "", "--key", "k"], "wrong `--key`"),
    (&["stdio", "--table"], "a table is missing"),
    (
        &["stdio", "--table", "test.docs", "--table"],
        "a table is missing",
    ),
    (&["stdio", "--table", "test.docs"], "stdio `` test/docs"),
    (
        &[
            "stdio", "--table", "b.z", "--key", "k", "--table", "a.y", "--table", "b.y",
        ],
        "stdio `k` b/z a/y b/y",
    ),
    (
        &["stdio", "--table", "-A_z.09", "--table", "-A_z.9"],
        "stdio `` -A_z/09 -A_z/9",
    ),
    (
        &[
            "stdio", "--table", "a.b", "--table", "b.a", "--table", "a.b",
        ],
        "wrong `a.b`",
    ),
    (&["stdio", "--table", ""], "wrong ``"),
    (&["stdio", "--table", "docs"], "wrong `docs`"),
    (&["stdio", "--table", "."], "wrong `.`"),
    (&["stdio", "--table", ".docs"], "wrong `.docs`"),
    (&["stdio", "--table", "test."], "wrong `test.`"),
    (&["stdio", "--table", "a.b.c"], "wrong `a.b.c`"),
    (&["stdio", "--table", "a b.c"], "wrong `a b.c`"),
    (&["stdio", "--table", "a.é"], "wrong `a.é`"),
    (&["stdio", "--table", "--key"], "wrong `--key`"),
];

// How long the key and the name of each table are, how many tables there are, and how what is asked
// for begins.
const LIMITS: [(usize, usize, u32, &str); 4] = [
    (1024, 127, 256, "stdio `nn"),
    (1025, 127, 256, "wrong `nn"),
    (1024, 128, 256, "wrong `0.nn"),
    (1024, 127, 257, "wrong `256.nn"),
];

fn missing(what: Wanted) -> &'static str {
    match what {
        Wanted::Command => "a command is missing",
        Wanted::Key => "a key is missing",
        Wanted::TableName => "a table is missing",
        Wanted::Password => "a password is missing",
        Wanted::PasswordFile => "a file is missing",
        Wanted::Port => "a port is missing",
        Wanted::Workers => "a number of workers is missing",
        Wanted::Clients => "a number of clients is missing",
        Wanted::Sessions => "a number of sessions is missing",
        Wanted::Seed => "a seed is missing",
        Wanted::Size => "a size is missing",
    }
}

fn with_tables(alloc: Global, text: String, tables: &[(&str, &str)]) -> Result<String, Fail> {
    let mut text = text;
    for (db, table) in tables {
        text.push_str(&format!(in alloc; " {db}/{table}")?)?;
    }
    Ok(text)
}

// A password, where it isn't empty, and whether it is quiet.
fn with_words(alloc: Global, text: String, password: &str, quiet: bool) -> Result<String, Fail> {
    let mut text = text;
    if !password.is_empty() {
        text.push_str(&format!(in alloc; " `{password}`")?)?;
    }
    if quiet {
        text.push_str(" quiet")?;
    }
    Ok(text)
}

fn shown(alloc: Global, command: &Command<'_>) -> Result<String, Fail> {
    match command {
        Command::Stdio {
            key,
            password,
            tables,
        } => {
            let text = format!(in alloc; "stdio `{key}`")?;
            let text = with_words(alloc, text, password, false)?;
            with_tables(alloc, text, tables.as_slice())
        }
        Command::Listen {
            port,
            workers,
            clients,
            sessions,
            key,
            password,
            quiet,
            tables,
        } => {
            let text = format!(in alloc; "listen {port} {workers} {clients} {sessions} `{key}`")?;
            let text = with_words(alloc, text, password, *quiet)?;
            with_tables(alloc, text, tables.as_slice())
        }
        Command::PasswordFile { path } => Ok(format!(in alloc; "the password in `{path}`")?),
        Command::Load { seed, size } => Ok(format!(in alloc; "load {seed} {size}")?),
        Command::Help => Ok(String::from_str(alloc, "help")?),
        Command::Version => Ok(String::from_str(alloc, "version")?),
        Command::Refused(Refusal::Wrong { word }) => Ok(format!(in alloc; "wrong `{word}`")?),
        Command::Refused(Refusal::NotWithin { word, least, most }) => {
            Ok(format!(in alloc; "`{word}` isn't {least} to {most}")?)
        }
        Command::Refused(Refusal::BadPassword) => Ok(String::from_str(alloc, "a bad password")?),
        Command::Refused(Refusal::Missing { what }) => {
            Ok(String::from_str(alloc, missing(*what))?)
        }
    }
}

fn asked(alloc: Global, words: &[String]) -> Result<String, Fail> {
    shown(alloc, &command_of(words))
}

fn list(alloc: Global, words: &[&str]) -> Result<Vec<String>, Fail> {
    let mut list = Vec::new(alloc);
    for word in words {
        list.push(String::from_str(alloc, word)?)?;
    }
    Ok(list)
}

// A name of so many bytes.
fn long(alloc: Global, bytes: usize) -> Result<String, Fail> {
    let mut name = String::new(alloc);
    for _ in 0..bytes {
        name.push('n')?;
    }
    Ok(name)
}

// Words with a key and with so many tables, each of this name in a database of its own.
fn many(alloc: Global, key: &str, name: &str, tables: u32) -> Result<Vec<String>, Fail> {
    let mut words = list(alloc, &["stdio", "--key", key])?;
    for number in 0..tables {
        words.push(String::from_str(alloc, "--table")?)?;
        words.push(format!(in alloc; "{number}.{name}")?)?;
    }
    Ok(words)
}

#[test]
fn words_ask_for_commands_within_their_limits(rt: HostRuntime) -> Result<(), Fail> {
    let alloc = rt.alloc();
    for (words, expected) in CASES {
        let words = list(alloc, words)?;
        assert_eq!(rt; asked(alloc, &words)?.as_str(), expected);
    }
    for (key, name, tables, begins) in LIMITS {
        let (key, name) = (long(alloc, key)?, long(alloc, name)?);
        let words = many(alloc, &key, &name, tables)?;
        assert!(rt; asked(alloc, &words)?.starts_with(begins), "{begins}");
    }
    Ok(())
}

// Words that say how many clients are served at once, and what is asked for.
const CLIENTS: [(&[&str], &str); 6] = [
    (
        &["listen", "--clients", "4096"],
        "listen 28015 4 4096 4294967295 ``",
    ),
    (&["listen", "--clients"], "a number of clients is missing"),
    (
        &["listen", "--clients", "1", "--clients", "1"],
        "wrong `--clients`",
    ),
    (&["listen", "--clients", "0"], "`0` isn't 1 to 4096"),
    (&["listen", "--clients", "4097"], "`4097` isn't 1 to 4096"),
    (&["stdio", "--clients"], "wrong `--clients`"),
];

#[test]
fn words_say_how_many_clients_there_are(rt: HostRuntime) -> Result<(), Fail> {
    let alloc = rt.alloc();
    for (words, expected) in CLIENTS {
        let words = list(alloc, words)?;
        assert_eq!(rt; asked(alloc, &words)?.as_str(), expected);
    }
    Ok(())
}

// How long a password is, and what is asked for.
const PASSWORDS: [(usize, &str); 2] = [(256, "stdio `` `nnn"), (257, "a bad password")];

#[test]
fn passwords_have_at_most_256_characters(rt: HostRuntime) -> Result<(), Fail> {
    let alloc = rt.alloc();
    for (bytes, begins) in PASSWORDS {
        let password = long(alloc, bytes)?;
        let words = list(alloc, &["stdio", "--password", &password])?;
        assert!(rt; asked(alloc, &words)?.starts_with(begins), "{begins}");
    }
    Ok(())
}

// Words that name a file, and words in which the password `p` stands in its place.
const TOLD: [(&[&str], &[&str]); 3] = [
    (&[], &[]),
    (
        &[
            "listen",
            "--key",
            "--password-file",
            "--password-file",
            "f",
            "--quiet",
            "--table=a.b",
        ],
        &[
            "listen",
            "--key",
            "--password-file",
            "--password",
            "p",
            "--quiet",
            "--table=a.b",
        ],
    ),
    (&["stdio", "--password-file=f"], &["stdio", "--password=p"]),
];

#[test]
fn a_password_is_told_in_place_of_its_file(rt: HostRuntime) -> Result<(), Fail> {
    let alloc = rt.alloc();
    for (words, expected) in TOLD {
        let words = list(alloc, words)?;
        assert_eq!(rt; with_password(alloc, &words, "p")?, list(alloc, expected)?);
    }
    Ok(())
}

#[test]
fn words_ask_for_a_load(rt: HostRuntime) -> Result<(), Fail> {
    let alloc = rt.alloc();
    for (words, expected) in LOADS {
        let words = list(alloc, words)?;
        assert_eq!(rt; asked(alloc, &words)?.as_str(), expected);
    }
    Ok(())
}
