// What a server says when clients can connect to it.
use std::alloc::Global;
use std::io;

// The tables, as the words name them.
fn put_tables(text: &mut String, tables: &[(&str, &str)]) -> io::Result<()> {
    let mut mark = "";
    for (db, table) in tables {
        text.push_str(mark)?;
        text.push_str(db)?;
        text.push_str(".")?;
        text.push_str(table)?;
        mark = ", ";
    }
    if tables.is_empty() {
        text.push_str("none")?;
    }
    Ok(())
}

// Who may connect.
fn who(has_key: bool, has_password: bool) -> &'static str {
    match (has_key, has_password) {
        (false, false) =>
            "everyone on this machine may connect: there is no --password and no --key",
        (false, true) =>
            "who logs in has to know the password, but there is no --key: everyone on this machine may connect by V0_4",
        (true, false) =>
            "who greets by V0_4 has to bring the key, but there is no --password: everyone on this machine may log in by V1_0",
        (true, true) =>
            "who logs in has to know the password, and who greets by V0_4 to bring the key",
    }
}

/// The first line of a server that listens: its address, how many clients it serves at once, its tables, and who may connect.
pub fn opening_line(
    alloc: Global,
    port: u16,
    clients: u32,
    key: &str,
    password: &str,
    tables: &[(&str, &str)],
) -> io::Result<Option<String>> {
    let mut text = format!(in alloc;
        "reqld: listening on 127.0.0.1:{port}, serving {clients} clients at once (--clients); tables: "
    )?;
    put_tables(&mut text, tables)?;
    text.push_str("; ")?;
    text.push_str(who(!key.is_empty(), !password.is_empty()))?;
    Ok(Some(text))
}
