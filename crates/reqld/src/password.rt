// The password in a file.
ghost use Rattle.std.specs.Prelude.{◌≡◌};
ghost use Rattle.std.specs.List.{before_first, position};
ghost use Rattle.reqld.specs.Line.{is_line_end};

use crate::messages::out_of_memory;
use std::fs::File;
use std::io::{ErrorKind, Read};
use std::process::ExitCode;
use std::str;

// A longer first line is no password.
const MOST_BYTES: u64 = 1024;

/// Why a file gives no password.
#[derive(Clone, Copy, Debug, PartialEq, Eq)]
pub enum Unread {
    /// It can't be read.
    File,
    /// Its first line is no password: it is empty, has more than 256 characters, or one of them is no printable one
    /// of ASCII.
    Line,
    Memory,
}

fn reason(kind: ErrorKind) -> Unread {
    if kind == ErrorKind::OutOfMemory {
        return Unread::Memory;
    }
    Unread::File
}

// The bytes before the first end of a line, or all of them.
fn first_line(bytes: &[u8]) -> &[u8]
    ensures { result.now ≡ before_first is_line_end bytes.now }
{
    match line_end(bytes) {
        Some(end) => &bytes[..end],
        None => bytes,
    }
}

fn line_end(bytes: &[u8]) -> Option<usize>
    ensures { result ≡ position is_line_end bytes.now }
{
    bytes
        .iter()
        .position(|byte| *byte == b'\n' || *byte == b'\r')
}

/// The first line of a file, without its end.
pub fn password_in(rt: &HostRuntime, path: &str) -> Result<String, Unread> {
    let alloc = rt.alloc();
    let mut bytes = Vec::new(alloc);
    let file = match File::open(rt, path) {
        Ok(file) => file,
        Err(error) => return Err(reason(error.kind())),
    };
    if let Err(error) = file.take(MOST_BYTES).read_to_end(&mut bytes) {
        return Err(reason(error.kind()));
    }
    match str::from_utf8(first_line(&bytes)) {
        Ok(line) if !line.is_empty() => match String::from_str(alloc, line) {
            Ok(password) => Ok(password),
            Err(_) => Err(Unread::Memory),
        },
        _ => Err(Unread::Line),
    }
}

/// Says on standard error why a file gives no password, and nothing of what stands in it.
pub fn no_password(rt: &HostRuntime, path: &str, why: Unread) -> ExitCode {
    let _ = match why {
        Unread::Memory => return out_of_memory(rt),
        Unread::File => eprintln!(rt; "reqld: the file of --password-file, {path}, can't be read"),
        Unread::Line => eprintln!(rt;
            "reqld: the first line of {path} is no password: it has 1 to 256 printable ASCII characters"
        ),
    };
    ExitCode::from(2)
}
