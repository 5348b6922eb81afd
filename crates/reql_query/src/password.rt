// The password in a file.
ghost use Rattle.std.specs.Prelude.{◌≡◌};
ghost use Rattle.std.specs.List.{before_first, position};
ghost use Rattle.reql_query.specs.Line.{is_line_end};

use std::fs::File;
use std::io::{ErrorKind, Read};
use std::str;

// So many bytes of a file are looked at.
const MOST_BYTES: u64 = 1024;

/// Why a file gives no password.
#[derive(Clone, Copy, Debug, PartialEq, Eq)]
pub enum Unread {
    /// It can't be read.
    File,
    /// Its first line is empty, or no UTF-8.
    Line,
    Memory,
}

fn reason(kind: ErrorKind) -> Unread {
    if kind == ErrorKind::OutOfMemory {
        return Unread::Memory;
    }
    Unread::File
}

// The bytes before the first end of a line, or all of them.
fn first_line(bytes: &[u8]) -> &[u8]
    ensures { result.now ≡ before_first is_line_end bytes.now }
{
    match line_end(bytes) {
        Some(end) => &bytes[..end],
        None => bytes,
    }
}

fn line_end(bytes: &[u8]) -> Option<usize>
    ensures { result ≡ position is_line_end bytes.now }
{
    bytes
        .iter()
        .position(|byte| *byte == b'\n' || *byte == b'\r')
}

/// The first line of a file, without its end.
pub fn password_in(rt: &HostRuntime, path: &str) -> Result<String, Unread> {
    let alloc = rt.alloc();
    let mut bytes = Vec::new(alloc);
    let file = match File::open(rt, path) {
        Ok(file) => file,
        Err(error) => return Err(reason(error.kind())),
    };
    if let Err(error) = file.take(MOST_BYTES).read_to_end(&mut bytes) {
        return Err(reason(error.kind()));
    }
    match str::from_utf8(first_line(&bytes)) {
        Ok(line) if !line.is_empty() => match String::from_str(alloc, line) {
            Ok(password) => Ok(password),
            Err(_) => Err(Unread::Memory),
        },
        _ => Err(Unread::Line),
    }
}
