// One read and one write, tried again where a signal cuts them off.
ghost use Rattle.std.specs.Prelude.{◌≤◌, length, IfSome};

use std::io::{ErrorKind, Read, Write};

/// One read: how many bytes came, or none for an error.
pub(crate) fn read_some<R: Read>(input: &mut R, buf: &mut [u8]) -> Option<usize>
    ensures { IfSome result (λ n. n ≤ length buf.old) }
{
    for _ in 0..u64::MAX {
        match input.read(buf) {
            Ok(n) => return Some(n),
            Err(e) if e.kind() == ErrorKind::Interrupted => {}
            Err(_) => return None,
        }
    }
    None
}

/// One write: how many bytes were taken, or 0 for an error.
pub(crate) fn write_some<W: Write>(output: &mut W, piece: &[u8]) -> usize
    ensures { result ≤ length piece.now }
{
    for _ in 0..u64::MAX {
        match output.write(piece) {
            Ok(n) => return n,
            Err(e) if e.kind() == ErrorKind::Interrupted => {}
            Err(_) => return 0,
        }
    }
    0
}
