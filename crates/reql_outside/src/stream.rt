ghost use Rattle.std.specs.Prelude.{◌≡◌, ◌<◌, ◌≤◌, length, take, IfSome, MatchOption};
ghost use Rattle.std.specs.Io.KnownBytes.{Appends, Consumes, IsAtEnd, Keeps};

use std::io::{ErrorKind, Read, Write};

/// One read, tried again where a signal cuts it off: how many bytes came, or none for an error.
pub(crate) fn read_some<R: Read>(input: &mut R, buf: &mut [u8]) -> Option<usize>
    ensures room { IfSome result (λ n. n ≤ length buf.old) }
    ensures bytes { MatchOption result (Keeps (R.remaining input.old) (R.remaining input.new))
        (λ n. Consumes (R.remaining input.old) (R.remaining input.new) (take n buf.new)) }
{
    for _ in 0..u64::MAX {
        match input.read(buf) {
            Ok(n) => return Some(n),
            Err(e) if e.kind() == ErrorKind::Interrupted => {}
            Err(_) => return None,
        }
    }
    None
}

/// One write, tried again where a signal cuts it off: how many bytes were taken, or none for an
/// error. A writer that takes nothing has an error.
fn write_some<W: Write>(output: &mut W, piece: &[u8]) -> Option<usize>
    ensures room { IfSome result (λ n. (1 ≤ n) × (n ≤ length piece.now)) }
    ensures bytes { MatchOption result (Keeps (W.contents output.old) (W.contents output.new))
        (λ n. Appends (W.contents output.old) (W.contents output.new) (take n piece.now)) }
{
    for _ in 0..u64::MAX {
        match output.write(piece) {
            Ok(0) => return None,
            Ok(n) => return Some(n),
            Err(e) if e.kind() == ErrorKind::Interrupted => {}
            Err(_) => return None,
        }
    }
    None
}

/// Writes the whole piece, or a front of it and then an error came: how many bytes were taken.
pub(crate) fn write_on<W: Write>(output: &mut W, piece: &[u8]) -> usize
    ensures room { result ≤ length piece.now }
    ensures bytes { Appends (W.contents output.old) (W.contents output.new)
        (take result piece.now) }
{
    let mut written = 0;
    while written < piece.len() {
        match write_some(output, &piece[written..]) {
            Some(n) => written += n,
            None => return written,
        }
    }
    written
}
