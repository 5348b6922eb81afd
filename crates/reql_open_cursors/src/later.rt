// How many of a list are told after some more.
ghost use Rattle.std.specs.Prelude.{◌≡◌, ◌+◌, min};

/// A place that is so much later, or the end.
pub(crate) fn later(from: usize, more: u32, end: usize) -> usize
    ensures { result ≡ min (from + more) end }
{
    match from.checked_add(more as usize) {
        Some(next) => { if next < end { next } else { end } }
        None => end,
    }
}
