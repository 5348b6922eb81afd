// Items that go out of a ring at its front, and in again.
ghost use Rattle.std.specs.Prelude.{◌≡◌, ◌<◌, ◌≤◌, ◌+◌, ◌*◌, ◌++◌, length, take, drop, is_ok, IfOk, if◌then◌else◌, min};
ghost use Rattle.circular_buffer.specs.Buffer.{buffer};

use circular_buffer::HeapCircularBuffer;
use reql_memory::Memory;
use std::alloc::Global;

/// Takes the oldest items out, so many.
pub fn take_front<X: Drop>(
    alloc: Global,
    ring: &mut HeapCircularBuffer<X>,
    count: usize,
) -> Result<Vec<X>, Memory>
    requires { count ≤ length ring.old.items }
    ensures taken { IfOk result (λ v. v.items ≡ take count ring.old.items) }
    ensures ring { ring.new
        ≡ (if is_ok result then buffer (drop count ring.old.items) ring.old.capacity else ring.old) }
{
    let mut taken = Vec::with_capacity(alloc, count)?;
    while taken.len() < count {
        match ring.pop_front() {
            Some(item) => taken.push_reserved(item),
            None => unreachable!(),
        }
    }
    Ok(taken)
}

/// Puts items in front of those that wait.
pub fn put_front<X: Drop>(ring: &mut HeapCircularBuffer<X>, items: Vec<X>)
    requires { length items.items + length ring.old.items ≤ ring.old.capacity }
    ensures { ring.new ≡ buffer (items.items ++ ring.old.items) ring.old.capacity }
{
    let mut items = items;
    while let Some(item) = items.pop() {
        match ring.try_push_front(item) {
            Ok(()) => {}
            Err(_) => unreachable!(),
        }
    }
}

/// The capacity to grow to: what is wanted, and twice what was there where the most allows it.
pub fn grown(capacity: usize, wanted: usize, most: usize) -> usize
    requires { (capacity < wanted) × (wanted ≤ most) }
    ensures { (wanted ≤ result) × (result ≤ most) × (result ≤ 2 * wanted) }
{
    capacity.saturating_mul(2).max(wanted).min(most)
}
