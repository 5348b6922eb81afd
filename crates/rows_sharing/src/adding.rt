ghost use Rattle.std.specs.Prelude.{◌≡◌, ℕ, ◌+◌, ◌<◌, ◌^◌, All, IfOk, length};
ghost use Rattle.reql_shared.specs.Machine.{replay};
ghost use Rattle.rows_sharing.specs.Adding.{adding};

use crate::adder::Adder;
use reql_memory::Memory;
use reql_shared::{Final, Pass, Shared};
use std::alloc::Global;
use std::sync::Wait;
use std::thread;
use std::thread::Threads;

// Adds a number so many times.
fn add<R: Wait>(rt: &R, shared: &Shared<Adder>, pass: &mut Pass<Adder>, number: u64, times: u32)
    requires { pass.old.object ≡ shared.now }
    ensures { pass.new.object ≡ pass.old.object }
{
    for _ in 0..times {
        let _ = shared.run(rt, pass, number);
    }
}

/// Two threads add a number each, so many times, and then meet.
pub fn add_by_two<R: Threads + Wait + Sync>(
    rt: &R,
    alloc: Global,
    numbers: (u64, u64),
    times: u32,
) -> Result<(Final<Adder>, Pass<Adder>, Pass<Adder>), Memory>
    ensures state { IfOk result (λ r. (r.0.engine.sum, r.0.engine.count)
        ≡ replay adding (0, 0) r.0.history) }
    ensures seen { IfOk result (λ r. (r.1.seen ≡ r.0.history) × (r.2.seen ≡ r.0.history)) }
{
    let (shared, mut passes) = Shared::new(alloc, Adder { sum: 0, count: 0 }, 2)?;
    let Some(mut second) = passes.pop() else {
        unreachable!()
    };
    let Some(mut first) = passes.pop() else {
        unreachable!()
    };
    let all = &shared;
    thread::join_mut(
        rt,
        &mut || add(rt, all, &mut first, numbers.0, times),
        &mut || add(rt, all, &mut second, numbers.1, times),
    );
    shared.meet(&mut first, &mut second);
    let mut last = shared.close(rt);
    last.check(&mut first);
    last.check(&mut second);
    Ok((last, first, second))
}
