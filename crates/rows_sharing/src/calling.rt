ghost use Rattle.std.specs.Prelude.{◌≡◌, ℕ, ◌<◌, All, IfOk, IfSome, ◌≤◌, [], length};
ghost use Rattle.reql_shared.specs.Machine.{replay};
ghost use Rattle.rows_sharing.specs.Calling.{calling};

use crate::caller::Callers;
use reql_memory::{Memory, Seq};
use reql_shared::{Final, Pass, Shared};
use std::alloc::Global;
use std::sync::Wait;
use std::thread;
use std::thread::Threads;

/// Two passes in one thread, and the answers that they were given.
#[derive(Drop)]
pub struct Worker {
    pub first: Pass<Callers>,
    pub second: Pass<Callers>,
    pub looks: Vec<Seq<u64>>,
}

// A worker with the last two passes.
fn next_pair(
    alloc: Global,
    shared: &Shared<Callers>,
    passes: &mut Vec<Pass<Callers>>,
) -> Option<Worker>
    requires { All (λ p. p.object ≡ shared.now) passes.old.items }
    ensures rest { All (λ p. p.object ≡ shared.now) passes.new.items }
    ensures pair { IfSome result (λ w. (w.first.object ≡ shared.now)
        × (w.second.object ≡ shared.now)) }
{
    let second = passes.pop()?;
    let first = passes.pop()?;
    Some(Worker {
        first,
        second,
        looks: Vec::new(alloc),
    })
}

// Shares the passes out, two to a worker.
fn pair_up(
    alloc: Global,
    shared: &Shared<Callers>,
    mut passes: Vec<Pass<Callers>>,
    workers: u32,
) -> Result<Vec<Worker>, Memory>
    requires { All (λ p. p.object ≡ shared.now) passes.items }
    ensures { IfOk result (λ made. All (λ w. (w.first.object ≡ shared.now)
        × (w.second.object ≡ shared.now)) made.items) }
{
    let mut made = Vec::with_capacity(alloc, workers as usize).map_err(|_| Memory)?;
    for _ in 0..workers {
        let Some(worker) = next_pair(alloc, shared, &mut passes) else {
            return Ok(made);
        };
        made.push_reserved(worker);
    }
    Ok(made)
}

// One round: both passes call, and every fourth time one looks and the two meet.
fn call<R: Wait>(rt: &R, shared: &Shared<Callers>, worker: &mut Worker, round: u32)
    requires { (worker.old.first.object ≡ shared.now) × (worker.old.second.object ≡ shared.now) }
    ensures { (worker.new.first.object ≡ shared.now) × (worker.new.second.object ≡ shared.now) }
{
    let _ = shared.run(rt, &mut worker.first, ());
    let _ = shared.run(rt, &mut worker.second, ());
    if round % 4 == 0 {
        if let Ok(calls) = shared.look(rt, &mut worker.first, &()) {
            let _ = worker.looks.push(calls);
        }
        shared.meet(&mut worker.first, &mut worker.second);
    }
}

fn call_often<R: Wait>(rt: &R, shared: &Shared<Callers>, worker: &mut Worker, rounds: u32)
    requires { (worker.old.first.object ≡ shared.now) × (worker.old.second.object ≡ shared.now) }
    ensures { (worker.new.first.object ≡ shared.now) × (worker.new.second.object ≡ shared.now) }
{
    for round in 0..rounds {
        call(rt, shared, worker, round);
    }
}

// Each worker calls often, in as many threads as there are workers.
fn call_all<R: Threads + Wait + Sync>(
    rt: &R,
    shared: &Shared<Callers>,
    workers: &mut [Worker],
    rounds: u32,
)
    requires { All (λ w. (w.first.object ≡ shared.now) × (w.second.object ≡ shared.now))
        workers.old }
    ensures { All (λ w. (w.first.object ≡ shared.now) × (w.second.object ≡ shared.now))
        workers.new }
{
    let threads = workers.len().max(1);
    thread::for_each_mut(
        rt,
        workers,
        threads,
        &|_, worker| call_often(rt, shared, worker, rounds),
    );
}

// Shows each pass the whole history.
fn check_all(last: &mut Final<Callers>, workers: &mut [Worker])
    requires { All (λ w. (w.first.object ≡ last.old.object) × (w.second.object ≡ last.old.object))
        workers.old }
    ensures same { last.new ≡ last.old }
{
    for k in 0..workers.len() {
        let worker = &mut workers[k];
        last.check(&mut worker.first);
        last.check(&mut worker.second);
    }
}

/// So many threads call so often, each with two passes.
pub fn call_by_many<R: Threads + Wait + Sync>(
    rt: &R,
    alloc: Global,
    threads: u32,
    rounds: u32,
) -> Result<(Final<Callers>, Vec<Worker>), Memory>
    requires { (0 < threads) × (threads < 1000) }
    ensures state { IfOk result (λ r. r.0.engine.calls.items ≡ replay calling [] r.0.history) }
{
    let none = Callers {
        calls: Vec::new(alloc),
    };
    let (shared, passes) = Shared::new(alloc, none, 2 * threads)?;
    let mut workers = pair_up(alloc, &shared, passes, threads)?;
    call_all(rt, &shared, workers.as_mut_slice(), rounds);
    let mut last = shared.close(rt);
    check_all(&mut last, workers.as_mut_slice());
    Ok((last, workers))
}
