// Workers made of posts and desks, and taken apart again.
ghost use Rattle.std.specs.Prelude.{◌≡◌, ◌<◌, ◌≤◌, [], ⊤, All, IfErr, IfOk, length, map};
ghost use Rattle.std.specs.List.{AllZip};
ghost use Rattle.reql_serve.specs.Working.{IsThere};
ghost use Rattle.reql_serve.specs.Many.{share_of, shares_of};

use crate::many::Left;
use crate::worker::{WorkState, Worker};
use reql_catalog::Catalogue;
use reql_hall::Desk;
use reql_memory::{Memory, Refused};
use reql_net::{Door, Post};
use reql_outside::Link;
use reql_session::Bench;
use reql_table_spec::TableEngine;
use std::alloc::Global;

// The share of the worker of this number in so many sessions.
fn share(sessions: u64, workers: u64, number: u64) -> u64
    requires { 0 < workers }
    ensures { result ≡ share_of sessions workers number }
{
    let each = sessions / workers;
    if number < sessions % workers {
        each + 1
    } else {
        each
    }
}

// A worker that has served nobody.
fn seat<C: TableEngine, G: Door, D, T>(
    alloc: Global,
    post: Post<G, D, T>,
    desk: Desk<C, Catalogue>,
    share: u64,
) -> Worker<C, G, D, T>
    ensures door { result.door ≡ post.door }
    ensures outside { IsThere result.bench (λ b. (b.clock ≡ post.clock) × (b.dice ≡ post.dice)) }
    ensures desk { IsThere result.bench (λ b. b.desk ≡ desk) }
    ensures left { result.left ≡ share }
    ensures unused { result.ended.items ≡ [] }
{
    let Post { door, dice, clock } = post;
    Worker {
        door,
        bench: Some(Bench { desk, clock, dice }),
        left: share,
        ended: Vec::new(alloc),
        state: WorkState::Ready,
    }
}

/// A worker for each post, at the desk of its place, with its share of so many sessions. An `Err` hands the posts back as they
/// came.
pub(crate) fn seat_all<C: TableEngine + Drop, G: Door + Drop, D: Drop, T: Drop>(
    alloc: Global,
    posts: Vec<Post<G, D, T>>,
    desks: Vec<Desk<C, Catalogue>>,
    sessions: u64,
) -> Result<Vec<Worker<C, G, D, T>>, Refused<Vec<Post<G, D, T>>>>
where
    <G::Link as Link>::Record: Drop,
    requires count { length desks.items ≡ length posts.items }
    ensures posts { IfOk result (λ workers. AllZip (λ p w. (w.door ≡ p.door)
        × IsThere w.bench (λ b. (b.clock ≡ p.clock) × (b.dice ≡ p.dice))) posts.items workers.items) }
    ensures desks { IfOk result (λ workers. AllZip (λ d w. IsThere w.bench (λ b. b.desk ≡ d))
        desks.items workers.items) }
    ensures shares { IfOk result (λ workers. map (λ w. w.left) workers.items
        ≡ shares_of sessions (length posts.items)) }
    ensures unused { IfOk result (λ workers. All (λ w. w.ended.items ≡ []) workers.items) }
    ensures back { IfErr result (λ refused. refused.back ≡ posts) }
{
    let count = posts.len() as u64;
    let Ok(mut workers) = Vec::with_capacity(alloc, posts.len()) else {
        return Err(Refused { back: posts });
    };
    let mut free = desks.into_iter();
    for post in posts {
        let Some(desk) = free.next() else {
            unreachable!()
        };
        let most = share(sessions, count, workers.len() as u64);
        workers.push_reserved(seat(alloc, post, desk, most));
    }
    Ok(workers)
}

/// What is left of workers, in their order: how each ended, and their desks.
#[derive(Drop)]
pub(crate) struct Parted<C: TableEngine, G: Door> {
    pub(crate) left: Vec<Left<G>>,
    pub(crate) desks: Vec<Desk<C, Catalogue>>,
}

impl<C: TableEngine + Drop, G: Door + Drop> Parted<C, G>
where
    <G::Link as Link>::Record: Drop,
{
    /// Nothing, with room for so many workers.
    pub(crate) fn with_room(alloc: Global, workers: usize) -> Result<Self, Memory>
        ensures empty { IfOk result (λ p. (p.left.items ≡ []) × (p.desks.items ≡ [])) }
        ensures room { IfOk result (λ p. (workers ≤ p.left.cap) × (workers ≤ p.desks.cap)) }
    {
        let Ok(left) = Vec::with_capacity(alloc, workers) else {
            return Err(Memory);
        };
        let Ok(desks) = Vec::with_capacity(alloc, workers) else {
            return Err(Memory);
        };
        Ok(Parted { left, desks })
    }
}

// The desk of a bench that is there.
fn desk_of<C: TableEngine + Drop, D: Drop, T: Drop>(
    bench: Option<Bench<C, D, T>>,
) -> Desk<C, Catalogue>
    requires there { IsThere bench (λ b. ⊤) }
    ensures { IsThere bench (λ b. result ≡ b.desk) }
{
    let Some(bench) = bench else { unreachable!() };
    let Bench { desk, .. } = bench;
    desk
}

/// Takes workers apart, in the room that is there.
pub(crate) fn part<C: TableEngine + Drop, G: Door + Drop, D: Drop, T: Drop>(
    workers: Vec<Worker<C, G, D, T>>,
    room: Parted<C, G>,
) -> Parted<C, G>
where
    <G::Link as Link>::Record: Drop,
    requires there { All (λ w. IsThere w.bench (λ b. ⊤)) workers.items }
    requires empty { (room.left.items ≡ []) × (room.desks.items ≡ []) }
    requires room { (length workers.items ≤ room.left.cap) × (length workers.items ≤ room.desks.cap) }
    ensures left { AllZip (λ w l. (l.door ≡ w.door) × (l.ended ≡ w.ended) × (l.left ≡ w.left) × (l.state ≡ w.state))
        workers.items result.left.items }
    ensures desks { AllZip (λ w d. IsThere w.bench (λ b. d ≡ b.desk)) workers.items result.desks.items }
{
    let Parted {
        left: mut ends,
        mut desks,
    } = room;
    for worker in workers {
        let Worker {
            door,
            bench,
            left,
            ended,
            state,
        } = worker;
        desks.push_reserved(desk_of(bench));
        ends.push_reserved(Left {
            door,
            ended,
            left,
            state,
        });
    }
    Parted { left: ends, desks }
}
