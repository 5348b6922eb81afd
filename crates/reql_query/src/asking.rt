// A body, and all its answers.
ghost use Rattle.std.specs.Prelude.{◌<◌, ◌^◌, length};

use crate::printing::{Shown, show};
use crate::status::Loss;
use reql_client::{Asked, Client};
use reql_outside::{Link, Sink};
use std::alloc::Global;

// The request for what follows.
const CONTINUE: &[u8] = b"[2]";

// The most requests that follow one body.
const MOST_REQUESTS: u64 = 1 << 60;

/// How a body ended.
#[derive(Drop)]
pub enum Ran<L: Link> {
    /// All its results are printed.
    Answered(Client<L>),
    /// It was answered by a fault, which this line tells. What came before is printed.
    Faulted(Client<L>, String),
    /// There is no client any more.
    Lost(Loss),
}

// How a request ended.
#[derive(Drop)]
enum Turn<L: Link> {
    /// Its results are printed, and a CONTINUE brings others.
    More(Client<L>),
    /// Nothing follows.
    Ended(Ran<L>),
}

// Asks by a request, and prints each result of its answer as a line of JSON.
fn ask_once<L: Link + Drop, K: Sink>(
    alloc: Global,
    client: Client<L>,
    token: u64,
    request: &[u8],
    out: &mut K,
) -> Turn<L>
    requires { length request.now < 2 ^ 32 }
{
    match client.ask(token, request) {
        Asked::Lost(_link, fault) => Turn::Ended(Ran::Lost(Loss::Client(fault))),
        Asked::Answer(client, answer) => match show(alloc, &answer, out) {
            Shown::More => Turn::More(client),
            Shown::Whole => Turn::Ended(Ran::Answered(client)),
            Shown::Fault(line) => Turn::Ended(Ran::Faulted(client, line)),
            Shown::Lost(loss) => Turn::Ended(Ran::Lost(loss)),
        },
    }
}

// Asks by CONTINUE until nothing follows, and prints each result as a line of JSON.
fn go_on<L: Link + Drop, K: Sink>(
    alloc: Global,
    client: Client<L>,
    token: u64,
    out: &mut K,
) -> Ran<L> {
    let mut client = client;
    for _ in 0..MOST_REQUESTS {
        match ask_once(alloc, client, token, CONTINUE, out) {
            Turn::More(next) => client = next,
            Turn::Ended(ran) => return ran,
        }
    }
    Ran::Answered(client)
}

/// Asks by a body, and then by CONTINUE until nothing follows, and prints each result as a line of JSON.
pub fn ask_all<L: Link + Drop, K: Sink>(
    alloc: Global,
    client: Client<L>,
    token: u64,
    body: &[u8],
    out: &mut K,
) -> Ran<L>
    requires { length body.now < 2 ^ 32 }
{
    match ask_once(alloc, client, token, body, out) {
        Turn::More(client) => go_on(alloc, client, token, out),
        Turn::Ended(ran) => ran,
    }
}
