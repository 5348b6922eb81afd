// A client of a server.
ghost use Rattle.std.specs.Prelude.{◌≡◌, ◌≤◌, ◌<◌, ◌^◌, length, string_bytes, IfOk, IfSome};
ghost use Rattle.base64.specs.Engines.{standard};
ghost use Rattle.base64.specs.GeneralPurpose.{encode_of};
ghost use Rattle.reql_wire.specs.Frames.{spelling};
ghost use Rattle.reql_wire.specs.Greeting.{greeting_by};
ghost use Rattle.reql_client.specs.Calls.{Asks, IsIn, LogsIn, Opens};

use crate::entering::enter;
use crate::fault::ClientFault;
use crate::greeting::{Reception, greeting_by, meet};
use crate::limits::Limits;
use crate::listening::{Reply, listen};
use crate::reading::value_of;
use crate::turn::Entrant;
use base64::engine::general_purpose::STANDARD;
use reql_memory::Memory;
use reql_outside::{Link, send_all};
use reql_wire::{Feeder, put_frame};
use serde_json::Value;
use std::alloc::Global;
use std::marker::Model;

/// Each receive has room for so many bytes.
const RECEIVED_BYTES: usize = 65536;

/// A client whose greeting was accepted.
#[derive(Drop)]
pub struct Client<L: Link> {
    alloc: Global,
    link: L,
    feeder: Feeder,
    buf: Vec<u8>,
    turns: u64,
}

impl<L: Link> Model for Client<L> {
    ghost use Rattle.std.specs.Prelude.{◌≡◌, length};
    ghost use Rattle.reql_client.specs.Talking.{Talking};

    ghost Value = { Talking };

    ghost view = { λ c. record { tape = L.tape c.link; held = c.feeder.held; limit = c.feeder.limit; turns = c.turns } };

    ghost invariant = { λ c. length c.buf.items ≡ 65536 };
}

/// How opening a client ended.
#[derive(Drop)]
pub enum Opened<L: Link> {
    Ready(Client<L>),
    /// There is none, and the link is as it stands.
    Lost(L, ClientFault),
}

/// How asking ended.
#[derive(Drop)]
pub enum Asked<L: Link> {
    /// The answer, and the client for further requests.
    Answer(Client<L>, Value),
    /// There is none, and the link is as it stands.
    Lost(L, ClientFault),
}

fn buffer(alloc: Global) -> Option<Vec<u8>>
    ensures { IfSome result (λ buf. length buf.items ≡ 65536) }
{
    let buf = vec![in alloc; 0u8; RECEIVED_BYTES].ok()?;
    Some(buf)
}

fn room(alloc: Global, key: &[u8]) -> Option<(Vec<u8>, Vec<u8>)>
    requires { length key.now ≤ 1024 }
    ensures greeting { IfSome result (λ r. r.0.items ≡ greeting_by key.now) }
    ensures room { IfSome result (λ r. length r.1.items ≡ 65536) }
{
    let greeting = greeting_by(alloc, key).ok()?;
    let buf = buffer(alloc)?;
    Some((greeting, buf))
}

fn nonce_room(alloc: Global, roll: &[u8]) -> Option<(String, Vec<u8>)>
    ensures nonce { IfSome result (λ r. string_bytes r.0 ≡ encode_of standard roll.now) }
    ensures room { IfSome result (λ r. length r.1.items ≡ 65536) }
{
    let nonce = STANDARD.encode(alloc, roll).ok()?;
    let buf = buffer(alloc)?;
    Some((nonce, buf))
}

// A client of a server that let it in, where these bytes came behind its last message.
#[tactic(auto, unfolding(crate::specs::Calls::IsIn))]
fn let_in<L: Link>(alloc: Global, link: L, held: &[u8], buf: Vec<u8>, limits: &Limits) -> Opened<L>
    requires { length buf.items ≡ 65536 }
    ensures { IsIn L.tape (L.tape link) held.now limits.now.answer limits.now.turns result }
{
    let mut feeder = Feeder::new(alloc, limits.answer);
    if feeder.feed(held).is_err() {
        return Opened::Lost(link, ClientFault::Memory);
    }
    Opened::Ready(Client {
        alloc,
        link,
        feeder,
        buf,
        turns: limits.turns,
    })
}

fn frame_of(alloc: Global, token: u64, body: &[u8]) -> Result<Vec<u8>, Memory>
    requires { length body.now < 2 ^ 32 }
    ensures { IfOk result (λ out. out.items ≡ spelling (record { token = token; body = body.now })) }
{
    let mut out = Vec::new(alloc);
    match put_frame(&mut out, token, body) {
        Ok(()) => Ok(out),
        Err(_) => Err(Memory),
    }
}

impl<L: Link> Client<L> {
    /// Greets a server over a link by a key.
    pub fn open(alloc: Global, link: L, key: &[u8], limits: &Limits) -> Opened<L>
        requires { length key.now ≤ 1024 }
        ensures { Opens L.tape (L.tape link) key.now limits.now.answer limits.now.turns result }
    {
        let mut link = link;
        let Some((greeting, mut buf)) = room(alloc, key) else {
            return Opened::Lost(link, ClientFault::Memory);
        };
        if !send_all(&mut link, &greeting) {
            return Opened::Lost(link, ClientFault::WriteFault);
        }
        let mut feeder = Feeder::new(alloc, limits.answer);
        let turns = limits.turns;
        match meet(alloc, &mut link, &mut feeder, &mut buf, turns) {
            Reception::Welcome => Opened::Ready(Client {
                alloc,
                link,
                feeder,
                buf,
                turns,
            }),
            Reception::Refused(why) => Opened::Lost(link, ClientFault::Refused(why)),
            Reception::Strange => Opened::Lost(link, ClientFault::BadAnswer),
            Reception::Ended => Opened::Lost(link, ClientFault::Ended),
            Reception::ReadFault => Opened::Lost(link, ClientFault::ReadFault),
            Reception::Worn => Opened::Lost(link, ClientFault::Worn),
            Reception::Memory => Opened::Lost(link, ClientFault::Memory),
        }
    }

    /// Logs in at a server over a link, as the user `admin`: by a password, and by bytes of dice, another roll for each login. Their
    /// base64 is the client's nonce.
    pub fn log_in(
        alloc: Global,
        link: L,
        password: &[u8],
        roll: &[u8],
        limits: &Limits,
    ) -> Opened<L>
        ensures { LogsIn L.tape (L.tape link) password.now (encode_of standard roll.now) limits.now.answer limits.now.turns result }
    {
        let mut link = link;
        let Some((nonce, mut buf)) = nonce_room(alloc, roll) else {
            return Opened::Lost(link, ClientFault::Memory);
        };
        let turns = limits.turns;
        let entrant = Entrant {
            password,
            nonce: nonce.as_bytes(),
        };
        match enter(alloc, &mut link, &mut buf, entrant, turns) {
            Ok(held) => let_in(alloc, link, &held, buf, limits),
            Err(fault) => Opened::Lost(link, fault),
        }
    }

    /// Sends one request, and gives the JSON of the next answer with its token. Answers with other tokens are passed over.
    pub fn ask(self, token: u64, body: &[u8]) -> Asked<L>
        requires { length body.now < 2 ^ 32 }
        ensures { Asks L.tape self token body.now result }
    {
        let Client {
            alloc,
            mut link,
            mut feeder,
            mut buf,
            turns,
        } = self;
        let Ok(frame) = frame_of(alloc, token, body) else {
            return Asked::Lost(link, ClientFault::Memory);
        };
        if !send_all(&mut link, &frame) {
            return Asked::Lost(link, ClientFault::WriteFault);
        }
        match listen(&mut link, &mut feeder, &mut buf, token, turns) {
            Reply::Body(body) => match value_of(alloc, body.as_slice()) {
                Ok(Some(value)) => Asked::Answer(
                    Client {
                        alloc,
                        link,
                        feeder,
                        buf,
                        turns,
                    },
                    value,
                ),
                Ok(None) => Asked::Lost(link, ClientFault::BadAnswer),
                Err(_) => Asked::Lost(link, ClientFault::Memory),
            },
            Reply::TooLong { len } => Asked::Lost(link, ClientFault::TooLong { len }),
            Reply::Ended => Asked::Lost(link, ClientFault::Ended),
            Reply::ReadFault => Asked::Lost(link, ClientFault::ReadFault),
            Reply::Worn => Asked::Lost(link, ClientFault::Worn),
            Reply::Memory => Asked::Lost(link, ClientFault::Memory),
        }
    }

    /// Its link, as it stands. It takes no memory.
    pub fn into_link(self) -> L
        ensures { L.tape result ≡ self.tape }
    {
        let Client {
            alloc: _,
            link,
            feeder: _,
            buf: _,
            turns: _,
        } = self;
        link
    }
}
