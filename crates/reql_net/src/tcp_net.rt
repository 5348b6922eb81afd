// Doors and nets over TCP on the loopback address.
ghost use Rattle.std.specs.Prelude.{◌≡◌, length, false, IfOk, IfSome};
ghost use Rattle.std.specs.List.{All};
ghost use Rattle.reql_outside.specs.Tape.{IsFresh};
ghost use Rattle.reql_net.specs.Doors.{untouched};
ghost use Rattle.reql_net.specs.Nets.{IsUntouched, unasked};

use crate::asked::Asked;
use crate::crowd::Crowd;
use crate::door::{Accept, Door, Parting, Rest};
use crate::gate::{Gate, Knock};
use crate::lanes::Lanes;
use crate::net::{Net, NetFault, Post};
use crate::tcp::{TcpLink, TcpRecord};
use crate::tcp_watch::TcpWatch;
use mio::net::{TcpListener, TcpStream};
use reql_outside::{OsClock, OsDice};
use std::alloc::Global;
use std::io::{self, ErrorKind};
use std::marker::Model;
use std::net::{Ipv4Addr, SocketAddr, SocketAddrV4};
use std::sync::Arc;

/// The door of one worker: it takes its clients from the listener that all doors of a net share.
#[derive(Drop)]
pub struct TcpDoor {
    rt: HostRuntime,
    gate: Arc<Gate, Global>,
    lanes: Arc<Lanes, Global>,
    // the client of its last link, until its session ends
    client: Option<SocketAddr>,
    gave: u64,
    broken: bool,
    faults: u64,
}

impl Model for TcpDoor {
    ghost use Rattle.reql_net.specs.Doors.{DoorTold};

    ghost Value = { DoorTold };

    ghost view = { λ d. record { gave = d.gave; over = d.broken; broken = d.broken; faults = d.faults } };
}

// The listener is of no use any more.
struct Closed;

impl TcpDoor {
    /// The port of the listener.
    pub fn port(&self) -> io::Result<u16> {
        self.gate.port()
    }

    fn link(&self, stream: TcpStream) -> io::Result<TcpLink>
        ensures { IfOk result (λ l. IsFresh l) }
    {
        let lanes = Arc::try_clone(&self.lanes)?;
        let link = TcpLink::new(self.rt, stream, lanes)?;
        Ok(link)
    }

    // The next client that is there and can be set up. One that left again, or that can't be, is passed over.
    fn next_link(&self) -> Result<Option<(TcpLink, SocketAddr)>, Closed>
        ensures { IfOk result (λ found. IfSome found (λ l. IsFresh l.0)) }
    {
        for _ in 0..u64::MAX {
            match self.gate.take() {
                Knock::Client(stream, client) => {
                    if let Ok(link) = self.link(stream) {
                        return Ok(Some((link, client)));
                    }
                }
                Knock::Nobody => return Ok(None),
                Knock::Broken => return Err(Closed),
            }
        }
        Ok(None)
    }
}

impl Door for TcpDoor {
    type Link = TcpLink;

    type Watch = TcpWatch;

    ghost told = { λ d. d };

    fn watch(&self, alloc: Global, places: usize) -> Option<TcpWatch> {
        let gate = Arc::try_clone(&self.gate).ok()?;
        let lanes = Arc::try_clone(&self.lanes).ok()?;
        TcpWatch::new(self.rt, alloc, gate, lanes, places).ok()?
    }

    fn accept(&mut self) -> Accept<TcpLink> {
        match self.next_link() {
            Ok(Some((link, client))) => {
                self.gate.crowd.enters();
                self.client = Some(client);
                self.gave = self.gave.saturating_add(1);
                Accept::Link(link)
            }
            Ok(None) => Accept::Idle,
            Err(Closed) => {
                self.broken = true;
                self.faults = self.faults.saturating_add(1);
                Accept::Failed
            }
        }
    }

    fn leaves(&mut self, kept: &TcpRecord, how: Parting)
        ensures still { self.new ≡ self.old }
    {
        if let Some(client) = self.client.take() {
            self.gate
                .crowd
                .leaves(&self.rt, client, how, kept.late, kept.unsent);
        }
    }

    fn rests(&mut self, why: Rest)
        ensures still { self.new ≡ self.old }
    {
        self.gate.crowd.shrinks(&self.rt, why);
    }
}

/// A net over TCP on the address 127.0.0.1. The doors of one call share a listener, and all threads that serve links of the
/// net wake one another where a table changes. It isn't sound, as the dice and the clock of the system aren't.
///
/// It may tell what comes of its clients: a line on standard error for each that is refused or ends by a fault, for workers
/// that end, and at most once a minute that a client was turned away since all workers are taken.
#[derive(Drop)]
pub struct TcpNet {
    rt: HostRuntime,
    lanes: Arc<Lanes, Global>,
    // what is said when clients can connect, where the net tells anything
    opening: Option<String>,
    told: Asked,
}

impl Model for TcpNet {
    ghost use Rattle.std.specs.Prelude.{false};
    ghost use Rattle.reql_net.specs.Nets.{NetTold, told_of};

    ghost Value = { NetTold };

    ghost view = { λ n. told_of n.told false };
}

impl TcpNet {
    /// The net of this machine. It tells of its clients where it has a line to begin with.
    pub fn new(rt: HostRuntime, opening: Option<String>) -> io::Result<TcpNet>
        ensures { IfOk result (λ n. n ≡ unasked false) }
    {
        let alloc = rt.alloc();
        let lanes = Arc::new(alloc, Lanes::new(alloc)?)?;
        Ok(TcpNet {
            rt,
            lanes,
            opening,
            told: Asked::new(),
        })
    }

    fn door(&self, gate: &Arc<Gate, Global>) -> io::Result<TcpDoor>
        ensures { IfOk result (λ d. d ≡ untouched) }
    {
        Ok(TcpDoor {
            rt: self.rt,
            gate: Arc::try_clone(gate)?,
            lanes: Arc::try_clone(&self.lanes)?,
            client: None,
            gave: 0,
            broken: false,
            faults: 0,
        })
    }

    // Clients can connect from now on.
    fn tell(&self) {
        if let Some(line) = &self.opening {
            let _ = eprintln!(self.rt; "{line}");
        }
    }

    // The listener of a port, behind which so many clients are served at once.
    fn gate(&self, alloc: Global, port: u16, n: u32) -> io::Result<Arc<Gate, Global>> {
        let address = SocketAddr::V4(SocketAddrV4::new(Ipv4Addr::LOCALHOST, port));
        let listener = TcpListener::bind(&self.rt, address)?;
        let crowd = Crowd::new(&self.rt, self.opening.is_some(), n)?;
        let gate = Arc::new(alloc, Gate::new(listener, crowd))?;
        Ok(gate)
    }

    fn post(&self, gate: &Arc<Gate, Global>) -> io::Result<Post<TcpDoor, OsDice, OsClock>>
        ensures { IfOk result (λ post. post.door ≡ untouched) }
    {
        let door = self.door(gate)?;
        Ok(Post {
            door,
            dice: OsDice::new(self.rt),
            clock: OsClock::new(self.rt),
        })
    }

    fn posts(
        &self,
        alloc: Global,
        port: u16,
        n: u32,
    ) -> io::Result<Vec<Post<TcpDoor, OsDice, OsClock>>>
        ensures count { IfOk result (λ posts. length posts.items ≡ n) }
        ensures untouched { IfOk result (λ posts. All (IsUntouched (λ d. d)) posts.items) }
    {
        let gate = self.gate(alloc, port, n)?;
        let mut posts = Vec::new(alloc);
        for _ in 0..n {
            posts.push(self.post(&gate)?)?;
        }
        Ok(posts)
    }
}

impl Net for TcpNet {
    type Door = TcpDoor;

    type Dice = OsDice;

    type Clock = OsClock;

    ghost told = { λ n. n };

    fn doors(
        &mut self,
        alloc: Global,
        port: u16,
        n: u32,
    ) -> Result<Vec<Post<TcpDoor, OsDice, OsClock>>, NetFault> {
        self.told.ask(port, n);
        match self.posts(alloc, port, n) {
            Ok(posts) => {
                self.told.give(n);
                self.tell();
                Ok(posts)
            }
            Err(e) if e.kind() == ErrorKind::OutOfMemory => Err(NetFault::Memory),
            Err(_) => {
                self.told.fail();
                Err(NetFault::Failed)
            }
        }
    }
}
