// A login, step by step.
ghost use Rattle.std.specs.Prelude.{◌<◌, length};
ghost use Rattle.reql_client.specs.Login.{Ends};

use crate::fault::ClientFault;
use crate::turn::{Entrant, Stage, Turn, turn_of};
use reql_outside::{Link, Recv, send_all};
use std::alloc::Global;

/// Logs in, and gives the bytes that came behind the last message.
pub(crate) fn enter<L: Link>(
    alloc: Global,
    link: &mut L,
    buf: &mut [u8],
    entrant: Entrant<'_>,
    turns: u64,
) -> Result<Vec<u8>, ClientFault>
    requires { 0 < length buf.old }
    ensures { Ends entrant.entry.password.now entrant.entry.nonce.now (L.tape link.old) (L.tape link.new) turns result }
{
    let mut stage = Stage::Begun;
    let mut held = Vec::new(alloc);
    let mut calls = 0;
    loop {
        match turn_of(alloc, entrant, &stage, &held) {
            Turn::Waits => {}
            Turn::Says {
                bytes,
                held: rest,
                next,
            } => {
                if !send_all(link, &bytes) {
                    return Err(ClientFault::WriteFault);
                }
                stage = next;
                held = rest;
                continue;
            }
            Turn::Enters(rest) => return Ok(rest),
            Turn::Refused(why) => return Err(ClientFault::Refused(why)),
            Turn::Lost => return Err(ClientFault::BadAnswer),
            Turn::Memory => return Err(ClientFault::Memory),
        }
        if calls >= turns {
            return Err(ClientFault::Worn);
        }
        match link.recv(buf) {
            Recv::Got(n) => {
                if held.extend_from_slice(&buf[..n]).is_err() {
                    return Err(ClientFault::Memory);
                }
                calls += 1;
            }
            Recv::Idle => calls += 1,
            Recv::End => return Err(ClientFault::Ended),
            Recv::Failed => return Err(ClientFault::ReadFault),
        }
    }
}
