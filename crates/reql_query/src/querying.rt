// `query`: bodies, one after another.
ghost use Rattle.std.specs.Prelude.{◌<◌, ◌^◌, length};

use crate::asking::{Ran, ask_all};
use crate::line::{Unasked, body_in};
use crate::messages::{Voice, say_fault, say_loss, say_memory, say_unasked, say_unread};
use crate::status::{ANSWERED, FAULTED, Loss, UNREAD, status_of};
use reql_client::Client;
use reql_dial::DialedLink;
use reql_outside::StdSink;

// What a line came to.
#[derive(Drop)]
enum Asked {
    /// The client is there for the next, with the status so far.
    Next(Client<DialedLink>, u8),
    /// It is there no more, and the program ends with this status.
    Ended(u8),
}

// Asks by a body, the one of this number.
fn ask_body(voice: Voice, client: Client<DialedLink>, status: u8, number: u64, body: &[u8]) -> Asked
    requires { length body.now < 2 ^ 32 }
{
    match ask_all(
        voice.rt.alloc(),
        client,
        number,
        body,
        &mut StdSink::new(voice.rt),
    ) {
        Ran::Answered(client) => Asked::Next(client, status),
        Ran::Faulted(client, fault) => {
            say_fault(voice, number, fault.as_str());
            Asked::Next(client, FAULTED)
        }
        Ran::Lost(loss) => {
            say_loss(voice, &loss);
            Asked::Ended(status_of(&loss))
        }
    }
}

// Asks by a line, the one of this number.
fn ask_line(
    voice: Voice,
    client: Client<DialedLink>,
    status: u8,
    number: u64,
    line: &str,
) -> Asked {
    match body_in(voice.rt.alloc(), line) {
        Ok(Some(body)) => ask_body(voice, client, status, number, body.as_slice()),
        Ok(None) => Asked::Next(client, status),
        Err(Unasked::Memory) => {
            say_memory(voice);
            Asked::Ended(status_of(&Loss::Memory))
        }
        Err(why) => {
            say_unasked(voice, number, line, why);
            Asked::Next(client, FAULTED)
        }
    }
}

/// Asks by these bodies, one after another.
pub fn ask_words(voice: Voice, client: Client<DialedLink>, bodies: &[String]) -> u8 {
    let mut client = client;
    let mut status = ANSWERED;
    let mut number = 0u64;
    for body in bodies {
        number = number.saturating_add(1);
        match ask_line(voice, client, status, number, body.as_str()) {
            Asked::Next(next, now) => {
                client = next;
                status = now;
            }
            Asked::Ended(status) => return status,
        }
    }
    status
}

/// Asks by the lines of the standard input, as they come.
pub fn ask_input(voice: Voice, client: Client<DialedLink>) -> u8 {
    let mut client = client;
    let mut status = ANSWERED;
    let mut number = 0u64;
    for line in voice.rt.lines(voice.rt.alloc()) {
        number = number.saturating_add(1);
        let Ok(line) = line else {
            say_unread(voice, number);
            return UNREAD;
        };
        match ask_line(voice, client, status, number, line.as_str()) {
            Asked::Next(next, now) => {
                client = next;
                status = now;
            }
            Asked::Ended(status) => return status,
        }
    }
    status
}
