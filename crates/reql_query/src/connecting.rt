// Connecting to a server, and being let in.
ghost use Rattle.std.specs.Prelude.{◌≤◌, length};
ghost use Rattle.reql_query.specs.Words.{FitsServer};

use crate::messages::{Voice, say_loss, say_no_dice, say_no_password, say_unconnected};
use crate::password::password_in;
use crate::status::{Loss, UNCONNECTED, UNREAD, WORDS, status_of};
use crate::words::{Credential, Server};
use reql_client::{Client, Limits, Opened};
use reql_dial::{DialedLink, dial};
use reql_outside::{Dice, OsDice, Rolled};

// The client that a greeting or a login came to, or the status of its fault.
fn opened(voice: Voice, opened: Opened<DialedLink>) -> Result<Client<DialedLink>, u8> {
    match opened {
        Opened::Ready(client) => Ok(client),
        Opened::Lost(_link, fault) => {
            let loss = Loss::Client(fault);
            say_loss(voice, &loss);
            Err(status_of(&loss))
        }
    }
}

fn log_in(voice: Voice, link: DialedLink, password: &[u8]) -> Result<Client<DialedLink>, u8> {
    let Rolled::Bytes(roll) = OsDice::new(voice.rt).roll() else {
        say_no_dice(voice);
        return Err(UNREAD);
    };
    let limits = Limits::usual();
    opened(
        voice,
        Client::log_in(voice.rt.alloc(), link, password, &roll, &limits),
    )
}

fn greet(voice: Voice, link: DialedLink, key: &str) -> Result<Client<DialedLink>, u8>
    requires { length key.now ≤ 1024 }
{
    let limits = Limits::usual();
    opened(
        voice,
        Client::open(voice.rt.alloc(), link, key.as_bytes(), &limits),
    )
}

fn dialed(voice: Voice, port: u16) -> Result<DialedLink, u8> {
    match dial(&voice.rt, port) {
        Ok(link) => Ok(link),
        Err(error) => {
            say_unconnected(voice, port, error.kind());
            Err(UNCONNECTED)
        }
    }
}

fn log_in_by_file(voice: Voice, port: u16, path: &str) -> Result<Client<DialedLink>, u8> {
    match password_in(&voice.rt, path) {
        Ok(password) => {
            let link = dialed(voice, port)?;
            log_in(voice, link, password.as_bytes())
        }
        Err(why) => {
            say_no_password(voice, path, why);
            Err(WORDS)
        }
    }
}

/// Connects to a server, and greets it by a key or logs in by a password; or gives the status of what hindered that, once it is said.
pub fn connect(voice: Voice, server: Server<'_>) -> Result<Client<DialedLink>, u8>
    requires { FitsServer server }
{
    match server.credential {
        Credential::Key(key) => {
            let link = dialed(voice, server.port)?;
            greet(voice, link, key)
        }
        Credential::Password(password) => {
            let link = dialed(voice, server.port)?;
            log_in(voice, link, password.as_bytes())
        }
        Credential::PasswordFile(path) => log_in_by_file(voice, server.port, path),
    }
}
