// The turns of a login, each after its visits.
ghost use Rattle.std.specs.Prelude.{◌≡◌, ℕ, List, None, Ok, is_some, length, true};
ghost use Rattle.reql_login.specs.Fields.{first_text};
ghost use Rattle.reql_login.specs.Messages.{Whole, message_of};
ghost use Rattle.reql_login.specs.Turns.{Asked, Greeted};
ghost use Rattle.reql_scram.specs.Scram.{Account, client_first_of};
ghost use Rattle.reql_session_spec.specs.Logins.{account};
ghost use Rattle.reql_session_spec.specs.Tasks.{Talk};
ghost use Rattle.reql_session_api.specs.World.{AtWork};
ghost use Rattle.reql_turns.specs.Ears.{Exchanges, Hears, gate_of};
ghost use Rattle.reql_turns.specs.Logins.{AskedFor, FirstTurn, LastTurn, TurnsAway};
ghost use Rattle.reql_turns.specs.declared.ears.Phase.TheVariants as phases;

use crate::ears::{Ears, Phase};
use crate::handler::Handler;
use crate::receiving::receive_more;
use reql_login::{Message, asked, ended, first_text, hello, message_of};
use reql_memory::Memory;
use reql_outside::{Link, send_all};
use reql_scram::{Login, LoginFault, Proving};
use reql_session_spec::End;
use reql_wire::GreetFault;
use std::alloc::Global;

/// The one user.
const USER: &[u8] = b"admin";

/// What comes of a turn in which the client's first message is awaited.
#[derive(Drop)]
pub(crate) enum First {
    /// More is awaited.
    Waits,
    /// This is sent, after which so many bytes are used, and the proof is awaited.
    Asks {
        proving: Proving,
        message: Vec<u8>,
        used: usize,
    },
    /// It is refused, or memory was wanted.
    Refuses(LoginFault),
}

/// What comes of a turn in which the client's last message is awaited.
#[derive(Drop)]
pub(crate) enum Last {
    /// More is awaited.
    Waits(Proving),
    /// This is sent, after which so many bytes are used, and frames follow.
    Admits { message: Vec<u8>, used: usize },
    /// It is refused, or memory was wanted.
    Refuses(LoginFault),
}

// What the client is asked for, by a salt and a nonce that are rolled once its text is known to be one.
fn ask<H: Handler<L>, L: Link>(
    alloc: Global,
    handler: &mut H,
    text: &[u8],
) -> Result<(Proving, Vec<u8>), LoginFault>
    requires ready { H.ready handler.old }
    requires read { is_some (client_first_of text.now) ≡ true }
    ensures ready { H.ready handler.new }
    ensures hall { H.hall handler.new ≡ H.hall handler.old }
    ensures talk { H.talk handler.new ≡ H.talk handler.old }
    ensures asked { (held message rest : List ℕ) → message_of held ≡ Whole message rest → first_text message ≡ Ok text.now
        → AskedFor (account (H.talk handler.old)) held rest (H.work handler.old) (H.work handler.new) result }
{
    let Some(salt) = handler.roll() else {
        return Err(LoginFault::DiceFailed);
    };
    let Some(nonce) = handler.roll() else {
        return Err(LoginFault::DiceFailed);
    };
    let Ok(login) = Login::new(alloc, USER, handler.password()) else {
        return Err(LoginFault::Memory);
    };
    match asked(alloc, login, text, &salt, &nonce) {
        Ok(asked) => Ok(asked),
        Err(Memory) => Err(LoginFault::Memory),
    }
}

// What the client is asked for, once its first message is there, or why it is refused.
fn answer_first<H: Handler<L>, L: Link>(
    alloc: Global,
    handler: &mut H,
    message: &[u8],
) -> Result<(Proving, Vec<u8>), LoginFault>
    requires ready { H.ready handler.old }
    ensures ready { H.ready handler.new }
    ensures hall { H.hall handler.new ≡ H.hall handler.old }
    ensures talk { H.talk handler.new ≡ H.talk handler.old }
    ensures answered { (held rest : List ℕ) → message_of held ≡ Whole message.now rest
        → AskedFor (account (H.talk handler.old)) held rest (H.work handler.old) (H.work handler.new) result }
{
    match first_text(alloc, message) {
        Ok(text) => ask::<H, L>(alloc, handler, text.as_slice()),
        Err(fault) => Err(fault),
    }
}

// What comes of a turn in which the client's first message is awaited.
fn first_turn<H: Handler<L>, L: Link>(alloc: Global, handler: &mut H, held: &[u8]) -> First
    requires ready { H.ready handler.old }
    ensures ready { H.ready handler.new }
    ensures hall { H.hall handler.new ≡ H.hall handler.old }
    ensures talk { H.talk handler.new ≡ H.talk handler.old }
    ensures turned { FirstTurn (account (H.talk handler.old)) held.now (H.work handler.old) (H.work handler.new) result }
{
    match message_of(held) {
        Message::More => First::Waits,
        Message::Oversize => First::Refuses(LoginFault::Oversize),
        Message::Whole { message, used } => match answer_first::<H, L>(alloc, handler, message) {
            Ok((proving, message)) => First::Asks {
                proving,
                message,
                used,
            },
            Err(fault) => First::Refuses(fault),
        },
    }
}

// What comes of a turn in which the client's last message is awaited.
fn last_turn(alloc: Global, proving: Proving, held: &[u8]) -> Last
    ensures { (account : Account) → LastTurn account proving held.now result }
{
    match message_of(held) {
        Message::More => Last::Waits(proving),
        Message::Oversize => Last::Refuses(LoginFault::Oversize),
        Message::Whole { message, used } => match ended(alloc, proving, message) {
            Ok(message) => Last::Admits { message, used },
            Err(fault) => Last::Refuses(fault),
        },
    }
}

/// Says the first message, with which a login begins.
pub(crate) fn call<H: Handler<L>, L: Link>(link: &mut L, ears: &mut Ears) -> Option<End>
    ensures { (k : Talk H.Plan) → Hears k phases.Called (L.tape link.old) (L.tape link.new) ears.old
        ears.new result }
{
    if send_all(link, hello()) {
        ears.phase = Phase::Login;
        None
    } else {
        Some(End::WriteFault)
    }
}

// Says why a login is refused, with which the session ends. Where memory was wanted it ends without a word.
fn turn_away<L: Link>(link: &mut L, fault: LoginFault) -> End
    ensures { TurnsAway (L.tape link.old) (L.tape link.new) fault result }
{
    if fault == LoginFault::Memory {
        return End::Memory;
    }
    if send_all(link, fault.answer()) {
        End::Refused(GreetFault::Login(fault))
    } else {
        End::WriteFault
    }
}

// Says what is asked of the client, where its first message is there, or receives once.
fn exchange_first<H: Handler<L>, L: Link>(
    alloc: Global,
    link: &mut L,
    ears: &mut Ears,
    handler: &mut H,
    buf: &mut [u8],
) -> Option<End>
    requires room { length buf.old ≡ 65536 }
    requires ready { H.ready handler.old }
    requires first { ears.old.proving ≡ None }
    ensures ready { H.ready handler.new }
    ensures hall { H.hall handler.new ≡ H.hall handler.old }
    ensures talk { H.talk handler.new ≡ H.talk handler.old }
    ensures exchanged { Exchanges (H.talk handler.old) Greeted (L.tape link.old) (H.work handler.old) ears.old
        (L.tape link.new) (H.work handler.new) ears.new result }
{
    match first_turn::<H, L>(alloc, handler, ears.feeder.bytes()) {
        First::Waits => receive_more(link, &mut ears.feeder, buf),
        First::Asks {
            proving,
            message,
            used,
        } => {
            if !send_all(link, message.as_slice()) {
                return Some(End::WriteFault);
            }
            ears.feeder.pass_over(used);
            ears.proving = Some(proving);
            None
        }
        First::Refuses(fault) => Some(turn_away(link, fault)),
    }
}

// Admits the client, where its last message is there and right, or receives once.
fn exchange_last<H: Handler<L>, L: Link>(
    alloc: Global,
    link: &mut L,
    ears: &mut Ears,
    proving: Proving,
    buf: &mut [u8],
) -> Option<End>
    requires room { length buf.old ≡ 65536 }
    ensures { (k : Talk H.Plan) (w : AtWork) → Exchanges k (Asked proving) (L.tape link.old) w ears.old
        (L.tape link.new) w ears.new result }
{
    match last_turn(alloc, proving, ears.feeder.bytes()) {
        Last::Waits(proving) => {
            ears.proving = Some(proving);
            receive_more(link, &mut ears.feeder, buf)
        }
        Last::Admits { message, used } => {
            if !send_all(link, message.as_slice()) {
                return Some(End::WriteFault);
            }
            ears.feeder.pass_over(used);
            ears.phase = Phase::Over;
            None
        }
        Last::Refuses(fault) => Some(turn_away(link, fault)),
    }
}

/// The turn of a login whose version was answered: the client's message is answered where it is there, and else something
/// is received. What handles frames stays ready.
pub(crate) fn exchange<H: Handler<L>, L: Link>(
    alloc: Global,
    link: &mut L,
    ears: &mut Ears,
    handler: &mut H,
    buf: &mut [u8],
) -> Option<End>
    requires room { length buf.old ≡ 65536 }
    requires ready { H.ready handler.old }
    ensures ready { H.ready handler.new }
    ensures hall { H.hall handler.new ≡ H.hall handler.old }
    ensures talk { H.talk handler.new ≡ H.talk handler.old }
    ensures exchanged { Exchanges (H.talk handler.old) (gate_of ears.old.proving) (L.tape link.old)
        (H.work handler.old) ears.old (L.tape link.new) (H.work handler.new) ears.new result }
{
    match ears.proving.take() {
        None => exchange_first(alloc, link, ears, handler, buf),
        Some(proving) => exchange_last::<H, L>(alloc, link, ears, proving, buf),
    }
}
