use crate::{Asked, Client, ClientFault, Limits, Opened};
use reql_outside::{Link, LinkStep, MemLink};
use reql_wire::put_frame;
use std::test::Fail;

// Answers in pieces, with one of another token between; then the link ends.
#[test]
fn answers_are_found_by_token(rt: HostRuntime) -> Result<(), Fail> {
    let alloc = rt.alloc();
    let mut bytes = b"SUCC".to_vec(alloc)?;
    bytes.extend_from_slice(b"ESS\0")?;
    for (token, body) in [
        (7u64, b"[8]".as_slice()),
        (1, b"{\"t\":1,\"r\":[5]}".as_slice()),
    ] {
        if put_frame(&mut bytes, token, body).is_err() {
            return Err(Fail::new("another answer"));
        }
    }
    let mut script = Vec::new(alloc);
    for byte in &bytes {
        let piece = vec![in alloc; *byte]?;
        script.push(LinkStep::Give(piece))?;
        script.push(LinkStep::Idle)?;
    }
    let link = MemLink::new(alloc, script, Vec::new(alloc));
    let limits = Limits::usual();
    let Opened::Ready(client) = Client::open(alloc, link, b"k", &limits) else {
        return Err(Fail::new("another answer"));
    };
    let Asked::Answer(client, value) = client.ask(1, b"[1,5]") else {
        return Err(Fail::new("another answer"));
    };
    assert_eq!(rt; value.get("t").and_then(|t| t.as_u64()), Some(1));
    let Asked::Lost(link, fault) = client.ask(2, b"[2]") else {
        return Err(Fail::new("another answer"));
    };
    assert!(rt; matches!(fault, ClientFault::Ended));
    let record = link.finish();
    let expected: &[u8] =
        b"\x20\x2d\x0c\x40\x01\x00\x00\x00k\xc7\x70\x69\x7e\x01\x00\x00\x00\x00\x00\x00\x00\x05\x00\x00\x00[1,5]\x02\x00\x00\x00\x00\x00\x00\x00\x03\x00\x00\x00[2]";
    assert_eq!(rt; record.sent.as_slice(), expected);
    assert!(rt; record.over);
    Ok(())
}

// A greeting that is refused, and one that is no text.
#[test]
fn greetings_are_refused(rt: HostRuntime) -> Result<(), Fail> {
    let alloc = rt.alloc();
    let limits = Limits::usual();
    let told = b"ERROR: incorrect authorization key\0".to_vec(alloc)?;
    let link = MemLink::new(
        alloc,
        vec![in alloc; LinkStep::Give(told)]?,
        Vec::new(alloc),
    );
    let Opened::Lost(_link, fault) = Client::open(alloc, link, b"", &limits) else {
        return Err(Fail::new("another answer"));
    };
    let ClientFault::Refused(why) = fault else {
        return Err(Fail::new("another answer"));
    };
    assert_eq!(rt; why.as_str(), "ERROR: incorrect authorization key");
    let long = vec![in alloc; 65u8; 1025]?;
    let link = MemLink::new(
        alloc,
        vec![in alloc; LinkStep::Give(long)]?,
        Vec::new(alloc),
    );
    let Opened::Lost(_link, fault) = Client::open(alloc, link, b"", &limits) else {
        return Err(Fail::new("another answer"));
    };
    assert!(rt; matches!(fault, ClientFault::BadAnswer));
    Ok(())
}

// A login with a challenge whose nonce has a quote and a backslash: what is said, and what is held behind the last message. Its
// texts were computed by Python's `hashlib`.
const LOGIN: [&[u8]; 3] = [
    b"{\"success\":true,\"min_protocol_version\":0}\0",
    b"{\"authentication\":\"r=AAECAwQFBgcICQoLDA0ODw==3\\\"r\\\\,s=EBESExQVFhcYGRobHB0eHw==,i=4096\",\"success\":true}\0",
    b"{\"success\":true,\"authentication\":\"v=22jyV3YYK7eVVyIS8nBkdikqohOvrxXTDXw29CzktlU=\"}\0",
];

const SAID: &[u8] =
    b"\xc3\xbd\xc2\x34{\"protocol_version\":0,\"authentication_method\":\"SCRAM-SHA-256\",\"authentication\":\"n,,n=admin,r=AAECAwQFBgcICQoLDA0ODw==\"}\0{\"authentication\":\"c=biws,r=AAECAwQFBgcICQoLDA0ODw==3\\\"r\\\\,p=+6epGpBo4aSXPD0EYs2kzII3wsC2oObrlaWl8eb5I/U=\"}\0";

// The roll of dice, of which the client's nonce is the base64.
const ROLL: &[u8] = &[0, 1, 2, 3, 4, 5, 6, 7, 8, 9, 10, 11, 12, 13, 14, 15];

const PASSWORD: &[u8] = b"pen \"c\\il\", =2C~";

// A server that refuses a login, and one that knows of none.
const REFUSAL: [&[u8]; 2] = [
    b"{\"success\":true}\0",
    b"{\"success\":false,\"error\":\"why\"}\0",
];

const STRANGE: [&[u8]; 1] = [b"ERROR: unsupported protocol version\0"];

// The script of a link that gives these pieces.
fn script_of(rt: &HostRuntime, pieces: &[&[u8]]) -> Result<Vec<LinkStep>, Fail> {
    let alloc = rt.alloc();
    let mut script = Vec::new(alloc);
    for piece in pieces {
        script.push(LinkStep::Give((*piece).to_vec(alloc)?))?;
        script.push(LinkStep::Idle)?;
    }
    Ok(script)
}

// A login that succeeds, and then a request, whose answer came with the last message.
#[test]
fn a_password_lets_in(rt: HostRuntime) -> Result<(), Fail> {
    let alloc = rt.alloc();
    let mut last = LOGIN[2].to_vec(alloc)?;
    if put_frame(&mut last, 1, b"{\"t\":1,\"r\":[5]}").is_err() {
        return Err(Fail::new("another answer"));
    }
    let mut script = script_of(&rt, &LOGIN[..2])?;
    script.push(LinkStep::Give(last))?;
    let link = MemLink::new(alloc, script, Vec::new(alloc));
    let limits = Limits::usual();
    let Opened::Ready(client) = Client::log_in(alloc, link, PASSWORD, ROLL, &limits) else {
        return Err(Fail::new("another answer"));
    };
    let Asked::Answer(client, value) = client.ask(1, b"[1,5]") else {
        return Err(Fail::new("another answer"));
    };
    assert_eq!(rt; value.get("t").and_then(|t| t.as_u64()), Some(1));
    let record = client.into_link().finish();
    assert!(rt; record.sent.as_slice().starts_with(SAID));
    assert_eq!(rt; record.sent.len(), SAID.len() + 17);
    Ok(())
}

// What a login comes to that ends in a fault.
fn fault_of(rt: &HostRuntime, pieces: &[&[u8]], password: &[u8]) -> Result<ClientFault, Fail> {
    let alloc = rt.alloc();
    let script = script_of(rt, pieces)?;
    let link = MemLink::new(alloc, script, Vec::new(alloc));
    let limits = Limits::usual();
    match Client::log_in(alloc, link, password, ROLL, &limits) {
        Opened::Lost(_link, fault) => Ok(fault),
        Opened::Ready(_client) => Err(Fail::new("it is let in")),
    }
}

// Another signature than that of the password, a text that refuses, an end between messages, and an answer that is no message.
#[test]
fn logins_are_refused(rt: HostRuntime) -> Result<(), Fail> {
    let fault = fault_of(&rt, &LOGIN, b"secret")?;
    assert!(rt; matches!(fault, ClientFault::BadAnswer));
    let fault = fault_of(&rt, &REFUSAL, PASSWORD)?;
    let ClientFault::Refused(why) = fault else {
        return Err(Fail::new("another fault"));
    };
    assert_eq!(rt; why.as_str(), "why");
    let fault = fault_of(&rt, &LOGIN[..2], PASSWORD)?;
    assert!(rt; matches!(fault, ClientFault::Ended));
    let fault = fault_of(&rt, &STRANGE, PASSWORD)?;
    assert!(rt; matches!(fault, ClientFault::BadAnswer));
    Ok(())
}
