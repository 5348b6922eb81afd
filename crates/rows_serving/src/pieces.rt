// What clients say, and what is said to them, in bytes.
use reql_wire::put_frame;
use std::alloc::Global;
use std::test::Fail;

pub const GREETING: &[u8] = b"\x20\x2d\x0c\x40\0\0\0\0\xc7\x70\x69\x7e";

pub const GREETED: &[u8] = b"SUCCESS\0";

pub const INSERT: &str = "[1,[56,[[15,[\"docs\"]],{\"id\":1,\"n\":5}]]]";

/// Some bytes, and then frames with the tokens 1, 2 and so on.
pub fn with_frames(alloc: Global, front: &[u8], bodies: &[&str]) -> Result<Vec<u8>, Fail> {
    let mut bytes = front.to_vec(alloc)?;
    let mut token: u64 = 0;
    for body in bodies {
        token = token.saturating_add(1);
        if put_frame(&mut bytes, token, body.as_bytes()).is_err() {
            return Err(Fail::from("memory"));
        }
    }
    Ok(bytes)
}

pub fn words_of(alloc: Global, told: &[&str]) -> Result<Vec<String>, Fail> {
    let mut words = Vec::new(alloc);
    for word in told {
        words.push(String::from_str(alloc, word)?)?;
    }
    Ok(words)
}
