use reql_wire::{
    Feeder, Frame, GreetFault, Greeter, Greeting, WireFault, accepted_answer, put_frame,
};
use std::alloc::Global;
use std::process::Abort;
use std::test::Fail;

// Token 0x0807060504030201 with the body `ab`, and token 5 with none.
const TWO_FRAMES: [u8; 26] = [
    1, 2, 3, 4, 5, 6, 7, 8, 2, 0, 0, 0, b'a', b'b', 5, 0, 0, 0, 0, 0, 0, 0, 0, 0, 0, 0,
];

// Takes the frames that are whole, and spells them again.
fn spell_taken(feeder: &mut Feeder, out: &mut Vec<u8>) -> Result<(), Fail> {
    for _ in 0..u64::MAX {
        match feeder.take()? {
            Some(Frame { token, body }) => put_frame(out, token, body.as_slice())?,
            None => return Ok(()),
        }
    }
    Ok(())
}

#[test]
fn frames_come_whole_in_pieces_of_every_size(rt: HostRuntime) -> Result<(), Fail> {
    let alloc = rt.alloc();
    for size in 1..=TWO_FRAMES.len() {
        let mut feeder = Feeder::new(alloc, 2);
        let mut out = Vec::new(alloc);
        for piece in TWO_FRAMES.chunks(size) {
            feeder.feed(piece)?;
            spell_taken(&mut feeder, &mut out)?;
        }
        assert_eq!(rt; (out.as_slice(), feeder.held()), (TWO_FRAMES.as_slice(), 0));
    }
    let mut strict = Feeder::new(alloc, 1);
    strict.feed(&TWO_FRAMES[..13])?;
    for _ in 0..2u8 {
        assert!(rt; matches!(strict.take(), Err(WireFault::TooLong { len: 2 })));
    }
    assert_eq!(rt; strict.held(), 13);
    Ok(())
}

#[test]
fn long_bodies_and_many_frames_take_linear_time(rt: HostRuntime) -> Result<(), Fail> {
    let alloc = rt.alloc();
    let mut feeder = Feeder::new(alloc, 67_108_864);
    feeder.feed(&[9, 0, 0, 0, 0, 0, 0, 0, 0, 0, 0, 4])?;
    let piece = [b'x'; 1024];
    for _ in 0..65_536u32 {
        assert!(rt; matches!(feeder.take(), Ok(None)));
        feeder.feed(&piece)?;
    }
    match feeder.take()? {
        Some(frame) => assert_eq!(rt; (frame.token, frame.body.len()), (9, 67_108_864)),
        None => panic!(rt; "the frame is whole"),
    }
    let mut bytes = Vec::new(alloc);
    for _ in 0..200_000u32 {
        put_frame(&mut bytes, 3, b"")?;
    }
    feeder.feed(bytes.as_slice())?;
    let mut out = Vec::new(alloc);
    spell_taken(&mut feeder, &mut out)?;
    assert_eq!(rt; (out.len(), feeder.held()), (2_400_000, 0));
    Ok(())
}

// The key that is wanted, what comes, at which byte that is decided, and why it is refused.
const GREETINGS: [(&[u8], &[u8], usize, Option<GreetFault>); 12] = [
    (
        b"",
        b"\x20\x2d\x0c\x40\0\0\0\0\xc7\x70\x69\x7e\x01\x02",
        12,
        None,
    ),
    (
        b"hunter2",
        b"\x20\x2d\x0c\x40\x07\0\0\0hunter2\xc7\x70\x69\x7e\x01\x02",
        19,
        None,
    ),
    (
        b"",
        b"GET / HTTP/1.1",
        4,
        Some(GreetFault::BadVersion { got: 0x2054_4547 }),
    ),
    (
        b"hunter2",
        b"\x3e\xe8\x75\x5f\x07\0\0\0hunter2\xc7\x70\x69\x7e",
        4,
        Some(GreetFault::BadVersion { got: 0x5f75_e83e }),
    ),
    (
        b"hunter2",
        b"\x20\x2d\x0c\x40\x01\x04\0\0hunter2",
        8,
        Some(GreetFault::KeyTooLong { len: 1025 }),
    ),
    (
        b"hunter2",
        b"\x20\x2d\x0c\x40\x07\0\0\0hunter3\xc7\x70\x69\x7e",
        15,
        Some(GreetFault::BadKey),
    ),
    (
        b"hunter2",
        b"\x20\x2d\x0c\x40\x06\0\0\0hunter\xc7\x70\x69\x7e",
        14,
        Some(GreetFault::BadKey),
    ),
    (
        b"hunter2",
        b"\x20\x2d\x0c\x40\x08\0\0\0hunter22\xc7\x70\x69\x7e",
        16,
        Some(GreetFault::BadKey),
    ),
    (
        b"hunter2",
        b"\x20\x2d\x0c\x40\0\0\0\0\xc7\x70\x69\x7e",
        8,
        Some(GreetFault::BadKey),
    ),
    (
        b"",
        b"\x20\x2d\x0c\x40\x01\0\0\0x\xc7\x70\x69\x7e",
        9,
        Some(GreetFault::BadKey),
    ),
    (
        b"",
        b"\x20\x2d\x0c\x40\0\0\0\0\xc7\x70\x69\x7f\x01\x02",
        12,
        Some(GreetFault::BadProtocol { got: 0x7f69_70c7 }),
    ),
    (
        b"hunter2",
        b"\x20\x2d\x0c\x40\x07\0\0\0hunter2\x41\xfc\x1f\x27",
        19,
        Some(GreetFault::BadProtocol { got: 0x271f_fc41 }),
    ),
];

const REFUSALS: [(GreetFault, &[u8]); 4] = [
    (
        GreetFault::BadVersion { got: 1 },
        b"ERROR: unsupported protocol version\0",
    ),
    (
        GreetFault::KeyTooLong { len: 1025 },
        b"ERROR: authorization key too long\0",
    ),
    (GreetFault::BadKey, b"ERROR: incorrect authorization key\0"),
    (
        GreetFault::BadProtocol { got: 1 },
        b"ERROR: unsupported wire protocol\0",
    ),
];

fn verdict(used: usize, fault: Option<GreetFault>) -> Greeting {
    match fault {
        Some(fault) => Greeting::Refused(fault),
        None => Greeting::Accepted { used },
    }
}

// The bytes in two pieces, cut at each place.
fn expect_under_every_cut(
    rt: &impl Abort,
    alloc: Global,
    key: &[u8],
    bytes: &[u8],
    decided: usize,
    fault: Option<GreetFault>,
) -> Result<(), Fail> {
    for cut in 0..=bytes.len() {
        let mut greeter = Greeter::new(alloc, key)?;
        let first = (greeter.feed(&bytes[..cut]), greeter.held());
        let second = (greeter.feed(&bytes[cut..]), greeter.held());
        let told = if cut < decided {
            (Greeting::More, cut)
        } else {
            (verdict(decided, fault), 0)
        };
        let after = (verdict(decided.saturating_sub(cut), fault), 0);
        assert_eq!(rt; (first, second), (told, after));
    }
    Ok(())
}

#[test]
fn greetings_are_known_under_every_cut(rt: HostRuntime) -> Result<(), Fail> {
    let alloc = rt.alloc();
    for (key, bytes, decided, fault) in GREETINGS {
        expect_under_every_cut(&rt, alloc, key, bytes, decided, fault)?;
    }
    let key = vec![in alloc; b'k'; 1025]?;
    let mut long = b"\x20\x2d\x0c\x40\0\x04\0\0".to_vec(alloc)?;
    long.extend_from_slice(&key[..1024])?;
    long.extend_from_slice(b"\xc7\x70\x69\x7e")?;
    expect_under_every_cut(&rt, alloc, &key[..1024], &long, 1036, None)?;
    expect_under_every_cut(&rt, alloc, &key, &long, 1032, Some(GreetFault::BadKey))?;
    for (fault, text) in REFUSALS {
        assert_eq!(rt; fault.answer(), text);
    }
    let accepted: &[u8] = b"SUCCESS\0";
    assert_eq!(rt; accepted_answer(), accepted);
    Ok(())
}
