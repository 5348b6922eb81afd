use crate::stream::{read_some, write_on};
use crate::{
    Clock, Dice, Link, LinkStep, MemClock, MemDice, MemLink, MemSink, OsClock, OsDice, Put, Recv,
    Rolled, Sending, Sink, StdLink, StdSink, Told, send_all,
};
use std::io::{self, ErrorKind, Read, Write};
use std::test::Fail;

// What a call on a stream does: it takes at most so many bytes, a signal cuts it off, or it fails.
#[derive(Drop)]
enum Step {
    Takes(usize),
    Signal,
    Error,
}

// A stream whose calls go as the steps say, the last one first.
#[derive(Drop)]
struct Stream {
    steps: Vec<Step>,
    taken: Vec<u8>,
}

impl Stream {
    fn next(&mut self) -> io::Result<usize> {
        match self.steps.pop() {
            Some(Step::Takes(n)) => Ok(n),
            Some(Step::Signal) => Err(io::Error::from(ErrorKind::Interrupted)),
            Some(Step::Error) | None => Err(io::Error::from(ErrorKind::BrokenPipe)),
        }
    }
}

impl Read for Stream {
    fn read(&mut self, buf: &mut [u8]) -> io::Result<usize> {
        let n = self.next()?.min(buf.len());
        buf[..n].fill(7);
        Ok(n)
    }
}

impl Write for Stream {
    fn write(&mut self, buf: &[u8]) -> io::Result<usize> {
        let n = self.next()?.min(buf.len());
        match self.taken.extend_from_slice(&buf[..n]) {
            Ok(()) => Ok(n),
            Err(_) => Err(io::Error::from(ErrorKind::OutOfMemory)),
        }
    }

    fn flush(&mut self) -> io::Result<()> {
        Ok(())
    }
}

#[test]
fn links_in_memory_play_their_script_and_fail_where_told(rt: HostRuntime) -> Result<(), Fail> {
    let alloc = rt.alloc();
    let script = vec![in alloc;
        LinkStep::Give(b"".to_vec(alloc)?),
        LinkStep::Give(b"abcde".to_vec(alloc)?),
        LinkStep::Idle,
        LinkStep::Fail,
        LinkStep::Give(b"f".to_vec(alloc)?),
    ]?;
    let mut link = MemLink::slow(alloc, script, vec![in alloc; 1, 8]?, 2);
    let mut buf = [0u8; 3];
    let received = [
        Recv::Got(3),
        Recv::Got(2),
        Recv::Idle,
        Recv::Failed,
        Recv::Got(1),
        Recv::End,
        Recv::End,
    ];
    for answer in received {
        assert_eq!(rt; link.recv(&mut buf), answer);
    }
    for answer in [Sending::Sent(2), Sending::Failed, Sending::Sent(2)] {
        assert_eq!(rt; link.send(b"hi there"), answer);
    }
    let pieces: [(&[u8], bool); 3] = [(b"", true), (b"abcde", true), (b"wxyz!", false)];
    for (piece, whole) in pieces {
        assert_eq!(rt; send_all(&mut link, piece), whole);
    }
    let record = link.finish();
    let bytes = (record.given.as_slice(), record.sent.as_slice());
    let expected: (&[u8], &[u8]) = (b"abcdef", b"hihiabcdewxyz");
    assert_eq!(rt; bytes, expected);
    assert_eq!(rt;
        (
            record.idles,
            record.faults_in,
            record.faults_out,
            record.over
        ),
        (1, 1, 2, true)
    );
    let mut other = MemLink::new(alloc, vec![in alloc]?, vec![in alloc]?);
    assert_eq!(rt;
        (other.send(b"hi there"), other.recv(&mut buf)),
        (Sending::Sent(8), Recv::End)
    );
    Ok(())
}

#[test]
fn streams_are_tried_again_at_signals_and_stop_at_errors(rt: HostRuntime) -> Result<(), Fail> {
    let alloc = rt.alloc();
    let mut input = Stream {
        steps: vec![in alloc; Step::Error, Step::Takes(2), Step::Signal, Step::Signal]?,
        taken: Vec::new(alloc),
    };
    let mut buf = [0u8; 4];
    let reads = (
        read_some(&mut input, &mut buf),
        read_some(&mut input, &mut buf),
    );
    assert_eq!(rt; reads, (Some(2), None));
    let mut output = Stream {
        steps: vec![in alloc;
            Step::Error,
            Step::Takes(1),
            Step::Takes(3),
            Step::Signal,
            Step::Takes(2),
        ]?,
        taken: Vec::new(alloc),
    };
    let writes = (
        write_on(&mut output, b"abcd"),
        write_on(&mut output, b"xyz"),
    );
    assert_eq!(rt;
        (writes, output.taken.as_slice()),
        ((4, 1), b"abcdx".as_slice())
    );
    let mut link = StdLink::new(rt);
    let sent = link.send(b"sent\n");
    let record = link.finish();
    assert_eq!(rt;
        (sent, record.faults_in, record.faults_out),
        (Sending::Sent(5), 0, 0)
    );
    Ok(())
}

#[test]
fn dice_and_clocks_play_their_lists_and_ask_the_system(rt: HostRuntime) -> Result<(), Fail> {
    let alloc = rt.alloc();
    let mut dice = MemDice::new(vec![in alloc; [7; 16]]?, vec![in alloc; 1]?);
    assert_eq!(rt;
        (dice.roll(), dice.roll(), dice.roll()),
        (
            Rolled::Bytes([7; 16]),
            Rolled::Failed,
            Rolled::Bytes([0; 16])
        )
    );
    let mut clock = MemClock::new(vec![in alloc; -5]?, vec![in alloc; 0]?);
    assert_eq!(rt;
        (clock.seconds(), clock.seconds(), clock.seconds()),
        (Told::Failed, Told::At(-5), Told::At(0))
    );
    let mut dice = OsDice::new(rt);
    assert!(rt; dice.roll() != dice.roll());
    let mut clock = OsClock::new(rt);
    assert!(rt; matches!(clock.seconds(), Told::At(seconds) if seconds > 1_700_000_000));
    Ok(())
}

#[test]
fn a_sink_keeps_what_it_takes_and_fails_where_told(rt: HostRuntime) -> Result<(), Fail> {
    let alloc = rt.alloc();
    let mut sink = MemSink::new(alloc, vec![in alloc; 1]?);
    let puts = (sink.put(b"ab"), sink.put(b"cd"), sink.put(b"ef"));
    assert_eq!(rt; puts, (Put::Done, Put::Failed, Put::Done));
    assert_eq!(rt; sink.written(), b"abef".as_slice());
    assert_eq!(rt; StdSink::new(rt).put(b""), Put::Done);
    Ok(())
}
