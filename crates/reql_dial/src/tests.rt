use crate::dial;
use reql_outside::{Link, Recv, send_all};
use std::io::{Read, Write};
use std::net::TcpListener;
use std::test::Fail;

// A port of the loopback address that takes one link: what it sends comes, what is sent to it too, and then its end.
#[test]
fn a_link_sends_and_receives_up_to_the_end(rt: HostRuntime) -> Result<(), Fail> {
    let listener = TcpListener::bind(&rt, "127.0.0.1:0")?;
    let port = listener.local_addr()?.port();
    let mut link = dial(&rt, port)?;
    let (mut stream, _) = listener.accept()?;
    assert!(rt; send_all(&mut link, b"abc"));
    let mut three = [0u8; 3];
    stream.read_exact(&mut three)?;
    assert_eq!(rt; three.as_slice(), b"abc".as_slice());
    stream.write_all(b"defg")?;
    drop(stream);
    let mut buf = [0u8; 4];
    assert_eq!(rt; link.recv(&mut buf), Recv::Got(4));
    assert_eq!(rt; buf.as_slice(), b"defg".as_slice());
    assert_eq!(rt;
        (link.recv(&mut buf), link.recv(&mut buf)),
        (Recv::End, Recv::End)
    );
    let record = link.finish();
    assert_eq!(rt;
        (record.faults_in, record.faults_out, record.over),
        (0, 0, true)
    );
    Ok(())
}
