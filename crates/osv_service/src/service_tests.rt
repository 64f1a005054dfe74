//! `serve` over TCP, and a client in another thread.

use crate::service::serve;
use gate::OpenGate;
use listeners::TcpDoor;
use std::io::{Read, Write};
use std::net::TcpStream;
use std::process;
use std::test::Fail;
use std::thread::{join, yield_now};

const OPTIONS: [&str; 3] = ["serve", "--lanes=1", "--helpers=0"];

const IMPORT: &str = concat!(
    "POST /x/import HTTP/1.1\r\nhost: a\r\nconnection: close\r\ncontent-length: 123\r\n\r\n",
    r#"{"id":"X-1","modified":"2024-01-01T00:00:00Z","affected":[{"package":{"ecosystem":"npm","name":"p"},"versions":["1.0.0"]}]}"#,
);

const REPLY: &str = concat!(
    "HTTP/1.1 200 OK\r\ncontent-type: application/json\r\ncontent-length: 11\r\nconnection: close\r\n\r\n",
    r#"{"entry":0}"#,
);

// An address of this test's own, so that it may run beside others.
fn address_of(rt: &HostRuntime) -> Result<String, Fail> {
    let port = 20_000 + process::id(rt.process()) % 20_000;
    Ok(format!(in rt.alloc(); "127.0.0.1:{port}")?)
}

fn words_of(rt: &HostRuntime, address: &str) -> Result<Vec<String>, Fail> {
    let mut strings = Vec::new(rt.alloc());
    for word in OPTIONS {
        strings.push(String::from_str(rt.alloc(), word)?)?;
    }
    strings.push(String::from_str(rt.alloc(), address)?)?;
    Ok(strings)
}

// What the service replies, once it is there. None: it is not, or the connection failed.
fn reply_of(rt: &HostRuntime, address: &str) -> Option<Vec<u8>> {
    for _ in 0..10_000_000 {
        if let Ok(mut stream) = TcpStream::connect(rt, address) {
            let mut reply = Vec::new(rt.alloc());
            stream.write_all(IMPORT.as_bytes()).ok()?;
            stream.read_to_end(&mut reply).ok()?;
            return Some(reply);
        }
        yield_now();
    }
    None
}

#[test]
fn a_client_is_served_over_tcp(rt: HostRuntime) -> Result<(), Fail> {
    let address = address_of(&rt)?;
    let words = words_of(&rt, address.as_str())?;
    let mut door = TcpDoor::new(&rt, rt.alloc(), 1)?;
    let (status, reply) = join(
        &rt,
        || serve(&rt, &rt, rt.alloc(), words.as_slice(), &mut door, &OpenGate),
        || reply_of(&rt, address.as_str()),
    );
    assert_eq!(rt; status, 0);
    let reply = reply.as_ref().map_or(&[][..], |reply| reply.as_slice());
    assert_eq!(rt; reply, REPLY.as_bytes());
    Ok(())
}
