// Clients in memory: what they send, and what they are sent.

use edge_io::{CalmSource, Failed, Sink, Source};
use gate::HoldGate;
use osv_prim::Memory;
use std::alloc::Global;
use std::str;
use std::sync::{Arc, Mutex, Wait};
use std::thread::yield_now;

/// The most turns for which a client waits for a gate.
const MOST_TURNS: u64 = 10_000_000;

const ADVISORY: &str = concat!(
    r#"{"id":"X-1","modified":"2024-01-01T00:00:00Z","affected":[{"package":{"ecosystem":"npm","name":"p"},"ranges":["#,
    r#"{"type":"GIT","repo":"https://e.example/r","events":[{"introduced":"0"}]},"#,
    r#"{"type":"GIT","repo":"https://e.example/s","events":[{"introduced":"0"}]}],"versions":["1.0.0"]}]}"#,
);

const PUBLISH: &str = "POST /x/publish HTTP/1.1\r\nhost: a\r\ncontent-length: 0\r\n\r\n";

const QUERY: &str = concat!(
    "POST /v1/query HTTP/1.1\r\nhost: a\r\ncontent-length: 60\r\n\r\n",
    r#"{"package":{"ecosystem":"npm","name":"p"},"version":"1.0.0"}"#,
);

/// The import of an advisory with two GIT ranges, and a publication.
pub fn import_and_publish(alloc: Global) -> Result<Vec<u8>, Memory> {
    let length = ADVISORY.len();
    let all = format!(in alloc;
        "POST /x/import HTTP/1.1\r\nhost: a\r\ncontent-length: {length}\r\n\r\n{ADVISORY}{PUBLISH}"
    )?;
    Ok(all.into_bytes())
}

/// A query for the package of that advisory.
pub fn query(alloc: Global) -> Result<Vec<u8>, Memory> {
    Ok(String::from_str(alloc, QUERY)?.into_bytes())
}

/// The bytes that a client sends, the first once a gate holds, where it waits for one.
#[derive(Drop)]
pub struct Sends<'a> {
    gate: Option<&'a HoldGate>,
    bytes: CalmSource,
}

impl<'a> Sends<'a> {
    /// A client that sends these bytes.
    pub fn new(gate: Option<&'a HoldGate>, bytes: Vec<u8>) -> Sends<'a> {
        Sends {
            gate,
            bytes: CalmSource::new(bytes),
        }
    }
}

fn wait(gate: &HoldGate) {
    for _ in 0..MOST_TURNS {
        if gate.is_holding() {
            return;
        }
        yield_now();
    }
}

impl<'a> Source for Sends<'a> {
    ghost use Rattle.std.specs.Prelude.{None};

    ghost left = { λ _. None };

    ghost faults = { λ _. 0 };

    fn read(&mut self, into: &mut [u8]) -> Result<usize, Failed> {
        if let Some(gate) = self.gate.take() {
            wait(gate);
        }
        self.bytes.read(into)
    }
}

/// The bytes that clients are sent, as both ends have them.
pub type Sent = Arc<Mutex<Vec<u8>>>;

/// Keeps the bytes that a client is sent.
#[derive(Drop)]
pub struct Keeps<'a, R: Wait> {
    rt: &'a R,
    sent: Sent,
    faults: u64,
}

impl<'a, R: Wait> Keeps<'a, R> {
    /// Puts them there.
    pub fn new(rt: &'a R, sent: &Sent) -> Result<Keeps<'a, R>, Memory> {
        Ok(Keeps {
            rt,
            sent: Arc::try_clone(sent)?,
            faults: 0,
        })
    }
}

impl<'a, R: Wait> Sink for Keeps<'a, R> {
    ghost use Rattle.std.specs.Prelude.{None};

    ghost held = { λ _. None };

    ghost faults = { λ s. s.faults };

    fn write(&mut self, piece: &[u8]) -> Result<usize, Failed> {
        match self.sent.lock(self.rt).extend_from_slice(piece) {
            Ok(()) => Ok(piece.len()),
            Err(_) => {
                self.faults = self.faults.saturating_add(1);
                Err(Failed)
            }
        }
    }
}

/// Whether a publication of snapshot 1 was answered: it is there, or another still has a job of it.
pub fn is_published<R: Wait>(rt: &R, sent: &Sent) -> bool {
    let bytes = sent.lock(rt);
    let text = str::from_utf8(bytes.as_slice()).unwrap_or("");
    text.ends_with(r#"{"state":"published","snapshot":1,"upto":1}"#)
        || text.contains(r#"{"state":"building","out":1,"#)
}

/// Whether a query was answered from snapshot 0, which has nothing.
pub fn is_empty_of_0<R: Wait>(rt: &R, sent: &Sent) -> bool {
    let bytes = sent.lock(rt);
    let text = str::from_utf8(bytes.as_slice()).unwrap_or("");
    text.ends_with("x-osv-snapshot: 0\r\n\r\n{}")
}
