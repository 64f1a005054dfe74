// The listener over TCP (RFC 9293) of the system.
ghost use Rattle.std.specs.Prelude.{◌≡◌, ◌≤◌};
ghost use Rattle.edge_io.specs.Causes.{Rose};

use crate::link::Link;
use crate::listener::Listener;
use edge_io::{Failed, ReadEnd, WriteEnd};
use osv_prim::Memory;
use std::alloc::Global;
use std::io;
use std::io::{ErrorKind, Read, Write};
use std::net::{Net, TcpListener, TcpStream};
use std::sync::Arc;
use std::sync::atomic::{AtomicU64, Ordering};
use std::time::{Clock, Duration};

/// The bytes that a client sends.
#[derive(Drop)]
pub struct TcpSource<'a, R: Clock> {
    link: Arc<Link<'a, R>>,
}

impl<'a, R: Clock> Read for TcpSource<'a, R> {
    fn read(&mut self, into: &mut [u8]) -> io::Result<usize> {
        self.link.read(into)
    }
}

/// The bytes that are sent to it.
#[derive(Drop)]
pub struct TcpSink<'a, R: Clock> {
    link: Arc<Link<'a, R>>,
}

impl<'a, R: Clock> Write for TcpSink<'a, R> {
    fn write(&mut self, piece: &[u8]) -> io::Result<usize> {
        self.link.write(piece)
    }

    fn flush(&mut self) -> io::Result<()> {
        Ok(())
    }
}

// How often a lane accepts again where a client was gone before.
const GONE: u32 = 1_000_000;

// How many milliseconds a lane waits behind an accept that failed: what it failed for, as a want of descriptors, may pass.
const PAUSE_MILLIS: u64 = 100;

/// A listener over TCP. Its connections send at once (`TCP_NODELAY`), and a client lets it wait for an allowance of time
/// alone: see `Allowance`.
#[derive(Drop)]
pub struct TcpDoor<'a, R> {
    rt: &'a R,
    alloc: Global,
    listener: Option<Arc<TcpListener>>,
    // How many connections may still be accepted, over all lanes.
    left: Arc<AtomicU64>,
    closed: u64,
    faults: u64,
}

impl<'a, R: Net<Listener = TcpListener, Stream = TcpStream> + Clock> TcpDoor<'a, R> {
    /// A door that is not open yet, and takes at most so many connections over all its lanes. Only memory can fail.
    pub fn new(rt: &'a R, alloc: Global, most: u64) -> Result<TcpDoor<'a, R>, Memory> {
        match Arc::new(alloc, AtomicU64::new(most)) {
            Ok(left) => Ok(TcpDoor {
                rt,
                alloc,
                listener: None,
                left,
                closed: 0,
                faults: 0,
            }),
            Err(_) => Err(Memory),
        }
    }

    // Counts a call that failed.
    fn fail(&mut self) -> Failed
        ensures rose { Rose self.old.faults self.new.faults }
        ensures later { self.old.faults ≤ self.new.faults }
        ensures closed { self.new.closed ≡ self.old.closed }
    {
        self.faults = self.faults.saturating_add(1);
        Failed
    }

    // Whether one more connection may come. One that was taken so is accepted, or given back.
    fn takes_one(&self) -> bool {
        self.left
            .fetch_update(
                Ordering::SeqCst,
                Ordering::SeqCst,
                |left| left.checked_sub(1),
            )
            .is_ok()
    }

    fn another(&self) -> Option<TcpDoor<'a, R>> {
        let listener = match &self.listener {
            Some(listener) => Some(Arc::try_clone(listener).ok()?),
            None => None,
        };
        Some(TcpDoor {
            rt: self.rt,
            alloc: self.alloc,
            listener,
            left: Arc::try_clone(&self.left).ok()?,
            closed: 0,
            faults: 0,
        })
    }

    fn next(&self) -> Option<(ReadEnd<TcpSource<'a, R>>, WriteEnd<TcpSink<'a, R>>)> {
        let stream = accepted(self.listener.as_ref()?)?;
        // A client that only gets its bytes later is served all the same.
        let _ = stream.set_nodelay(true);
        let link = Arc::new(self.alloc, Link::new(self.rt, stream).ok()?).ok()?;
        let same = Arc::try_clone(&link).ok()?;
        Some((
            ReadEnd::new(TcpSource { link: same }),
            WriteEnd::new(TcpSink { link }),
        ))
    }
}

fn accepted(listener: &TcpListener) -> Option<TcpStream> {
    for _ in 0..GONE {
        match listener.accept() {
            Ok((stream, _)) => return Some(stream),
            Err(error) if error.kind() == ErrorKind::ConnectionAborted => {}
            Err(_) => return None,
        }
    }
    None
}

impl<'a, R: Net<Listener = TcpListener, Stream = TcpStream> + Clock + Sync> Listener
    for TcpDoor<'a, R> {
    type From = ReadEnd<TcpSource<'a, R>>;

    type To = WriteEnd<TcpSink<'a, R>>;

    ghost faults = { λ l. l.faults };

    ghost closed = { λ l. l.closed };

    /// The address is an IP address or a host's name, and a port.
    fn listen(&mut self, address: &str) -> Result<(), Failed> {
        let opened = TcpListener::bind(self.rt, address);
        let kept = opened
            .ok()
            .and_then(|listener| Arc::new(self.alloc, listener).ok());
        if kept.is_none() {
            return Err(self.fail());
        }
        self.listener = kept;
        Ok(())
    }

    fn lane(&mut self) -> Result<TcpDoor<'a, R>, Failed> {
        match self.another() {
            Some(lane) => Ok(lane),
            None => Err(self.fail()),
        }
    }

    fn accept(
        &mut self,
    ) -> Result<Option<(ReadEnd<TcpSource<'a, R>>, WriteEnd<TcpSink<'a, R>>)>, Failed> {
        if !self.takes_one() {
            self.closed = self.closed.saturating_add(1);
            return Ok(None);
        }
        match self.next() {
            Some(ends) => Ok(Some(ends)),
            None => {
                self.left.fetch_add(1, Ordering::SeqCst);
                self.rt.sleep(Duration::from_millis(PAUSE_MILLIS));
                Err(self.fail())
            }
        }
    }
}
