// A connection whose two ends share an allowance of time.
ghost use Rattle.std.specs.Io.{ReadsAtMost, WritesAtMost};

use crate::allowance::Allowance;
use std::io;
use std::io::{ErrorKind, Read, Write};
use std::net::{Shutdown, TcpStream};
use std::sync::atomic::{AtomicU64, Ordering};
use std::time::{Clock, Duration, Instant};

/// A connection. It is closed in two steps (RFC 9112, section 9.6): a socket that is closed with bytes of the client unread
/// resets the connection, and then the client may lose the last reply.
///
/// Its words are atomic so that both ends can go to another thread together; no two threads use it at a time.
pub(crate) struct Link<'a, R: Clock> {
    clock: &'a R,
    stream: TcpStream,
    start: Instant,
    // Which way bytes went last, when since the start they began to go that way, in nanoseconds, and how many went.
    way: AtomicU64,
    since: AtomicU64,
    moved: AtomicU64,
    // The limits of time that the socket has, in nanoseconds; 0: none.
    read_limit: AtomicU64,
    write_limit: AtomicU64,
}

// The ways.
const NEITHER: u64 = 0;

const READING: u64 = 1;

const WRITING: u64 = 2;

// How many milliseconds the client has to close its side once ours is closed.
const LINGER_MILLIS: u64 = 250;

// How many reads of what it still sends are made meanwhile, and how many bytes each takes.
const LINGER_READS: u32 = 256;

const LINGER_BYTES: usize = 4_096;

// How often a read or a write is tried again that a signal cut off.
const SIGNALS: u32 = 100;

impl<'a, R: Clock> Link<'a, R> {
    pub(crate) fn new(clock: &'a R, stream: TcpStream) -> io::Result<Link<'a, R>> {
        Ok(Link {
            clock,
            stream,
            start: Instant::now(clock)?,
            way: AtomicU64::new(NEITHER),
            since: AtomicU64::new(0),
            moved: AtomicU64::new(0),
            read_limit: AtomicU64::new(0),
            write_limit: AtomicU64::new(0),
        })
    }

    /// Reads for at most as long as is left of the allowance.
    pub(crate) fn read(&self, into: &mut [u8]) -> io::Result<usize>
        ensures { ReadsAtMost result into.new }
    {
        for _ in 0..SIGNALS {
            self.limit_reads(self.left(READING)?)?;
            let res = (&self.stream).read(into);
            self.count(&res);
            if !is_cut_off(&res) {
                return res;
            }
        }
        Err(io::Error::from(ErrorKind::Interrupted))
    }

    /// Writes for at most as long as is left of the allowance. A piece that was taken whole gives a new one.
    pub(crate) fn write(&self, piece: &[u8]) -> io::Result<usize>
        ensures { WritesAtMost result piece.now }
    {
        for _ in 0..SIGNALS {
            self.limit_writes(self.left(WRITING)?)?;
            let res = (&self.stream).write(piece);
            if is_whole(&res, piece.len()) {
                set(&self.way, NEITHER);
                return res;
            }
            self.count(&res);
            if !is_cut_off(&res) {
                return res;
            }
        }
        Err(io::Error::from(ErrorKind::Interrupted))
    }

    // What is left for bytes that go this way, which begins anew where the last ones went the other way.
    fn left(&self, way: u64) -> io::Result<Duration> {
        let now = nanos_of(self.start.elapsed(self.clock)?);
        if set(&self.way, way) {
            self.since.store(now, Ordering::SeqCst);
            set(&self.moved, 0);
        }
        let left = self.spent(now).left();
        if left.is_zero() {
            return Err(io::Error::from(ErrorKind::TimedOut));
        }
        Ok(left)
    }

    fn spent(&self, now: u64) -> Allowance {
        let waited = now.saturating_sub(self.since.load(Ordering::SeqCst));
        Allowance::spent(
            Duration::from_nanos(waited),
            self.moved.load(Ordering::SeqCst),
        )
    }

    fn count(&self, res: &io::Result<usize>) {
        if let Ok(count) = res {
            self.moved.fetch_add(*count as u64, Ordering::SeqCst);
        }
    }

    // A limit that the socket has already is not set again.
    fn limit_reads(&self, limit: Duration) -> io::Result<()> {
        if set(&self.read_limit, nanos_of(limit)) {
            return self.stream.set_read_timeout(Some(limit));
        }
        Ok(())
    }

    fn limit_writes(&self, limit: Duration) -> io::Result<()> {
        if set(&self.write_limit, nanos_of(limit)) {
            return self.stream.set_write_timeout(Some(limit));
        }
        Ok(())
    }
}

// Sets a word, where it has another value: a load costs far less than a store. It says whether it had.
fn set(word: &AtomicU64, value: u64) -> bool {
    let is_other = word.load(Ordering::SeqCst) != value;
    if is_other {
        word.store(value, Ordering::SeqCst);
    }
    is_other
}

fn nanos_of(time: Duration) -> u64 {
    u64::try_from(time.as_nanos()).unwrap_or(u64::MAX)
}

impl<'a, R: Clock> Drop for Link<'a, R> {
    fn drop(self) {
        let Link {
            clock,
            stream,
            start: _,
            way: _,
            since: _,
            moved: _,
            read_limit: _,
            write_limit: _,
        } = self;
        let _ = linger(clock, &stream);
    }
}

// Closes our side, and reads on until the client closes its own, for a short time and some bytes.
fn linger<R: Clock>(clock: &R, stream: &TcpStream) -> io::Result<()> {
    stream.shutdown(Shutdown::Write)?;
    let start = Instant::now(clock)?;
    let mut rest = [0; LINGER_BYTES];
    let mut reader = stream;
    for _ in 0..LINGER_READS {
        let left = Duration::from_millis(LINGER_MILLIS).saturating_sub(start.elapsed(clock)?);
        if left.is_zero() {
            return Ok(());
        }
        stream.set_read_timeout(Some(left))?;
        if reader.read(&mut rest)? == 0 {
            return Ok(());
        }
    }
    Ok(())
}

fn is_whole(res: &io::Result<usize>, len: usize) -> bool {
    match res {
        Ok(count) => *count == len,
        Err(_) => false,
    }
}

fn is_cut_off(res: &io::Result<usize>) -> bool {
    match res {
        Ok(_) => false,
        Err(error) => error.kind() == ErrorKind::Interrupted,
    }
}
