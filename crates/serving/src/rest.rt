// The gate of a service: helpers that find nothing to do rest.

use gate::Gate;
use std::sync::atomic::{AtomicU64, Ordering};
use std::thread::sleep;
use std::time::{Clock, Duration};

// How many milliseconds a helper rests at least and at most that found nothing to do. It asks again by a turn of the lock, for
// which the lanes wait too, so it must not ask at once; and a publication waits for it no longer than this.
const LEAST_MILLIS: u64 = 1;

const MOST_MILLIS: u64 = 10;

// After so many questions for nothing a rest is a millisecond longer.
const PATIENCE: u64 = 32;

/// The gate that holds nobody. A worker that finds nothing to do sleeps a millisecond, and longer the more often workers
/// found nothing since a job was begun, up to ten.
#[derive(Drop)]
pub struct RestGate<'a, R> {
    clock: &'a R,
    // How often workers found nothing to do since then.
    idles: AtomicU64,
}

impl<'a, R: Clock> RestGate<'a, R> {
    /// The gate. Its workers sleep by this clock.
    pub fn new(clock: &'a R) -> RestGate<'a, R> {
        RestGate {
            clock,
            idles: AtomicU64::new(0),
        }
    }
}

impl<'a, R: Clock + Sync> Gate for RestGate<'a, R> {
    fn before(&self, _build: u64, _number: u32) {
        self.idles.store(0, Ordering::SeqCst);
    }

    fn after(&self, _build: u64, _number: u32) {}

    fn idle(&self) {
        let idles = self.idles.fetch_add(1, Ordering::SeqCst);
        let rest = (idles / PATIENCE).clamp(LEAST_MILLIS, MOST_MILLIS);
        sleep(self.clock, Duration::from_millis(rest));
    }
}
