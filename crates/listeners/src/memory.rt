use crate::listener::Listener;
use edge_io::{Failed, Sink, Source};
use osv_prim::Memory;
use std::alloc::Global;
use std::sync::{Arc, Mutex, Wait};

/// A listener over connections that are there from the start, for tests. Over all its lanes it gives each of them once,
/// in their order, and then none.
#[derive(Drop)]
pub struct MemListener<'a, S, K, R: Wait> {
    rt: &'a R,
    // Those that are still to come, the next one last.
    waiting: Arc<Mutex<Vec<(S, K)>>>,
    closed: u64,
    faults: u64,
}

impl<'a, S: Source + Send + Drop, K: Sink + Send + Drop, R: Wait> MemListener<'a, S, K, R> {
    /// A listener that gives these connections. Only memory can fail.
    pub fn new(
        rt: &'a R,
        alloc: Global,
        connections: Vec<(S, K)>,
    ) -> Result<MemListener<'a, S, K, R>, Memory> {
        let mut waiting = connections;
        waiting.as_mut_slice().reverse();
        match Arc::new(alloc, Mutex::new(waiting)) {
            Ok(waiting) => Ok(MemListener {
                rt,
                waiting,
                closed: 0,
                faults: 0,
            }),
            Err(_) => Err(Memory),
        }
    }
}

impl<'a, S: Source + Send + Drop, K: Sink + Send + Drop, R: Wait + Sync> Listener
    for MemListener<'a, S, K, R> {
    type From = S;

    type To = K;

    ghost faults = { λ l. l.faults };

    ghost closed = { λ l. l.closed };

    /// Any address will do. It never fails.
    fn listen(&mut self, _address: &str) -> Result<(), Failed> {
        Ok(())
    }

    fn lane(&mut self) -> Result<MemListener<'a, S, K, R>, Failed> {
        match Arc::try_clone(&self.waiting) {
            Ok(waiting) => Ok(MemListener {
                rt: self.rt,
                waiting,
                closed: 0,
                faults: 0,
            }),
            Err(_) => {
                self.faults = self.faults.saturating_add(1);
                Err(Failed)
            }
        }
    }

    /// It never fails.
    fn accept(&mut self) -> Result<Option<(S, K)>, Failed> {
        let next = self.waiting.lock(self.rt).pop();
        if next.is_none() {
            self.closed = self.closed.saturating_add(1);
        }
        Ok(next)
    }
}
