// Two callers of one book.
ghost use Rattle.std.specs.Prelude.{◌≡◌, None};
ghost use Rattle.settings.specs.Ranges.{default_settings};

use crate::opening::{entered, opened};
use crate::requests::requests;
use crate::session::{serve, serve_all};
use book_desk::Desk;
use edge_io::{CalmSink, CalmSource, Failed, Sink, Source};
use osv_prim::{Ledger, Memory, Steps};
use std::alloc::Global;
use std::sync::Wait;

// The three parts of a case; those that are missing are empty.
fn parts(names: &str) -> (&str, &str, &str) {
    let (first, rest) = names.split_once(" / ").unwrap_or((names, ""));
    let (second, third) = rest.split_once(" / ").unwrap_or((rest, ""));
    (first, second, third)
}

// A source of requests, which has another caller's session before it gives the last ones.
#[derive(Drop)]
struct Meeting<'a, D: Desk, L: Ledger> {
    alloc: Global,
    first: CalmSource,
    last: CalmSource,
    between: Option<CalmSource>,
    other: D,
    steps: &'a mut Steps<L>,
    ghost suits: { (D.caller other).settings ≡ default_settings },
}

impl<'a, D: Desk, L: Ledger> Source for Meeting<'a, D, L> {
    ghost left = { λ _. None };

    ghost faults = { λ _. 0 };

    fn read(&mut self, into: &mut [u8]) -> Result<usize, Failed> {
        let count = self.first.read(into)?;
        if 0 < count {
            return Ok(count);
        }
        if let Some(mut source) = self.between.take() {
            serve(
                self.alloc,
                &mut self.other,
                &mut source,
                &mut CalmSink::new(),
                self.steps,
            );
        }
        self.last.read(into)
    }
}

/// A session of the first and the last requests, with another caller's of those between before the last ones.
pub fn between<R: Wait, K: Sink, L: Ledger, M: Ledger>(
    rt: &R,
    alloc: Global,
    names: &str,
    sink: &mut K,
    steps: &mut Steps<L>,
    others: &mut Steps<M>,
) -> Result<(), Memory> {
    let (first, second, third) = parts(names);
    let (lock, pass) = opened(alloc)?;
    let (pass, theirs) = lock.split(pass);
    let mut desk = entered(rt, &lock, pass)?;
    let mut source = Meeting {
        alloc,
        first: CalmSource::new(requests(alloc, first)?),
        last: CalmSource::new(requests(alloc, third)?),
        between: Some(CalmSource::new(requests(alloc, second)?)),
        other: entered(rt, &lock, theirs)?,
        steps: others,
    };
    serve(alloc, &mut desk, &mut source, sink, steps);
    Ok(())
}

/// A session of one caller, one of another, and a second one of that, into whose pass that of the first was joined.
pub fn met<R: Wait, K: Sink, L: Ledger>(
    rt: &R,
    alloc: Global,
    names: &str,
    sink: &mut K,
    steps: &mut Steps<L>,
) -> Result<(), Memory> {
    let (first, second, third) = parts(names);
    let (lock, pass) = opened(alloc)?;
    let (pass, theirs) = lock.split(pass);
    let mut one = entered(rt, &lock, pass)?;
    let mut other = entered(rt, &lock, theirs)?;
    serve_all(alloc, &mut one, first, sink, steps)?;
    serve_all(alloc, &mut other, second, sink, steps)?;
    let (_, told) = lock.split(one.leave());
    let mut desk = entered(rt, &lock, lock.join(other.leave(), told))?;
    serve_all(alloc, &mut desk, third, sink, steps)
}
