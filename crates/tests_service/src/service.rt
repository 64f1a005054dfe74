// A service over clients in memory.

use crate::client::{Keeps, Sends, Sent, import_and_publish, is_empty_of_0, is_published, query};
use gate::HoldGate;
use listeners::MemListener;
use osv_prim::Memory;
use serving::{Crew, serve};
use settings::Settings;
use std::alloc::{AllocError, Global};
use std::sync::{Arc, Mutex, Wait};
use std::thread::Threads;

/// How many lanes, helpers and clients there are, and for how many turns the gate holds.
#[derive(Clone, Copy, Debug)]
pub struct Case {
    pub lanes: u64,
    pub helpers: u64,
    pub clients: u64,
    pub turns: u64,
}

fn nothing_sent(alloc: Global) -> Result<Sent, Memory> {
    Ok(Arc::new(alloc, Mutex::new(Vec::new(alloc)))?)
}

// The clients of a case, with what each of them is sent.
fn connections<'a, R: Wait>(
    rt: &'a R,
    alloc: Global,
    gate: &'a HoldGate,
    clients: u64,
    first: &Sent,
    second: &Sent,
) -> Result<Vec<(Sends<'a>, Keeps<'a, R>)>, Memory> {
    let mut all = Vec::new(alloc);
    all.push((
        Sends::new(None, import_and_publish(alloc)?),
        Keeps::new(rt, first)?,
    ))?;
    if 1 < clients {
        all.push((
            Sends::new(Some(gate), query(alloc)?),
            Keeps::new(rt, second)?,
        ))?;
    }
    Ok(all)
}

// Serves the clients of a case, until there are no more.
fn serve_clients<'a, R: Threads + Wait + Sync + 'static>(
    host: &HostRuntime,
    rt: &'a R,
    gate: &'a HoldGate,
    case: Case,
    first: &Sent,
    second: &Sent,
) -> Result<(), Memory> {
    let alloc = host.alloc();
    let clients = connections(rt, alloc, gate, case.clients, first, second)?;
    let mut listener = MemListener::new(rt, alloc, clients)?;
    let crew = Crew {
        lanes: case.lanes,
        helpers: case.helpers,
    };
    serve(
        rt,
        host,
        alloc,
        &Settings::default(),
        crew,
        &mut listener,
        gate,
    )?;
    Ok(())
}

fn served<R: Threads + Wait + Sync + 'static>(
    host: &HostRuntime,
    rt: &R,
    case: Case,
) -> Result<String, Memory> {
    let alloc = host.alloc();
    let gate = HoldGate::new(1, 0, 1, case.turns);
    let (first, second) = (nothing_sent(alloc)?, nothing_sent(alloc)?);
    serve_clients(host, rt, &gate, case, &first, &second)?;
    let (published, empty) = (is_published(rt, &first), is_empty_of_0(rt, &second));
    let ran_out = gate.ran_out();
    Ok(format!(in alloc;
        "published: {published}, a query beside it: {empty}, the turns ran out: {ran_out}"
    )?)
}

/// Runs a service until its clients are served.
pub fn run<R: Threads + Wait + Sync + 'static>(
    host: &HostRuntime,
    rt: &R,
    case: Case,
) -> Result<String, AllocError> {
    match served(host, rt, case) {
        Ok(told) => Ok(told),
        Err(_) => Err(AllocError),
    }
}
