//! Reads lines `ORDER|ONE|OTHER`, with the order `semver`, `pypi` or `debian`, and prints how the two
//! versions compare, or which text is no version.
#![tactic(auto)]

use osv_prim::ReadVersion;
use std::alloc::Global;
use std::cmp::Ordering;
use std::io;

// How two versions compare, or which isn't one.
fn answer<K: Ord>(one: &Result<K, ReadVersion>, other: &Result<K, ReadVersion>) -> &'static str {
    match (one, other) {
        (Err(ReadVersion::Memory), _) | (_, Err(ReadVersion::Memory)) => "no memory",
        (Err(_), Err(_)) => "no versions",
        (Err(_), Ok(_)) => "the first is no version",
        (Ok(_), Err(_)) => "the second is no version",
        (Ok(one), Ok(other)) => sign(one, other),
    }
}

// The sign of the order, where `==` and the other direction agree with it.
fn sign<K: Ord>(one: &K, other: &K) -> &'static str {
    match (one.cmp(other), other.cmp(one), one == other) {
        (Ordering::Less, Ordering::Greater, false) => "<",
        (Ordering::Greater, Ordering::Less, false) => ">",
        (Ordering::Equal, Ordering::Equal, true) => "=",
        _ => "no order",
    }
}

fn compared(alloc: Global, order: &str, one: &str, other: &str) -> &'static str {
    match order {
        "debian" => answer(
            &order_debian::read(alloc, one),
            &order_debian::read(alloc, other),
        ),
        "pypi" => answer(
            &order_pypi::read(alloc, one),
            &order_pypi::read(alloc, other),
        ),
        "semver" => answer(
            &order_semver::read(alloc, one),
            &order_semver::read(alloc, other),
        ),
        _ => "an unknown order",
    }
}

fn line_answer(alloc: Global, line: &str) -> &'static str {
    let Some((order, texts)) = line.split_once('|') else {
        return "no order is named";
    };
    let Some((one, other)) = texts.split_once('|') else {
        return "there is one text";
    };
    compared(alloc, order, one, other)
}

fn main(rt: HostRuntime) -> io::Result<()> {
    for line in rt.lines(rt.alloc()) {
        let line = line?;
        let answer = line_answer(rt.alloc(), line.as_str());
        println!(rt; "{line}: {answer}")?;
    }
    Ok(())
}
