//! Reads cases of streams, a line each, and prints what the reader answers, in whatever pieces they come. With
//! the word `rows` it reads standard input as one stream and prints its commits.
#![tactic(auto)]

mod case;
mod feeding;
mod rows;
mod texts;

use std::{env, io};

fn main(rt: HostRuntime) -> io::Result<()> {
    if env::args(&rt)?.skip(1).next().is_some() {
        return rows::print_rows(&rt);
    }
    for line in rt.lines(rt.alloc()) {
        let answer = case::answer_of(rt.alloc(), line?.as_str())?;
        println!(rt; "{answer}")?;
    }
    Ok(())
}
