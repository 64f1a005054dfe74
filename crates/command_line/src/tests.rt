//! Each command is read. A reader that always answers want of memory fails here.

use crate::command::Command;
use crate::words::read;
use std::test::Fail;

const HEAD: &str = "0101010101010101010101010101010101010101";

const COMMANDS: [(&[&str], char); 8] = [
    (&["ask", "npm", "p", "1.0"], 'a'),
    (&["ask", "--commit", HEAD, "--input=5", "npm", "p"], 'a'),
    (&["check", "--input", "5"], 'c'),
    (&["replay", "--body=1", "--requests", "2", "--keep=1"], 'r'),
    (&["drill", "7", "2000"], 'd'),
    (&["replay", "now"], 'n'),
    (&["serve", "--lanes=1", "127.0.0.1:80"], 's'),
    (&["serve"], 'n'),
];

fn initial(command: &Option<Command>) -> char {
    match command {
        Some(Command::Ask { .. }) => 'a',
        Some(Command::Check { .. }) => 'c',
        Some(Command::Replay(_)) => 'r',
        Some(Command::Serve { .. }) => 's',
        Some(Command::Drill { .. }) => 'd',
        None => 'n',
    }
}

#[test]
fn each_command_is_read(rt: HostRuntime) -> Result<(), Fail> {
    for (words, wanted) in COMMANDS {
        let mut strings = Vec::new(rt.alloc());
        for word in words {
            strings.push(String::from_str(rt.alloc(), word)?)?;
        }
        let command = read(rt.alloc(), strings.as_slice())?;
        assert_eq!(rt; initial(&command), wanted);
    }
    Ok(())
}
