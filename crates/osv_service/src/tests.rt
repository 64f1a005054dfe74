//! Runs over sources and sinks in memory.

use crate::with_steps;
use edge_io::{MemSink, MemSource};
use osv_prim::Unkept;
use std::sync::ledger::Blank;
use std::test::Fail;

const ASK: [&str; 4] = ["ask", "npm", "p", "1.0.0"];

const ROW: &str = concat!(
    r#"{"id":"X-2","modified":"2024-01-01T00:00:00Z","affected":[{"package":{"ecosystem":"npm","name":"p"},"versions":["1.0.0"]}]}"#,
    "\n",
    r#"{"id":"X-1","modified":"2024-01-01T00:00:00Z","affected":[{"package":{"ecosystem":"npm","name":"p"},"versions":["1.0.0"]}]}"#,
    "\n",
    r#"{"id":"X-3","modified":"2024-01-01T00:00:00Z","affected":[{"package":{"ecosystem":"npm","name":"p"},"versions":["2.0.0"]}]}"#,
    "\n",
);

const TWO: &str = concat!(
    r#"{"id":"X-2","modified":"2024-01-01T00:00:00Z","affected":[{"package":{"ecosystem":"npm","name":"p"},"versions":["1.0.0"]}]}"#,
    "\n\n",
    r#"{"id":"X-1","modified":"2024-01-01T00:00:00Z","affected":[{"package":{"ecosystem":"npm","name":"p"},"versions":["1.0.0"]}]}"#,
);

const OVER: &str = concat!(
    r#"{"id":"X-1","modified":"2024-01-01T00:00:00Z","affected":[{"package":{"ecosystem":"npm","name":"p"},"versions":["1.0.0"]}]}"#,
    "\n",
    r#"{"id":"X-1","modified":"2024-01-01T00:00:00Z","affected":[{"package":{"ecosystem":"npm","name":"p"},"versions":["2.0.0"]}]}"#,
    "\n",
);

// The status of a run, and whether the bytes that were written are the wanted ones.
pub(crate) fn run_over(
    rt: &HostRuntime,
    words: &[&str],
    input: &str,
    fails: (Option<u64>, Option<u64>),
    most: u64,
    wanted: &[u8],
) -> Result<(u8, bool), Fail> {
    let most = most.max(1);
    let mut strings = Vec::new(rt.alloc());
    for word in words {
        strings.push(String::from_str(rt.alloc(), word)?)?;
    }
    let mut reads = Vec::new(rt.alloc());
    if let Some(call) = fails.0 {
        reads.push(call)?;
    }
    let mut writes = Vec::new(rt.alloc());
    if let Some(call) = fails.1 {
        writes.push(call)?;
    }
    let mut source = MemSource::new(input.as_bytes().to_vec(rt.alloc())?, reads, most);
    let mut sink = MemSink::new(rt.alloc(), writes, most);
    let status = with_steps::<_, _, Unkept>(
        rt,
        strings.as_slice(),
        &mut source,
        &mut sink,
        Blank::new(2),
    );
    Ok((status, sink.bytes() == wanted))
}

const RANGED: &str = concat!(
    "\n",
    r#"{"id":"X-6","modified":"2024-01-01T00:00:00Z","affected":[{"package":{"ecosystem":"npm","name":"p"},"ranges":[{"type":"SEMVER","events":[{"introduced":"0"},{"fixed":"1.0.0"},{"last_affected":"0.9.0"}]}]}]}"#,
    "\n",
    r#"{"id":"X-6","modified":"2024-01-01T00:00:00Z","affected":[{"package":{"ecosystem":"npm","name":"p"},"ranges":[{"type":"SEMVER","events":[{"introduced":"1.0.0"},{"fixed":"2.0.0"}]}]}]}"#,
);

const CHECKED: &str = concat!(
    "\n",
    r#"{"id":"X-6","modified":"2024-01-01T00:00:00Z","affected":[{"package":{"ecosystem":"npm","name":"p"},"ranges":[{"type":"SEMVER","events":[{"introduced":"0"},{"fixed":"1.0.0"},{"last_affected":"0.9.0"}]}]}]}"#,
    "\n{}\n",
    r#"{"id":"X-1","modified":"2024-01-01T00:00:00Z"}"#,
);

// What a run is given, and what it has to end with.
pub(crate) struct Run {
    pub(crate) words: &'static [&'static str],
    pub(crate) input: &'static str,
    pub(crate) status: u8,
    pub(crate) output: &'static str,
}

const SPELLED: &str =
    r#"{"id":"X-1","modified":"2024-01-01T00:00:00Z","affected":[{"package":{"ecosystem":"PyPI:x","name":"My__.Pkg"},"versions":["1.0"]}]}"#;

const RELEASE: &str =
    r#"{"id":"X-1","modified":"2024-01-01T00:00:00Z","affected":[{"package":{"ecosystem":"Debian:12","name":"a"},"versions":[""]}]}"#;

const RUNS: [Run; 14] = [
    Run {
        words: &ASK,
        input: ROW,
        status: 0,
        output: "X-1\nX-2\n",
    },
    Run {
        words: &ASK,
        input: TWO,
        status: 0,
        output: "X-1\nX-2\n",
    },
    Run {
        words: &ASK,
        input: OVER,
        status: 0,
        output: "",
    },
    Run {
        words: &ASK,
        input: "",
        status: 0,
        output: "",
    },
    Run {
        words: &["ask", "PyPI", "MY-pkg", "1.0"],
        input: SPELLED,
        status: 0,
        output: "X-1\n",
    },
    Run {
        words: &["ask", "PyPI:y", "my-pkg", "1.0"],
        input: SPELLED,
        status: 0,
        output: "",
    },
    Run {
        words: &["ask", "Debian", "a", ""],
        input: RELEASE,
        status: 0,
        output: "X-1\n",
    },
    Run {
        words: &["ask", "Debian:11", "a", ""],
        input: RELEASE,
        status: 0,
        output: "",
    },
    Run {
        words: &["ask", "npm", "p"],
        input: TWO,
        status: 0,
        output: "X-1\nX-2\n",
    },
    Run {
        words: &["ask", "npm", "p", "1.1.0"],
        input: RANGED,
        status: 0,
        output: "X-6\n",
    },
    Run {
        words: &["check"],
        input: CHECKED,
        status: 5,
        output: "2 ok X-6\n2 notice 1 FixedAndLast entry 0 range 0\n3 refused 3 NoId\n4 ok X-1\n",
    },
    Run {
        words: &["ask", "npm", "p", "-1"],
        input: TWO,
        status: 2,
        output: crate::program::USAGE,
    },
    Run {
        words: &ASK,
        input: "\n\n{",
        status: 5,
        output: "refused line 3 1 NotJson\n",
    },
    Run {
        words: &ASK,
        input: "\n[]",
        status: 5,
        output: "refused line 2 2 NotObject\n",
    },
];

// A program that always answers want of memory fails here.
#[test]
fn runs_end_with_their_status_and_output(rt: HostRuntime) -> Result<(), Fail> {
    for most in [1u64, 7, 1 << 20] {
        for run in &RUNS {
            let end = run_over(
                &rt,
                run.words,
                run.input,
                (None, None),
                most,
                run.output.as_bytes(),
            )?;
            assert_eq!(rt; end, (run.status, true), "{} at {most}", run.input);
        }
    }
    let end = run_over(
        &rt,
        &["ask", "npm"],
        TWO,
        (None, None),
        1,
        crate::program::USAGE.as_bytes(),
    )?;
    assert_eq!(rt; end, (2, true), "too few words");
    Ok(())
}

#[test]
fn a_read_that_fails_after_any_number_of_bytes_ends_with_3(rt: HostRuntime) -> Result<(), Fail> {
    let input = "{\"id\":\"X-1\",\"modified\":\"2024-01-01T00:00:00Z\"}\n";
    for call in 0..=input.len() as u64 {
        let end = run_over(&rt, &ASK, input, (Some(call), None), 1, b"")?;
        assert_eq!(rt; end, (3, true), "after {call}");
    }
    Ok(())
}

#[test]
fn a_write_that_fails_after_any_number_of_bytes_ends_with_4(rt: HostRuntime) -> Result<(), Fail> {
    let output = b"X-1\nX-2\n";
    for call in 0..output.len() {
        let end = run_over(
            &rt,
            &ASK,
            TWO,
            (None, Some(call as u64)),
            1,
            &output[..call],
        )?;
        assert_eq!(rt; end, (4, true), "after {call}");
    }
    let end = run_over(&rt, &["ask"], TWO, (None, Some(5)), 1, b"usage")?;
    assert_eq!(rt; end, (4, true), "the usage text");
    Ok(())
}
