//! Requests through `replay`, over sources and sinks in memory.

use crate::tests::{Run, run_over};
use std::test::Fail;

// An import, a query before its publication and behind it, and the same publication again.
const PUBLISHED: &str = concat!(
    "POST /x/import HTTP/1.1\r\nhost: a\r\ncontent-length: 123\r\n\r\n",
    r#"{"id":"X-1","modified":"2024-01-01T00:00:00Z","affected":[{"package":{"ecosystem":"npm","name":"p"},"versions":["1.0.0"]}]}"#,
    "POST /v1/query HTTP/1.1\r\nhost: a\r\ncontent-length: 60\r\n\r\n",
    r#"{"package":{"ecosystem":"npm","name":"p"},"version":"1.0.0"}"#,
    "POST /x/publish HTTP/1.1\r\nhost: a\r\ncontent-length: 0\r\n\r\n",
    "POST /v1/query HTTP/1.1\r\nhost: a\r\ncontent-length: 60\r\n\r\n",
    r#"{"package":{"ecosystem":"npm","name":"p"},"version":"1.0.0"}"#,
    "POST /x/publish HTTP/1.1\r\nhost: a\r\ncontent-length: 0\r\n\r\n",
);

const PUBLISHED_REPLIES: &str = concat!(
    "HTTP/1.1 200 OK\r\ncontent-type: application/json\r\ncontent-length: 11\r\n\r\n",
    r#"{"entry":0}"#,
    "HTTP/1.1 200 OK\r\ncontent-type: application/json\r\ncontent-length: 2\r\nx-osv-snapshot: 0\r\n\r\n",
    r#"{}"#,
    "HTTP/1.1 200 OK\r\ncontent-type: application/json\r\ncontent-length: 43\r\n\r\n",
    r#"{"state":"published","snapshot":1,"upto":1}"#,
    "HTTP/1.1 200 OK\r\ncontent-type: application/json\r\ncontent-length: 135\r\nx-osv-snapshot: 1\r\n\r\n",
    r#"{"vulns":[{"id":"X-1","modified":"2024-01-01T00:00:00Z","affected":[{"package":{"ecosystem":"npm","name":"p"},"versions":["1.0.0"]}]}]}"#,
    "HTTP/1.1 200 OK\r\ncontent-type: application/json\r\ncontent-length: 43\r\n\r\n",
    r#"{"state":"published","snapshot":1,"upto":1}"#,
);

// The second import finds no room.
const FULL: &str = concat!(
    "POST /x/import HTTP/1.1\r\nhost: a\r\ncontent-length: 123\r\n\r\n",
    r#"{"id":"X-1","modified":"2024-01-01T00:00:00Z","affected":[{"package":{"ecosystem":"npm","name":"p"},"versions":["1.0.0"]}]}"#,
    "POST /x/import HTTP/1.1\r\nhost: a\r\ncontent-length: 123\r\n\r\n",
    r#"{"id":"X-1","modified":"2024-01-01T00:00:00Z","affected":[{"package":{"ecosystem":"npm","name":"p"},"versions":["1.0.0"]}]}"#,
);

const FULL_REPLIES: &str = concat!(
    "HTTP/1.1 200 OK\r\ncontent-type: application/json\r\ncontent-length: 11\r\n\r\n",
    r#"{"entry":0}"#,
    "HTTP/1.1 507 Insufficient Storage\r\ncontent-type: application/json\r\ncontent-length: 56\r\n\r\n",
    r#"{"code":20,"message":"journal full, used 187 limit 200"}"#,
);

// A withdrawn advisory is found by its id alone.
const WITHDRAWN: &str = concat!(
    "POST /x/import HTTP/1.1\r\nhost: a\r\ncontent-length: 158\r\n\r\n",
    r#"{"id":"X-1","modified":"2024-01-01T00:00:00Z","withdrawn":"2024-01-02T00:00:00Z","affected":[{"package":{"ecosystem":"npm","name":"p"},"versions":["1.0.0"]}]}"#,
    "POST /x/publish HTTP/1.1\r\nhost: a\r\ncontent-length: 0\r\n\r\n",
    "POST /v1/query HTTP/1.1\r\nhost: a\r\ncontent-length: 60\r\n\r\n",
    r#"{"package":{"ecosystem":"npm","name":"p"},"version":"1.0.0"}"#,
    "GET /v1/vulns/X-1 HTTP/1.1\r\nhost: a\r\n\r\nGET /v1/vulns/NO-1 HTTP/1.1\r\nhost: a\r\n\r\nGET /v1/query HTTP/1.1\r\nhost: a\r\n\r\n",
);

const WITHDRAWN_REPLIES: &str = concat!(
    "HTTP/1.1 200 OK\r\ncontent-type: application/json\r\ncontent-length: 11\r\n\r\n",
    r#"{"entry":0}"#,
    "HTTP/1.1 200 OK\r\ncontent-type: application/json\r\ncontent-length: 43\r\n\r\n",
    r#"{"state":"published","snapshot":1,"upto":1}"#,
    "HTTP/1.1 200 OK\r\ncontent-type: application/json\r\ncontent-length: 2\r\nx-osv-snapshot: 1\r\n\r\n",
    r#"{}"#,
    "HTTP/1.1 200 OK\r\ncontent-type: application/json\r\ncontent-length: 158\r\nx-osv-snapshot: 1\r\n\r\n",
    r#"{"id":"X-1","modified":"2024-01-01T00:00:00Z","withdrawn":"2024-01-02T00:00:00Z","affected":[{"package":{"ecosystem":"npm","name":"p"},"versions":["1.0.0"]}]}"#,
    "HTTP/1.1 404 Not Found\r\ncontent-type: application/json\r\ncontent-length: 34\r\n\r\n",
    r#"{"code":11,"message":"no such id"}"#,
    "HTTP/1.1 405 Method Not Allowed\r\ncontent-type: application/json\r\ncontent-length: 42\r\nallow: POST\r\nconnection: close\r\n\r\n",
    r#"{"code":10,"message":"method not allowed"}"#,
);

const BOTH_LENGTHS: &str = concat!(
    "POST /x/publish HTTP/1.1\r\nhost: a\r\ncontent-length: 2\r\ntransfer-encoding: chunked\r\n\r\n",
);

const BOTH_LENGTHS_REPLY: &str = concat!(
    "HTTP/1.1 400 Bad Request\r\ncontent-type: application/json\r\ncontent-length: 60\r\nconnection: close\r\n\r\n",
    r#"{"code":3,"message":"content-length with transfer-encoding"}"#,
);

const RUNS: [Run; 5] = [
    Run {
        words: &["replay"],
        input: PUBLISHED,
        status: 0,
        output: PUBLISHED_REPLIES,
    },
    Run {
        words: &["replay", "--weight", "200"],
        input: FULL,
        status: 0,
        output: FULL_REPLIES,
    },
    Run {
        words: &["replay", "--keep=1", "--requests=6"],
        input: WITHDRAWN,
        status: 5,
        output: WITHDRAWN_REPLIES,
    },
    Run {
        words: &["replay"],
        input: BOTH_LENGTHS,
        status: 5,
        output: BOTH_LENGTHS_REPLY,
    },
    Run {
        words: &["replay"],
        input: "GET /v1/vulns/X-1 HTTP/1.1\r\nho",
        status: 5,
        output: "",
    },
];

// A session that always answers want of memory fails here.
#[test]
fn requests_are_answered_in_whatever_pieces_they_come(rt: HostRuntime) -> Result<(), Fail> {
    for most in [1u64, 7, 1 << 20] {
        for run in &RUNS {
            let end = run_over(
                &rt,
                run.words,
                run.input,
                (None, None),
                most,
                run.output.as_bytes(),
            )?;
            assert_eq!(rt; end, (run.status, true), "{} at {most}", run.input);
        }
    }
    Ok(())
}

#[test]
fn a_write_that_fails_in_a_session_ends_it_with_4(rt: HostRuntime) -> Result<(), Fail> {
    let output = PUBLISHED_REPLIES.as_bytes();
    for call in 0..output.len() {
        let end = run_over(
            &rt,
            &["replay"],
            PUBLISHED,
            (None, Some(call as u64)),
            1,
            &output[..call],
        )?;
        assert_eq!(rt; end, (4, true), "after {call}");
    }
    Ok(())
}
