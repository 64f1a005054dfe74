// The requests of the cases, by their names.

use osv_prim::Memory;
use osv_record::Record;
use std::alloc::Global;
use std::sync::Arc;

const IMPORT: &str = concat!(
    "POST /x/import HTTP/1.1\r\nhost: a\r\ncontent-length: 123\r\n\r\n",
    r#"{"id":"X-1","modified":"2024-01-01T00:00:00Z","affected":[{"package":{"ecosystem":"npm","name":"p"},"versions":["1.0.0"]}]}"#,
);

const QUERY: &str = concat!(
    "POST /v1/query HTTP/1.1\r\nhost: a\r\ncontent-length: 60\r\n\r\n",
    r#"{"package":{"ecosystem":"npm","name":"p"},"version":"1.0.0"}"#,
);

// The same, which snapshot 3 or a later one has to answer.
const QUERY_OF_3: &str = concat!(
    "POST /v1/query HTTP/1.1\r\nhost: a\r\nx-osv-min-snapshot: 3\r\ncontent-length: 60\r\n\r\n",
    r#"{"package":{"ecosystem":"npm","name":"p"},"version":"1.0.0"}"#,
);

const PUBLISH: &str = "POST /x/publish HTTP/1.1\r\nhost: a\r\ncontent-length: 0\r\n\r\n";

/// The bytes of these requests, whose names stand with a space between each two.
pub fn requests(alloc: Global, names: &str) -> Result<Vec<u8>, Memory> {
    let mut all = Vec::new(alloc);
    for name in names.split(' ') {
        let request = match name {
            "import" => IMPORT,
            "query" => QUERY,
            "query-of-3" => QUERY_OF_3,
            "publish" => PUBLISH,
            _ => "",
        };
        all.extend_from_slice(request.as_bytes())?;
    }
    Ok(all)
}

/// The advisory that `import` brings. None is want of memory.
pub fn advisory(alloc: Global) -> Option<Arc<Record>> {
    let (_, body) = IMPORT.split_once("\r\n\r\n")?;
    let advisory = Record::read(alloc, body.as_bytes()).ok()?;
    Arc::new(alloc, advisory).ok()
}
