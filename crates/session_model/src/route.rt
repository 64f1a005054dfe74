use http_wire::Allow;

/// Where a request leads to, by its path and its method.
#[derive(Clone, Copy, Debug, PartialEq, Eq)]
pub enum Route {
    /// No row of the table has its path.
    NoPath,
    /// Its path is asked by this method and no other.
    WrongMethod(Allow),
    /// `POST /v1/query`
    Query,
    /// `POST /v1/querybatch`
    QueryBatch,
    /// `GET /v1/vulns/{id}`
    Vulns,
    /// `POST /x/import`
    Import,
    /// `POST /x/repo?url={url}`
    Repo,
    /// `POST /x/publish`
    Publish,
}
