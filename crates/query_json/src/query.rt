ghost use Rattle.std.specs.Prelude.{◌≡◌, ◌≢◌, Ok, Err, IfOk, IfErr, option_map};
ghost use Rattle.osv_prim.specs.Oids.{oid_of};
ghost use Rattle.osv_prim.specs.Results.{Gives, or_refuse};
ghost use Rattle.page_token.specs.Tokens.{token_of};
ghost use Rattle.json_view.specs.Json.{json};
ghost use Rattle.json_view.specs.Views.{document_value, node_value};
ghost use Rattle.query_json.specs.Members.{if_there, members_in};
ghost use Rattle.query_json.specs.Queries.{meaning_of, query, query_of, subject_of};

use crate::asked::{Asked, package_of, purl_of, url_of};
use crate::fault::QueryFault;
use crate::members::{Members, members_of};
use json_view::{Buffers, Document, JsonFault, Node};
use osv_prim::{Oid, Stop, Subject};
use page_token::{Token, TokenFault};
use std::alloc::Global;

/// What a client asks for, and where in the answer it goes on.
#[derive(Debug, Drop)]
pub struct Query {
    /// The package, commit, or both.
    pub subject: Subject,
    /// The page token, where the query goes on behind a page.
    pub page: Option<Token>,
}

fn commit_of(text: Option<&str>) -> Result<Option<Oid>, Stop<QueryFault>>
    ensures { Gives (λ o. o) result (if_there QueryFault.BadCommit oid_of (option_map (λ t. t.now) text.entry)) }
{
    let Some(text) = text else {
        return Ok(None);
    };
    match Oid::read(text.as_bytes()) {
        Ok(oid) => Ok(Some(oid)),
        Err(_) => Err(Stop::Refused(QueryFault::BadCommit)),
    }
}

fn page_of(alloc: Global, text: Option<&str>) -> Result<Option<Token>, Stop<QueryFault>>
    ensures { Gives (λ t. t) result (if_there QueryFault.BadToken token_of (option_map (λ t. t.now) text.entry)) }
{
    let Some(text) = text else {
        return Ok(None);
    };
    match page_token::read(alloc, text) {
        Ok(token) => Ok(Some(token)),
        Err(TokenFault::BadToken) => Err(Stop::Refused(QueryFault::BadToken)),
        Err(TokenFault::Memory) => Err(Stop::Memory),
    }
}

#[tactic(auto, unfolding(crate::specs::Queries::subject_of))]
fn subject_of(
    commit: Option<Oid>,
    asked: Option<Asked>,
    version: Option<&str>,
) -> Result<Subject, Stop<QueryFault>>
    ensures { Gives (λ s. s) result (subject_of commit asked (option_map (λ v. v.now) version.entry)) }
{
    match (commit, asked) {
        (None, None) => Err(Stop::Refused(QueryFault::NoSubject)),
        (None, Some(asked)) => Ok(Subject::Package(asked.key, asked.version)),
        (Some(commit), None) => match version {
            Some(_) => Err(Stop::Refused(QueryFault::CommitWithVersion)),
            None => Ok(Subject::Commit(commit)),
        },
        (Some(commit), Some(asked)) => match asked.version {
            Some(_) => Err(Stop::Refused(QueryFault::CommitWithVersion)),
            None => Ok(Subject::CommitIn(commit, asked.key)),
        },
    }
}

#[tactic(auto, unfolding(crate::specs::Queries::meaning_of))]
fn meaning_of(alloc: Global, members: Members) -> Result<Query, Stop<QueryFault>>
    ensures { Gives (λ q. q) result (meaning_of (members_in members.entry)) }
{
    let commit = commit_of(members.commit)?;
    let purl = purl_of(alloc, url_of(members.package))?;
    let asked = package_of(alloc, members.package, members.version, purl)?;
    let subject = subject_of(commit, asked, members.version)?;
    let page = page_of(alloc, members.page_token)?;
    Ok(Query { subject, page })
}

#[tactic(auto, unfolding(crate::specs::Queries::query_of))]
pub(crate) fn query_of(alloc: Global, node: Node) -> Result<Query, Stop<QueryFault>>
    ensures { Gives (λ q. q) result (query_of (node_value node.entry)) }
{
    let members = members_of(node)?;
    meaning_of(alloc, members)
}

pub(crate) fn document_of<'a>(
    alloc: Global,
    bytes: &'a [u8],
    buffers: &'a mut Buffers,
) -> Result<Document<'a>, Stop<QueryFault>>
    ensures { Gives document_value result (or_refuse QueryFault.NotJson (json bytes.now)) }
{
    match Document::read(alloc, bytes, buffers) {
        Ok(document) => Ok(document),
        Err(JsonFault::NotJson) => Err(Stop::Refused(QueryFault::NotJson)),
        Err(JsonFault::Memory) => Err(Stop::Memory),
    }
}

#[tactic(auto, unfolding(crate::specs::Queries::query))]
fn query_from(alloc: Global, bytes: &[u8], buffers: &mut Buffers) -> Result<Query, Stop<QueryFault>>
    ensures { Gives (λ q. q) result (query bytes.now) }
{
    let document = document_of(alloc, bytes, buffers)?;
    query_of(alloc, document.root())
}

/// The query that bytes are (OSV.dev API v1, "POST /v1/query"), or the first refusal. Null and the
/// empty text count as absent; members that are not named in `Member` are passed over.
pub fn read_query(alloc: Global, bytes: &[u8]) -> Result<Query, QueryFault>
    ensures value { IfOk result (λ q. query bytes.now ≡ Ok q) }
    ensures refused { IfErr result (λ e. e ≢ QueryFault.Memory → query bytes.now ≡ Err e) }
{
    read_query_in(alloc, bytes, &mut Buffers::new(alloc))
}

/// The same, in buffers that are kept from one body to the next, which is faster for many.
pub fn read_query_in(
    alloc: Global,
    bytes: &[u8],
    buffers: &mut Buffers,
) -> Result<Query, QueryFault>
    ensures value { IfOk result (λ q. query bytes.now ≡ Ok q) }
    ensures refused { IfErr result (λ e. e ≢ QueryFault.Memory → query bytes.now ≡ Err e) }
{
    match query_from(alloc, bytes, buffers) {
        Ok(query) => Ok(query),
        Err(Stop::Memory) => Err(QueryFault::Memory),
        Err(Stop::Refused(fault)) => Err(fault),
    }
}
