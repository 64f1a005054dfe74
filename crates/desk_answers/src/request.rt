ghost use Rattle.std.specs.Prelude.{◌≡◌, true, IfOk, length, drop, option_map, codes};
ghost use Rattle.std.specs.Cow.{cow_slice_items, cow_str_bytes};
ghost use Rattle.std.specs.Str.{bytes_eq};
ghost use Rattle.form_urlencoded.specs.Form.{raw_pairs};
ghost use Rattle.http_wire.specs.Replies.{method_of};
ghost use Rattle.session_model.specs.Routes.{begins, by_method, form_text, id_of, key_of, route_of, url_in, vulns};
ghost use Rattle.session_model.specs.Looks.{least_of};
ghost use Rattle.desk_answers.specs.Streams.{IsStreamed};

use form_urlencoded::{decode, raw_pairs};
use http_wire::{Allow, Request};
use osv_prim::{Bytes, Memory, RepoKey, read_u64};
use percent_encoding::percent_decode;
use session_model::Route;
use std::alloc::Global;
use std::borrow::{CowSlice, CowStr};

/// Where a request leads to.
#[tactic(auto, unfolding(session_model::specs::Routes::route_of))]
pub(crate) fn route_of(request: &Request) -> Route
    ensures { result ≡ route_of request.now }
{
    let path = request.path.as_slice();
    let method = request.method.as_slice();
    if path == b"/v1/query".as_slice() {
        return by_method(method, Allow::Post, Route::Query);
    }
    if path == b"/v1/querybatch".as_slice() {
        return by_method(method, Allow::Post, Route::QueryBatch);
    }
    if path == b"/x/import".as_slice() {
        return by_method(method, Allow::Post, Route::Import);
    }
    if path == b"/x/repo".as_slice() {
        return by_method(method, Allow::Post, Route::Repo);
    }
    if path == b"/x/publish".as_slice() {
        return by_method(method, Allow::Post, Route::Publish);
    }
    if begins(b"/v1/vulns/", path) {
        return by_method(method, Allow::Get, Route::Vulns);
    }
    Route::NoPath
}

/// Whether nothing but the commits of a request's body is wanted, so that it need not be kept: it leads to the
/// repositories, or its path is asked by another method.
pub fn is_streamed(request: &Request) -> bool
    ensures { result ≡ true → IsStreamed (route_of request.now) }
{
    matches!(route_of(request), Route::Repo | Route::WrongMethod(_))
}

fn begins(word: &[u8], text: &[u8]) -> bool
    ensures { result ≡ begins word.now text.now }
{
    text.strip_prefix(word).is_some()
}

fn by_method(method: &[u8], allow: Allow, route: Route) -> Route
    ensures { result ≡ by_method method.now allow route }
{
    if method == name_of(allow) {
        return route;
    }
    Route::WrongMethod(allow)
}

fn name_of(allow: Allow) -> &'static [u8]
    ensures { result.now ≡ method_of allow }
{
    match allow {
        Allow::Get => b"GET",
        Allow::Post => b"POST",
    }
}

/// The snapshot that the client wants at least, 0 where it names none, or none where it names no number.
pub(crate) fn least_of(min: &Option<Bytes>) -> Option<u64>
    ensures { result ≡ least_of min.now }
{
    match min {
        None => Some(0),
        Some(text) => read_u64(text.as_slice()),
    }
}

/// The id that a path of an advisory names, decoded.
pub(crate) fn id_of(alloc: Global, path: &[u8]) -> Result<CowSlice<'_, u8>, Memory>
    ensures { IfOk result (λ id. cow_slice_items id ≡ id_of path.now) }
{
    Ok(percent_decode(behind_vulns(path)).into_cow(alloc)?)
}

fn behind_vulns(path: &[u8]) -> &[u8]
    ensures { result.now ≡ drop (length vulns) path.now }
{
    match path.split_at_checked(10) {
        Some((_, id)) => id,
        None => &[],
    }
}

/// The key of the repository that a query names.
#[tactic(auto, unfolding(session_model::specs::Routes::key_of))]
pub(crate) fn key_of(alloc: Global, query: &[u8]) -> Result<Option<RepoKey>, Memory>
    ensures { IfOk result (λ key. key ≡ key_of query.now) }
{
    let Some(url) = url_of(alloc, query)? else {
        return Ok(None);
    };
    let key = RepoKey::normal(alloc, url.as_str())?;
    if key.as_str().is_empty() {
        return Ok(None);
    }
    Ok(Some(key))
}

// The value of the first `url` of a form.
fn url_of(alloc: Global, form: &[u8]) -> Result<Option<CowStr<'_>>, Memory>
    ensures { IfOk result (λ url. option_map cow_str_bytes url ≡ url_in (raw_pairs form.now)) }
{
    let mut pairs = raw_pairs(form);
    while let Some((name, value)) = pairs.next() {
        if is_url(alloc, name)? {
            return Ok(Some(decode(alloc, value)?));
        }
    }
    Ok(None)
}

fn is_url(alloc: Global, name: &[u8]) -> Result<bool, Memory>
    ensures { IfOk result (λ is. is ≡ bytes_eq (form_text name.now) (codes "url")) }
{
    let name = decode(alloc, name)?;
    Ok(name.as_str() == "url")
}
