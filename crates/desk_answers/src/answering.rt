ghost use Rattle.std.specs.Prelude.{◌≡◌, ◌≢◌, true, false};
ghost use Rattle.session_model.specs.declared.route.Route.TheVariants as routes;
ghost use Rattle.desk_answers.specs.Gives.{Gives, GivesAt};
ghost use Rattle.desk_answers.specs.Streams.{IsRead};
ghost use Rattle.http_wire.specs.declared.request.Request.{Request};

use crate::batch::batch;
use crate::find::vulns;
use crate::import::import;
use crate::publish::publish;
use crate::query::query;
use crate::reply::{Answered, refused, wrong_method};
use crate::repo::repo;
use crate::request::route_of;
use book_desk::Desk;
use gate::Gate;
use http_wire::{Out, Request};
use osv_prim::{Ledger, Memory, Steps};
use osv_record::Buffers;
use reply_json::Refusal;
use session_model::{Route, Sign};
use settings::Settings;
use std::alloc::Global;
use stream_body::{Commits, commits_in};

/// Answers a request that was read, by the settings of the desk, in buffers and room for replies that are kept from one
/// request to the next. `come` is what came of its body where that was read as a stream and not kept. `closes` says
/// whether the connection closes behind the reply. Only memory can fail, and then the request has entered
/// nothing, but that a publication may be there, whole or in part.
pub fn answer<D: Desk, G: Gate, L: Ledger>(
    alloc: Global,
    desk: &mut D,
    gate: &G,
    request: Request,
    come: Option<Commits>,
    closes: bool,
    settings: &Settings,
    buffers: &mut Buffers,
    out: &mut Out,
    steps: &mut Steps<L>,
) -> Result<Answered, Memory>
    requires { (D.caller desk.old).settings ≡ settings.now }
    ensures { (q : Request) → IsRead settings.now.commits request come q → Gives (D.caller desk.old) (D.caller desk.new) closes q result }
{
    let route = route_of(&request);
    let Some(come) = come else {
        return answer_at(
            alloc, desk, gate, request, route, closes, settings, buffers, out, steps,
        );
    };
    if is_repo(route) {
        return repo(alloc, desk, &request, come, closes, settings.commits, steps);
    }
    answer_at(
        alloc, desk, gate, request, route, closes, settings, buffers, out, steps,
    )
}

fn is_repo(route: Route) -> bool
    ensures yes { result ≡ true → route ≡ routes.Repo }
    ensures no { result ≡ false → route ≢ routes.Repo }
{
    matches!(route, Route::Repo)
}

// Answers a request that leads there.
fn answer_at<D: Desk, G: Gate, L: Ledger>(
    alloc: Global,
    desk: &mut D,
    gate: &G,
    request: Request,
    route: Route,
    closes: bool,
    settings: &Settings,
    buffers: &mut Buffers,
    out: &mut Out,
    steps: &mut Steps<L>,
) -> Result<Answered, Memory>
    requires { (D.caller desk.old).settings ≡ settings.now }
    ensures { GivesAt (D.caller desk.old) (D.caller desk.new) closes request route result }
{
    let _known = desk.point();
    match route {
        Route::NoPath => refused(alloc, Sign::Plain, closes, &Refusal::NoSuchPath),
        Route::WrongMethod(allow) => wrong_method(alloc, closes, allow),
        Route::Query => query(
            alloc,
            desk,
            &request,
            closes,
            settings.page,
            buffers,
            out,
            steps,
        ),
        Route::QueryBatch => batch(
            alloc,
            desk,
            &request,
            closes,
            settings.page,
            buffers,
            out,
            steps,
        ),
        Route::Repo => {
            let come = commits_in(alloc, request.body.as_slice(), settings.commits);
            repo(alloc, desk, &request, come, closes, settings.commits, steps)
        }
        Route::Vulns => vulns(alloc, desk, &request, closes, out),
        Route::Import => import(alloc, desk, request, closes, buffers),
        Route::Publish => publish(alloc, desk, gate, &request, closes, steps),
    }
}
