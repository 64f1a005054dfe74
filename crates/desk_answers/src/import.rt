ghost use Rattle.std.specs.Prelude.{◌≡◌, ◌≤◌, [], vec_len, vec_capacity};
ghost use Rattle.std.specs.Arc.{arc_value};
ghost use Rattle.reply_json.specs.Bodies.{entry_body};
ghost use Rattle.session_model.specs.declared.route.Route.TheVariants as routes;
ghost use Rattle.desk_answers.specs.Gives.{GivesAt};
ghost use Rattle.desk_answers.specs.Shown.{ImportsAs};

use crate::put::put;
use crate::reply::{Answered, done, refused};
use book_desk::{Desk, ImportFault};
use desk_calls::import_of;
use http_wire::Request;
use itoa::Buffer;
use osv_prim::Memory;
use osv_record::{Buffers, Record, RecordFault};
use reply_json::Refusal;
use session_model::Sign;
use std::alloc::Global;
use std::sync::Arc;

/// Imports the advisory that a body is, and keeps the body.
pub(crate) fn import<D: Desk>(
    alloc: Global,
    desk: &mut D,
    request: Request,
    closes: bool,
    buffers: &mut Buffers,
) -> Result<Answered, Memory>
    ensures { GivesAt (D.caller desk.old) (D.caller desk.new) closes request routes.Import result }
{
    let _known = desk.point();
    match Record::keeping(alloc, request.body, buffers) {
        Err(RecordFault::Memory) => Err(Memory),
        Err(fault) => refused(alloc, Sign::Plain, closes, &Refusal::BadAdvisory(fault)),
        Ok(advisory) => match Arc::new(alloc, advisory) {
            Ok(advisory) => enter(alloc, desk, advisory, closes),
            Err(_) => Err(Memory),
        },
    }
}

/// How many bytes the reply to an import has at most.
const ENTRY_ROOM: usize = 40;

// Enters an advisory. The room for the reply is taken before, since nothing may fail behind the entry.
fn enter<D: Desk>(
    alloc: Global,
    desk: &mut D,
    advisory: Arc<Record>,
    closes: bool,
) -> Result<Answered, Memory>
    ensures { ImportsAs (D.caller desk.old) (D.caller desk.new) closes (arc_value advisory) result }
{
    let _known = desk.point();
    let Ok(room) = Vec::with_capacity(alloc, ENTRY_ROOM) else {
        return Err(Memory);
    };
    match import_of(desk, advisory) {
        Ok(place) => Ok(done(Sign::Plain, closes, entry_text(room, place))),
        Err(ImportFault::JournalFull { used, limit }) => refused(
            alloc,
            Sign::Plain,
            closes,
            &Refusal::JournalFull { used, limit },
        ),
        Err(ImportFault::Memory) => Err(Memory),
    }
}

fn entry_text(mut room: Vec<u8>, place: u64) -> Vec<u8>
    requires empty { vec_len room ≡ 0 }
    requires items { room.items ≡ [] }
    requires capacity { 40 ≤ vec_capacity room }
    ensures { result.items ≡ entry_body place }
{
    let mut buffer = Buffer::new();
    let digits = buffer.format(place).as_bytes();
    put(&mut room, b"{\"entry\":");
    put(&mut room, digits);
    put(&mut room, b"}");
    room
}
