//! What the definitions say of requests and replies.
ghost use Rattle.std.specs.Prelude.{◌≡◌, List, ℕ};
ghost use Rattle.http_wire.specs.declared.room.Room.{Room};
ghost use Rattle.http_wire.specs.declared.reply.Reply.{Reply};
ghost use Rattle.http_wire.specs.Requests.{Outcome, Next};
ghost use Rattle.http_wire.specs.ReadsBack.{ReadsBack, IsReply};

/// A text asks one thing.
pub fn a_text_asks_one_thing()
    ensures { (text : List ℕ) (room : Room) (o p : Outcome) → Next room text o → Next room text p → o ≡ p }
{}

/// The head of a reply is read back, by the grammar that heads of requests are read by, with its status and
/// its fields.
pub fn a_reply_reads_back()
    ensures { (reply : Reply) (rest : List ℕ) → IsReply reply → ReadsBack reply rest }
{}
