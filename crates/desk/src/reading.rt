// What a user reads of a place.
ghost use Rattle.std.specs.Prelude.{◌≡◌};
ghost use Rattle.exchange.specs.Reading.{incoming_reading, own_reading, reply_stage, wanted};

use crate::state::{incoming_place, own_place};
use exchange::{Exchange, IncomingReading, OwnReading, ReplyStage};
use header::Header;
use life::{incoming, own};
use place::{End, Incoming, IncomingStage};

// A reply is owed to a complete message with W = 1.
#[tactic(auto, unfolding(exchange::specs::Reading::wanted))]
fn wanted(primary: Header) -> ReplyStage
    ensures { result ≡ wanted primary }
{
    if primary.w {
        ReplyStage::Owed
    } else {
        ReplyStage::NotOwed
    }
}

fn reply_stage(place: Incoming) -> ReplyStage
    ensures { result ≡ reply_stage place }
{
    match place.stage {
        IncomingStage::Free | IncomingStage::Open(_) => ReplyStage::NotOwed,
        IncomingStage::Complete { .. } => wanted(incoming::primary(place)),
        IncomingStage::Replying { .. } => ReplyStage::OnItsWay,
        IncomingStage::Replied { end: End::Sent, .. } => ReplyStage::Sent,
        IncomingStage::Replied {
            end: End::Failed,
            ..
        } => ReplyStage::Failed,
    }
}

// What is read of an own place: nothing of a free one, or of one above 3.
pub fn own_reading(exchange: Exchange, place: usize) -> Option<OwnReading>
    ensures { result ≡ own_reading exchange place }
{
    let own = own_place(exchange, place);
    if own::is_free(own) {
        return None;
    }
    Some(OwnReading {
        primary: own::primary(own),
        standing: own::standing(own),
        reply: own::reply(own),
    })
}

// The same of an incoming place.
pub fn incoming_reading(exchange: Exchange, place: usize) -> Option<IncomingReading>
    ensures { result ≡ incoming_reading exchange place }
{
    let incoming = incoming_place(exchange, place);
    if incoming::is_free(incoming) {
        return None;
    }
    Some(IncomingReading {
        primary: incoming::primary(incoming),
        length: incoming::length(incoming),
        complete: !incoming::is_open(incoming),
        reply: reply_stage(incoming),
    })
}
