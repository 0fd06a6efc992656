// What a user reads of the unit.
ghost use Rattle.std.specs.Prelude.{◌≡◌};
ghost use Rattle.link.specs.Reading.{dropped_of, incoming_data, incoming_of, last_number_of, message_of, own_of, reply_data, sending_of};

use exchange::{IncomingReading, OwnReading, Sending};
use link::Link;
use room::Message;

// An own place: the primary's header, how it stands, and what is kept of its reply; nothing of a free place, or of one above 3.
pub fn own(link: Link, place: usize) -> Option<OwnReading>
    ensures { result ≡ own_of link place }
{
    desk::own_reading(link.exchange, place)
}

// An incoming place: the header of its first block, how many data bytes are kept, whether it is complete, and our reply.
pub fn incoming(link: Link, place: usize) -> Option<IncomingReading>
    ensures { result ≡ incoming_of link place }
{
    desk::incoming_reading(link.exchange, place)
}

// What is kept of the reply in an own place, as a part of the room.
pub fn reply_data(link: Link, room: &[u8], place: usize) -> &[u8]
    ensures { result.now ≡ reply_data link room.now place }
{
    let length = own(link, place).map_or(0, |own| own.reply.length);
    store::bytes_of(room, Message::Reply(place), 0, usize::from(length))
}

// What is kept of the message in an incoming place, as a part of the room.
pub fn incoming_data(link: Link, room: &[u8], place: usize) -> &[u8]
    ensures { result.now ≡ incoming_data link room.now place }
{
    let length = incoming(link, place).map_or(0, |incoming| incoming.length);
    store::bytes_of(room, Message::Incoming(place), 0, usize::from(length))
}

// "a message is being sent or held": no other is accepted.
pub fn is_sending(link: Link) -> bool
    ensures { result ≡ sending_of link }
{
    clerk::is_sending(link.exchange)
}

// Which message that is: a primary of an own place, a reply of an incoming one, or a report with its function and number.
pub fn sending(link: Link) -> Sending
    ensures { result ≡ message_of link }
{
    link.exchange.sending
}

// How many reports were dropped since the start.
pub fn dropped(link: Link) -> u32
    ensures { result ≡ dropped_of link }
{
    link.exchange.reports.dropped
}

// The last transaction number given, which a scheduler keeps for the next start: reports take numbers unasked.
pub fn last_number(link: Link) -> u16
    ensures { result ≡ last_number_of link }
{
    link.exchange.numbers.last
}
