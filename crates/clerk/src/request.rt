// Requests: open a primary, reply, release. Refusals 5 to 11 of 01's table, in its order.
ghost use Rattle.std.specs.Prelude.{◌≡◌, ◌≤◌, length};
ghost use Rattle.wire.specs.Message.{message_limit};
ghost use Rattle.clerk.specs.Sendable.{sendable};
ghost use Rattle.exchange.specs.Request.{requesting, bad_function, bad_primary, claimed_at, data_long, is_sending, not_ready, open_free, open_of, primary_header, refusal_number, refused_by, release_incoming, release_own, reply_accepted, reply_of, reply_ready};

use desk::{incoming_place, own_place, put_incoming, put_own, with_sending};
use exchange::{Exchange, Numbers, Primary, Refusal, Requested, Sending};
use header::Header;
use life::{incoming, own};
use place::Incoming;
use room::Message;
use seek::{free_own, next_number, own_put};
use settings::Terms;
use wire::MESSAGE_LIMIT;

// The refusal's number in 01's table.
pub fn refusal_number(refusal: Refusal) -> u8
    ensures { result ≡ refusal_number refusal }
{
    refusal as u8
}

// Refusal 6.
#[tactic(auto, unfolding(exchange::specs::Request::data_long))]
fn data_long(size: usize) -> bool
    ensures { result ≡ data_long size }
{
    MESSAGE_LIMIT < size
}

// Refusal 5: "stream above 127; function even in a primary".
#[tactic(auto, unfolding(exchange::specs::Request::bad_primary))]
fn bad_primary(primary: Primary) -> bool
    ensures { result ≡ bad_primary primary }
{
    127 < primary.stream || primary.function % 2 == 0
}

// The header of the last block of a primary with `length` data bytes, which its place keeps. "System bytes: the caller's 16-bit source ID,
// then the number." R = 1 means to the host.
fn primary_header(primary: Primary, terms: Terms, length: u16, number: u16) -> Header
    ensures { result ≡ primary_header terms primary length number }
{
    let blocks = cut::blocks_in(usize::from(length));
    Header {
        r: !terms.host,
        device: terms.device,
        w: primary.w,
        stream: primary.stream,
        function: primary.function,
        e: true,
        number: blocks as u16,
        system: u32::from(primary.source) * 65536 + u32::from(number),
    }
}

// Refusal 9 for a reply or a release: "an incoming one not complete or with its reply being sent or held".
#[tactic(auto, unfolding(exchange::specs::Request::not_ready))]
fn not_ready(place: Incoming) -> bool
    ensures { result ≡ not_ready place }
{
    !incoming::is_complete(place) && !incoming::is_replied(place)
}

// Refusal 5 for a reply: "neither primary + 1 nor 0".
#[tactic(auto, unfolding(exchange::specs::Request::bad_function))]
fn bad_function(primary: Header, function: u8) -> bool
    ensures { result ≡ bad_function primary function }
{
    function != 0 && u16::from(function) != u16::from(primary.function) + 1
}

// Whether a message is being sent or held; a report is one.
pub fn is_sending(exchange: Exchange) -> bool
    ensures { result ≡ is_sending exchange }
{
    desk::is_message(exchange.sending)
}

// 5, 6 and 7, which a primary and a reply have in the same order. `bad`: whether 5 refuses the message.
fn sendable(exchange: Exchange, bad: bool, size: usize) -> Result<(), Refusal>
    ensures { result ≡ sendable exchange bad size }
{
    if bad {
        return Err(Refusal::Message);
    }
    if data_long(size) {
        return Err(Refusal::DataLong);
    }
    if is_sending(exchange) {
        return Err(Refusal::Sending);
    }
    Ok(())
}

#[tactic(auto, unfolding(exchange::specs::Request::refused_by))]
fn refused(exchange: Exchange, refusal: Refusal) -> Requested
    ensures { result ≡ refused_by exchange refusal }
{
    Requested {
        exchange,
        asked: Err(refusal),
    }
}

// A primary of `length` data bytes takes an own place and the next number, and is to be sent.
#[tactic(auto, unfolding(exchange::specs::Request::claimed_at))]
fn claimed_at(
    exchange: Exchange,
    terms: Terms,
    place: usize,
    primary: Primary,
    length: u16,
) -> Exchange
    ensures { result ≡ claimed_at terms exchange place primary length }
{
    let number = next_number(exchange.own, exchange.numbers.last, exchange.numbers.latest);
    let header = primary_header(primary, terms, length, number).bytes();
    let claimed = own::claimed(own_place(exchange, place), header);
    Exchange {
        own: own_put(exchange.own, place, claimed),
        numbers: Numbers {
            last: number,
            ..exchange.numbers
        },
        sending: Sending::Primary { place, length },
        ..exchange
    }
}

// Refusal 8, and the acceptance.
#[tactic(auto, unfolding(exchange::specs::Request::open_free, exchange::specs::Request::refused))]
fn open_free(
    exchange: Exchange,
    terms: Terms,
    primary: Primary,
    data: &[u8],
    room: &mut [u8],
) -> Requested
    requires { length «data».now ≤ message_limit }
    ensures { requesting result room.new ≡ open_free terms exchange primary «data».now room.old }
{
    match free_own(exchange.own) {
        Some(place) => {
            store::keep(room, Message::Send, 0, data);
            let length = data.len() as u16;
            Requested {
                exchange: claimed_at(exchange, terms, place, primary, length),
                asked: Ok(place),
            }
        }
        None => refused(exchange, Refusal::NoPlace),
    }
}

// Opens a primary: 5, 6, 7, 8. Its data goes to the send area.
#[tactic(auto, unfolding(exchange::specs::Request::open_of, exchange::specs::Request::refused, exchange::specs::Request::data_long))]
pub fn open(
    exchange: Exchange,
    terms: Terms,
    primary: Primary,
    data: &[u8],
    room: &mut [u8],
) -> Requested
    ensures { requesting result room.new ≡ open_of terms exchange primary «data».now room.old }
{
    if let Err(refusal) = sendable(exchange, bad_primary(primary), data.len()) {
        return refused(exchange, refusal);
    }
    open_free(exchange, terms, primary, data, room)
}

// A reply is accepted: it is to be sent.
#[tactic(auto, unfolding(exchange::specs::Request::reply_accepted))]
fn reply_accepted(
    exchange: Exchange,
    place: usize,
    function: u8,
    data: &[u8],
    room: &mut [u8],
) -> Requested
    requires { length «data».now ≤ message_limit }
    ensures { requesting result room.new ≡ reply_accepted exchange place function «data».now room.old }
{
    store::keep(room, Message::Send, 0, data);
    let length = data.len() as u16;
    let after = incoming::answered(incoming_place(exchange, place));
    let sending = Sending::Reply {
        place,
        function,
        length,
    };
    Requested {
        exchange: with_sending(put_incoming(exchange, place, after), sending),
        asked: Ok(place),
    }
}

// 5, 6 and 7 of a reply.
#[tactic(auto, unfolding(exchange::specs::Request::reply_ready, exchange::specs::Request::refused, exchange::specs::Request::data_long))]
fn reply_ready(
    exchange: Exchange,
    place: usize,
    function: u8,
    data: &[u8],
    room: &mut [u8],
) -> Requested
    ensures { requesting result room.new ≡ reply_ready exchange place function «data».now room.old }
{
    let primary = incoming::primary(incoming_place(exchange, place));
    if let Err(refusal) = sendable(exchange, bad_function(primary, function), data.len()) {
        return refused(exchange, refusal);
    }
    reply_accepted(exchange, place, function, data, room)
}

// Replies to the message in an incoming place: 9, 10, 11, 5, 6, 7. The stream is the primary's.
#[tactic(auto, unfolding(exchange::specs::Request::reply_of, exchange::specs::Request::refused))]
pub fn reply(
    exchange: Exchange,
    place: usize,
    function: u8,
    data: &[u8],
    room: &mut [u8],
) -> Requested
    ensures { requesting result room.new ≡ reply_of exchange place function «data».now room.old }
{
    let incoming = incoming_place(exchange, place);
    if not_ready(incoming) { // 9 goes before 10 and 11
        return refused(exchange, Refusal::Place); // also for a place above 3
    }
    let primary = incoming::primary(incoming);
    if !primary.w {
        return refused(exchange, Refusal::NotWanted);
    }
    if incoming::is_replied(incoming) {
        return refused(exchange, Refusal::Replied);
    }
    reply_ready(exchange, place, function, data, room)
}

// Releases an own place that has its verdict.
#[tactic(auto, unfolding(exchange::specs::Request::release_own))]
pub fn release_own(exchange: Exchange, place: usize) -> Requested
    ensures { result ≡ release_own exchange place }
{
    let own = own_place(exchange, place);
    if own::has_verdict(own) {
        return Requested {
            exchange: put_own(exchange, place, own::released(own)),
            asked: Ok(place),
        };
    }
    refused(exchange, Refusal::Place)
}

// Releases an incoming place whose message is complete and has no reply on its way.
#[tactic(auto, unfolding(exchange::specs::Request::release_incoming))]
pub fn release_incoming(exchange: Exchange, place: usize) -> Requested
    ensures { result ≡ release_incoming exchange place }
{
    let incoming = incoming_place(exchange, place);
    if not_ready(incoming) {
        return refused(exchange, Refusal::Place);
    }
    Requested {
        exchange: put_incoming(exchange, place, incoming::released(incoming)),
        asked: Ok(place),
    }
}
