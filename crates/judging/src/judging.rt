// Judging a block that went up (01, "A block that goes up is judged in this order"; E4 7.4).
ghost use Rattle.std.specs.Prelude.{◌≡◌};
ghost use Rattle.exchange.specs.Judge.{begins_at, caused_by, is_duplicate, is_misrouted, judge_of, judging, keep_by, last_by, message_block, new_block, no_reply_block, primary_block, reply_block, rules_of, same_bytes, spoilt_by, takes_place, thrown_as};
ghost use Rattle.judging.specs.Short;

use desk::{
    got_verdict, incoming_flags, incoming_place, no_flags, note_of, own_place, put_incoming,
    put_replied, verdict_flag, with_saved,
};
use exchange::{Exchange, Judged, Note, Outbox, Sending};
use header::Header;
use life::{begins_primary, fate_of, incoming, own};
use place::Fate;
use reports::Report;
use room::Message;
use seek::{free_incoming, message_for, open_alike, reply_for};
use settings::Terms;

// Rule 1: "R-bit or device ID not this link's incoming one". R = 1 means to the host.
#[tactic(auto, unfolding(exchange::specs::Judge::is_misrouted))]
fn is_misrouted(terms: Terms, header: Header) -> bool
    ensures { result ≡ is_misrouted terms header }
{
    header.device != terms.device || header.r != terms.host
}

// Whether all ten bytes are the same.
fn same_bytes(a: [u8; 10], b: [u8; 10]) -> bool
    ensures { result ≡ same_bytes a b }
{
    a == b
}

// Whether a block with this fate is its message's last.
fn is_last(fate: Fate) -> bool
    ensures { result ≡ last_by fate }
{
    matches!(fate, Fate::Last(_))
}

// Whether a block with this fate breaks its message.
fn is_spoilt(fate: Fate) -> bool
    ensures { result ≡ spoilt_by fate }
{
    matches!(fate, Fate::Empty | Fate::TooLong)
}

// The data of a block that is kept goes behind what its message has.
fn keep_by(fate: Fate, room: &mut [u8], message: Message, have: u16, data: &[u8])
    ensures { room.new ≡ keep_by fate room.old message have «data».now }
{
    match fate {
        Fate::Empty | Fate::TooLong => {}
        Fate::Last(_) | Fate::More(_) => store::keep(room, message, usize::from(have), data),
    }
}

// Rule 2: "Duplicate check on and all ten bytes of the header equal the saved one (none at a start)".
#[tactic(auto, unfolding(exchange::specs::Judge::is_duplicate, exchange::specs::Judge::is_saved))]
fn is_duplicate(exchange: Exchange, terms: Terms, header: [u8; 10]) -> bool
    ensures { result ≡ is_duplicate terms exchange header }
{
    match exchange.saved {
        Some(saved) => terms.duplicates && same_bytes(saved, header),
        None => false,
    }
}

// The block is thrown out, with a note that says why.
fn thrown(exchange: Exchange, note: Note) -> Judged
    ensures { result ≡ thrown_as exchange note }
{
    Judged {
        exchange,
        note,
        flags: no_flags(),
    }
}

// A block of the reply in an own place.
#[tactic(auto, unfolding(exchange::specs::Judge::reply_block))]
fn reply_block(
    exchange: Exchange,
    place: usize,
    header: Header,
    data: &[u8],
    room: &mut [u8],
) -> Judged
    ensures { judging result room.new ≡ reply_block exchange place header «data».now room.old }
{
    let before = own_place(exchange, place);
    let reply = own::reply(before);
    let fate = fate_of(header, reply.length, data.len());
    let after = own::offered(before, header, data.len());
    keep_by(fate, room, Message::Reply(place), reply.length, data);
    Judged {
        exchange: put_replied(exchange, place, after),
        note: note_of(fate),
        flags: verdict_flag(place, got_verdict(before, after)),
    }
}

// A further block of the message in an incoming place.
#[tactic(auto, unfolding(exchange::specs::Judge::message_block))]
fn message_block(
    exchange: Exchange,
    place: usize,
    header: Header,
    data: &[u8],
    room: &mut [u8],
) -> Judged
    ensures { judging result room.new ≡ message_block exchange place header «data».now room.old }
{
    let before = incoming_place(exchange, place);
    let have = incoming::length(before);
    let fate = fate_of(header, have, data.len());
    let after = incoming::offered(before, header, data.len());
    keep_by(fate, room, Message::Incoming(place), have, data);
    Judged {
        exchange: put_incoming(exchange, place, after),
        note: note_of(fate),
        flags: incoming_flags(place, is_last(fate), is_spoilt(fate)),
    }
}

// A primary begins in an incoming place; `gone` says whether it throws an open message out.
#[tactic(auto, unfolding(exchange::specs::Judge::begins_at))]
fn begins_at(
    exchange: Exchange,
    place: usize,
    header: Header,
    gone: bool,
    last: bool,
    data: &[u8],
    room: &mut [u8],
) -> Judged
    ensures { judging result room.new ≡ begins_at exchange place header gone last «data».now room.old }
{
    let after = incoming::begun(incoming_place(exchange, place), header, data.len());
    store::keep(room, Message::Incoming(place), 0, data);
    Judged {
        exchange: put_incoming(exchange, place, after),
        note: Note::Kept,
        flags: incoming_flags(place, last, gone),
    }
}

// Rule 6.
#[tactic(auto, unfolding(exchange::specs::Judge::takes_place, exchange::specs::Judge::thrown))]
fn takes_place(
    exchange: Exchange,
    header: Header,
    last: bool,
    data: &[u8],
    room: &mut [u8],
) -> Judged
    ensures { judging result room.new ≡ takes_place exchange header last «data».now room.old }
{
    match open_alike(exchange.incoming, header) {
        Some(place) => begins_at(exchange, place, header, true, last, data, room),
        None => match free_incoming(exchange.incoming) {
            Some(place) => begins_at(exchange, place, header, false, last, data, room),
            None => thrown(exchange, Note::NoPlace),
        },
    }
}

// The first block of a primary: rules 4 and 5, then 6 and 7.
#[tactic(auto, unfolding(exchange::specs::Judge::primary_block, exchange::specs::Judge::thrown))]
fn primary_block(exchange: Exchange, header: Header, data: &[u8], room: &mut [u8]) -> Judged
    ensures { judging result room.new ≡ primary_block exchange header «data».now room.old }
{
    match fate_of(header, 0, data.len()) {
        Fate::Empty => thrown(exchange, Note::Empty),
        Fate::TooLong => thrown(exchange, Note::TooLong),
        Fate::Last(_) => takes_place(exchange, header, true, data, room),
        Fate::More(_) => takes_place(exchange, header, false, data, room),
    }
}

// Rule 3 for a block of no reply: "If it is neither, it must begin a primary".
#[tactic(auto, unfolding(exchange::specs::Judge::no_reply_block, exchange::specs::Judge::thrown, exchange::specs::Judge::or_primary))]
fn no_reply_block(exchange: Exchange, header: Header, data: &[u8], room: &mut [u8]) -> Judged
    ensures { judging result room.new ≡ no_reply_block exchange header «data».now room.old }
{
    match message_for(exchange.incoming, header) {
        Some(place) => message_block(exchange, place, header, data, room),
        None => {
            if begins_primary(header) {
                primary_block(exchange, header, data, room)
            } else {
                thrown(exchange, Note::Stray)
            }
        }
    }
}

// Rule 3, for a block that is neither misrouted nor a duplicate.
#[tactic(auto, unfolding(exchange::specs::Judge::new_block))]
fn new_block(exchange: Exchange, header: Header, data: &[u8], room: &mut [u8]) -> Judged
    ensures { judging result room.new ≡ new_block exchange header «data».now room.old }
{
    match reply_for(exchange.own, header) {
        Some(place) => reply_block(exchange, place, header, data, room),
        None => no_reply_block(exchange, header, data, room),
    }
}

// The seven rules in their order, for a block with these ten header bytes and this data.
#[tactic(auto, unfolding(exchange::specs::Judge::rules_of, exchange::specs::Judge::thrown))]
fn rules(exchange: Exchange, terms: Terms, header: [u8; 10], data: &[u8], room: &mut [u8]) -> Judged
    ensures { judging result room.new ≡ rules_of terms exchange header «data».now room.old }
{
    let said = Header::from_bytes(header);
    if is_misrouted(terms, said) {
        return thrown(exchange, Note::Misrouted);
    }
    if is_duplicate(exchange, terms, header) {
        return thrown(exchange, Note::Duplicate);
    }
    new_block(with_saved(exchange, header), said, data, room)
}

// Whether a note causes a report.
fn causes(note: Note) -> bool
    ensures { result ≡ Rattle.judging.specs.Short.causes note }
{
    matches!(note, Note::Misrouted | Note::TooLong)
}

// "A misrouted block gives S9F1 .. a message over the limit gives S9F11", with "the ten header bytes of the offending block". `exchange`
// is what the seven rules left.
fn caused_by(
    note: Note,
    terms: Terms,
    exchange: Exchange,
    header: [u8; 10],
    outbox: Outbox,
) -> Outbox
    ensures { result ≡ caused_by note terms exchange header outbox }
{
    let function = match note {
        Note::Misrouted => 1,
        Note::TooLong => 11,
        Note::Kept | Note::Duplicate | Note::Stray | Note::NoPlace | Note::Empty => return outbox,
    };
    desk::caused(
        terms,
        exchange.own,
        exchange.numbers.latest,
        outbox,
        Report { function, header },
    )
}

// What is reported of it, where `before` was being sent: a block that ends it frees the line first.
#[tactic(auto, unfolding(exchange::specs::Judge::box_behind))]
fn reporting(judged: Judged, terms: Terms, before: Sending, header: [u8; 10]) -> Judged
    ensures { result ≡ Rattle.exchange.specs.Judge.reporting terms before header judged }
{
    let freed = desk::freed_in(before, judged.exchange);
    let outbox = caused_by(judged.note, terms, judged.exchange, header, freed);
    Judged {
        exchange: desk::with_outbox(judged.exchange, outbox),
        ..judged
    }
}

// A block went up: its ten header bytes, and its data. Behind the rules come the reports; where there is no cause and nothing ended, as
// with most blocks, the state is not put together anew.
pub fn judge(
    exchange: Exchange,
    terms: Terms,
    header: [u8; 10],
    data: &[u8],
    room: &mut [u8],
) -> Judged
    ensures { judging result room.new ≡ judge_of terms exchange header «data».now room.old }
{
    let before = exchange.sending;
    let judged = rules(exchange, terms, header, data, room);
    if causes(judged.note) || desk::is_over(before, judged.exchange.sending) {
        return reporting(judged, terms, before, header);
    }
    judged
}
