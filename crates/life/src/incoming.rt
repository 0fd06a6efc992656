// A place of a message of the far end (E4 7.4): from its first block until it is released or dropped.
ghost use Rattle.std.specs.Prelude.{◌≡◌};
ghost use Rattle.place.specs.Incoming.{begun_by, ended_at, fresh_incoming, incoming_answered, incoming_begun, incoming_failed, incoming_is_complete, incoming_is_free, incoming_is_open, incoming_is_replied, incoming_length, incoming_offered, incoming_released, incoming_sent, incoming_takes, incoming_tick, kept_by, open_tick, primary_of, stage_at};

use crate::arriving;
use crate::fate::fate_of;
use header::Header;
use place::{Arriving, End, Fate, Incoming, IncomingStage};
use settings::Terms;

pub fn fresh() -> Incoming
    ensures { result ≡ fresh_incoming }
{
    let header = Header {
        r: false,
        device: 0,
        w: false,
        stream: 0,
        function: 0,
        e: false,
        number: 0,
        system: 0,
    };
    Incoming {
        header,
        stage: IncomingStage::Free,
    }
}

// What the header of its first block says.
pub fn primary(incoming: Incoming) -> Header
    ensures { result ≡ primary_of incoming }
{
    incoming.header
}

// The place at another stage.
fn at(incoming: Incoming, stage: IncomingStage) -> Incoming
    ensures { result ≡ stage_at incoming stage }
{
    Incoming { stage, ..incoming }
}

// How many data bytes are kept.
pub fn length(incoming: Incoming) -> u16
    ensures { result ≡ incoming_length incoming }
{
    match incoming.stage {
        IncomingStage::Free => 0,
        IncomingStage::Open(arriving) => arriving.length,
        IncomingStage::Complete { length }
        | IncomingStage::Replying { length }
        | IncomingStage::Replied { length, .. } => length,
    }
}

pub fn is_free(incoming: Incoming) -> bool
    ensures { result ≡ incoming_is_free incoming }
{
    matches!(incoming.stage, IncomingStage::Free)
}

// "open (not yet complete)"
pub fn is_open(incoming: Incoming) -> bool
    ensures { result ≡ incoming_is_open incoming }
{
    matches!(incoming.stage, IncomingStage::Open(_))
}

// Complete, and no reply to it was accepted.
pub fn is_complete(incoming: Incoming) -> bool
    ensures { result ≡ incoming_is_complete incoming }
{
    matches!(incoming.stage, IncomingStage::Complete { .. })
}

// Our reply to it has ended.
pub fn is_replied(incoming: Incoming) -> bool
    ensures { result ≡ incoming_is_replied incoming }
{
    matches!(incoming.stage, IncomingStage::Replied { .. })
}

// The first block of a primary has met its fate; one that is not kept takes no place.
fn begun_by(incoming: Incoming, header: Header, fate: Fate) -> Incoming
    ensures { result ≡ begun_by incoming header fate }
{
    match fate {
        Fate::Empty | Fate::TooLong => incoming,
        Fate::Last(length) => Incoming {
            header,
            stage: IncomingStage::Complete { length },
        },
        Fate::More(length) => Incoming {
            header,
            stage: IncomingStage::Open(arriving::from(header, length)),
        },
    }
}

#[tactic(auto, unfolding(place::specs::Incoming::begins))]
fn begin(incoming: Incoming, header: Header, size: usize) -> Incoming
    ensures { result ≡ Rattle.place.specs.Incoming.begins incoming header size }
{
    begun_by(incoming, header, fate_of(header, 0, size))
}

// A primary with this first block begins here: in a free place, or instead of an open message that it throws out.
pub fn begun(incoming: Incoming, header: Header, size: usize) -> Incoming
    ensures { result ≡ incoming_begun incoming header size }
{
    match incoming.stage {
        IncomingStage::Free | IncomingStage::Open(_) => begin(incoming, header, size),
        _ => incoming,
    }
}

#[tactic(auto, unfolding(place::specs::Incoming::open_tick))]
fn open_tick(incoming: Incoming, terms: Terms, arriving: Arriving) -> Incoming
    ensures { result ≡ open_tick terms incoming arriving }
{
    match arriving::tick(arriving, terms) {
        None => at(incoming, IncomingStage::Free),
        Some(arriving) => at(incoming, IncomingStage::Open(arriving)),
    }
}

// 0.1 s have passed.
pub fn tick(incoming: Incoming, terms: Terms) -> Incoming
    ensures { result ≡ incoming_tick terms incoming }
{
    match incoming.stage {
        IncomingStage::Open(arriving) => open_tick(incoming, terms, arriving),
        _ => incoming, // a complete message waits for its user
    }
}

// Rule 3: whether a block is for this place.
#[tactic(auto, unfolding(place::specs::Incoming::continues_here))]
pub fn takes(incoming: Incoming, header: Header) -> bool
    ensures { result ≡ incoming_takes incoming header }
{
    match incoming.stage {
        IncomingStage::Open(arriving) => {
            arriving::continues(arriving, primary(incoming), header)
        }
        _ => false,
    }
}

// A block of the message has met its fate. "A broken incoming message frees its place."
fn kept_by(incoming: Incoming, header: Header, fate: Fate) -> Incoming
    ensures { result ≡ kept_by incoming header fate }
{
    match fate {
        Fate::Empty | Fate::TooLong => at(incoming, IncomingStage::Free),
        Fate::Last(length) => at(incoming, IncomingStage::Complete { length }),
        Fate::More(length) => at(
            incoming,
            IncomingStage::Open(arriving::from(header, length)),
        ),
    }
}

// A block with `size` data bytes has come. A place that it is not for stays as it is.
#[tactic(auto, unfolding(place::specs::Incoming::incoming_offered, place::specs::Incoming::goes_on))]
pub fn offered(incoming: Incoming, header: Header, size: usize) -> Incoming
    ensures { result ≡ incoming_offered incoming header size }
{
    if takes(incoming, header) {
        kept_by(incoming, header, fate_of(header, length(incoming), size))
    } else {
        incoming
    }
}

// A reply to a complete message was accepted.
pub fn answered(incoming: Incoming) -> Incoming
    ensures { result ≡ incoming_answered incoming }
{
    match incoming.stage {
        IncomingStage::Complete { length } => at(incoming, IncomingStage::Replying { length }),
        _ => incoming, // one reply is all
    }
}

// "A reply of ours ends sent or failed in its incoming place."
fn ended(incoming: Incoming, end: End) -> Incoming
    ensures { result ≡ ended_at end incoming.stage incoming }
{
    match incoming.stage {
        IncomingStage::Replying { length } => {
            at(incoming, IncomingStage::Replied { length, end })
        }
        _ => incoming,
    }
}

// The reply's last block was acknowledged.
pub fn sent(incoming: Incoming) -> Incoming
    ensures { result ≡ incoming_sent incoming }
{
    ended(incoming, End::Sent)
}

// A block of the reply failed.
pub fn failed(incoming: Incoming) -> Incoming
    ensures { result ≡ incoming_failed incoming }
{
    ended(incoming, End::Failed)
}

// A complete message whose reply is not on its way is freed.
pub fn released(incoming: Incoming) -> Incoming
    ensures { result ≡ incoming_released incoming }
{
    match incoming.stage {
        IncomingStage::Complete { .. } | IncomingStage::Replied { .. } => {
            at(incoming, IncomingStage::Free)
        }
        _ => incoming,
    }
}
