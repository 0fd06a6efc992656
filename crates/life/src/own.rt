// A place of an own transaction (E4 7.3): from the primary's acceptance to the release of its verdict.
ghost use Rattle.std.specs.Prelude.{◌≡◌};
ghost use Rattle.place.specs.Own.{acknowledged, await_tick, first_out, fresh_own, no_reply, own_claimed, own_failed, own_has_verdict, own_is_free, own_kept, own_offered, own_put_out, own_released, own_sent, own_standing, own_takes, own_tick, primary_of, replied_by, reply_from, reply_of, reply_tick, stage_at, verdict_of};

use crate::arriving;
use crate::fate::{begins_reply, fate_of};
use header::Header;
use place::{Arriving, Fate, Own, OwnStage, Reply, Standing, Verdict};
use settings::Terms;

// One function is the next after the other. None is next after 255.
fn follows(function: u8, before: u8) -> bool
    ensures { result ≡ Rattle.place.specs.Own.follows function before }
{
    u16::from(function) == u16::from(before) + 1
}

// No block of it is kept.
fn no_reply() -> Reply
    ensures { result ≡ no_reply }
{
    Reply {
        w: false,
        stream: 0,
        function: 0,
        length: 0,
    }
}

// As its blocks say, with so many bytes kept.
fn reply_of(header: Header, length: u16) -> Reply
    ensures { result ≡ reply_of header length }
{
    Reply {
        w: header.w,
        stream: header.stream,
        function: header.function,
        length,
    }
}

// What is known of one that is arriving.
fn reply_from(arriving: Arriving) -> Reply
    ensures { result ≡ reply_from arriving }
{
    Reply {
        w: arriving.kind.w,
        stream: arriving.kind.stream,
        function: arriving.kind.function,
        length: arriving.length,
    }
}

pub fn fresh() -> Own
    ensures { result ≡ fresh_own }
{
    Own {
        header: [0; 10],
        stage: OwnStage::Free,
    }
}

// What the primary's header says.
pub fn primary(own: Own) -> Header
    ensures { result ≡ primary_of own }
{
    Header::from_bytes(own.header)
}

// The place at another stage.
fn at(own: Own, stage: OwnStage) -> Own
    ensures { result ≡ stage_at own stage }
{
    Own { stage, ..own }
}

// The place with a verdict, and no reply of which bytes are kept.
#[tactic(auto, unfolding(place::specs::Own::ended))]
fn ended(own: Own, verdict: Verdict) -> Own
    ensures { result ≡ Rattle.place.specs.Own.ended own verdict }
{
    let reply = no_reply();
    at(own, OwnStage::Done { verdict, reply })
}

// How the place stands to its user.
pub fn standing(own: Own) -> Standing
    ensures { result ≡ own_standing own }
{
    match own.stage {
        OwnStage::Free => Standing::Free,
        OwnStage::Done { verdict, .. } => Standing::Given(verdict),
        _ => Standing::Open,
    }
}

pub fn is_free(own: Own) -> bool
    ensures { result ≡ own_is_free own }
{
    matches!(standing(own), Standing::Free)
}

pub fn has_verdict(own: Own) -> bool
    ensures { result ≡ own_has_verdict own }
{
    matches!(standing(own), Standing::Given(_))
}

// What is kept of the reply.
pub fn reply(own: Own) -> Reply
    ensures { result ≡ own_kept own }
{
    match own.stage {
        OwnStage::Replying(arriving) => reply_from(arriving),
        OwnStage::Done { reply, .. } => reply,
        _ => no_reply(),
    }
}

// A free place takes a primary.
pub fn claimed(own: Own, header: [u8; 10]) -> Own
    ensures { result ≡ own_claimed own header }
{
    match own.stage {
        OwnStage::Free => Own {
            header,
            stage: OwnStage::Sending,
        },
        _ => own,
    }
}

// "A primary with W = 1 now awaits its reply from the call that first puts out the bytes of its last block" (02, request 1).
#[tactic(auto, unfolding(place::specs::Own::first_out))]
fn first_out(own: Own) -> Own
    ensures { result ≡ first_out own }
{
    if primary(own).w {
        at(own, OwnStage::PutOut)
    } else {
        own
    }
}

// The bytes of the primary's last block leave, for the first time or again.
pub fn put_out(own: Own) -> Own
    ensures { result ≡ own_put_out own }
{
    match own.stage {
        OwnStage::Sending => first_out(own),
        _ => own,
    }
}

// "T3 runs, from the ACK of the primary's last block"; with W = 0 it is sent, and that is all.
#[tactic(auto, unfolding(place::specs::Own::acknowledged))]
fn acknowledged(own: Own) -> Own
    ensures { result ≡ acknowledged own }
{
    if primary(own).w {
        at(own, OwnStage::Awaiting { timer: 0 })
    } else {
        ended(own, Verdict::Sent)
    }
}

// The primary's last block was acknowledged.
pub fn sent(own: Own) -> Own
    ensures { result ≡ own_sent own }
{
    match own.stage {
        OwnStage::Sending | OwnStage::PutOut => acknowledged(own),
        _ => own,
    }
}

// A block of the primary failed.
pub fn failed(own: Own) -> Own
    ensures { result ≡ own_failed own }
{
    match own.stage {
        OwnStage::Sending | OwnStage::PutOut => ended(own, Verdict::SendFailed),
        _ => own,
    }
}

#[tactic(auto, unfolding(place::specs::Own::await_tick))]
fn await_tick(own: Own, terms: Terms, timer: u32) -> Own
    ensures { result ≡ await_tick terms own timer }
{
    match terms.t3.tick(timer) {
        None => ended(own, Verdict::NoReply),
        Some(timer) => at(own, OwnStage::Awaiting { timer }),
    }
}

#[tactic(auto, unfolding(place::specs::Own::reply_tick))]
fn reply_tick(own: Own, terms: Terms, arriving: Arriving) -> Own
    ensures { result ≡ reply_tick terms own arriving }
{
    match arriving::tick(arriving, terms) {
        None => ended(own, Verdict::Broken),
        Some(arriving) => at(own, OwnStage::Replying(arriving)),
    }
}

// 0.1 s have passed.
pub fn tick(own: Own, terms: Terms) -> Own
    ensures { result ≡ own_tick terms own }
{
    match own.stage {
        OwnStage::Awaiting { timer } => await_tick(own, terms, timer),
        OwnStage::Replying(arriving) => reply_tick(own, terms, arriving),
        _ => own, // a verdict waits for its release, however long
    }
}

// Whether a block is the first of the reply that this place awaits: "same system bytes, even function", number rule.
#[tactic(auto, unfolding(place::specs::Own::awaits))]
fn awaits(own: Own, header: Header) -> bool
    ensures { result ≡ Rattle.place.specs.Own.awaits own header }
{
    primary(own).system == header.system && begins_reply(header)
}

// Rule 3: whether a block is for this place.
#[tactic(auto, unfolding(place::specs::Own::continues_reply))]
pub fn takes(own: Own, header: Header) -> bool
    ensures { result ≡ own_takes own header }
{
    match own.stage {
        OwnStage::PutOut | OwnStage::Awaiting { .. } => awaits(own, header),
        OwnStage::Replying(arriving) => arriving::continues(arriving, primary(own), header),
        _ => false,
    }
}

// The verdict on a complete reply.
#[tactic(auto, unfolding(place::specs::Own::verdict_of))]
fn verdict(own: Own, header: Header) -> Verdict
    ensures { result ≡ verdict_of own header }
{
    let primary = primary(own);
    if header.stream != primary.stream {
        Verdict::Other
    } else if follows(header.function, primary.function) {
        Verdict::Answered
    } else if header.function == 0 {
        Verdict::Declined
    } else {
        Verdict::Other
    }
}

// A block of the reply has met its fate.
fn replied(own: Own, header: Header, fate: Fate) -> Own
    ensures { result ≡ replied_by own header fate }
{
    match fate {
        Fate::Empty | Fate::TooLong => ended(own, Verdict::Broken),
        Fate::Last(length) => at(
            own,
            OwnStage::Done {
                verdict: verdict(own, header),
                reply: reply_of(header, length),
            },
        ),
        Fate::More(length) => at(own, OwnStage::Replying(arriving::from(header, length))),
    }
}

// A block with `size` data bytes has come. A place that it is not for stays as it is.
#[tactic(auto, unfolding(place::specs::Own::own_offered, place::specs::Own::replied))]
pub fn offered(own: Own, header: Header, size: usize) -> Own
    ensures { result ≡ own_offered own header size }
{
    if takes(own, header) {
        replied(own, header, fate_of(header, reply(own).length, size))
    } else {
        own
    }
}

// A place that has its verdict is freed.
pub fn released(own: Own) -> Own
    ensures { result ≡ own_released own }
{
    match own.stage {
        OwnStage::Done { .. } => at(own, OwnStage::Free),
        _ => own,
    }
}
