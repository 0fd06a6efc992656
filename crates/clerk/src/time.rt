// A tick: "own places 0 to 3, then incoming places 0 to 3" (01, "Messages"); and what is reported of it (02, request 2).
ghost use Rattle.std.specs.Prelude.{◌≡◌};
ghost use Rattle.exchange.specs.Tick.{gone_marks, got_marks, got_no_reply, incomings_timed, is_still, late_at, late_over, latest_over, no_reply_at, own_timed, owns_timed, tick_of, was_dropped};
ghost use Rattle.clerk.specs.Short.{is_marked};

use desk::{got_verdict, latest_after};
use exchange::{Changed, Exchange, Flags, Numbers, Outbox};
use life::incoming;
use place::{Incoming, Own, OwnStage, Verdict};
use reports::Report;
use seek::{incoming_at, own_at, tick_incoming, tick_own};
use settings::Terms;
use std::array;

fn got_marks(before: [Own; 4], after: [Own; 4]) -> [bool; 4]
    ensures { result ≡ got_marks before after }
{
    array::from_fn(|place| got_verdict(own_at(before, place), own_at(after, place)))
}

// Of several verdicts in one tick that of the highest place is the latest.
fn latest_over(mut latest: u16, before: [Own; 4], after: [Own; 4]) -> u16
    ensures { result ≡ latest_over latest before after }
{
    for place in 0..4 {
        latest = latest_after(latest, own_at(before, place), own_at(after, place));
    }
    latest
}

// A tick drops an open message whose T4 runs out.
#[tactic(auto, unfolding(exchange::specs::Tick::was_dropped))]
fn was_dropped(before: Incoming, after: Incoming) -> bool
    ensures { result ≡ was_dropped before after }
{
    incoming::is_open(before) && incoming::is_free(after)
}

fn gone_marks(before: [Incoming; 4], after: [Incoming; 4]) -> [bool; 4]
    ensures { result ≡ gone_marks before after }
{
    array::from_fn(|place| was_dropped(incoming_at(before, place), incoming_at(after, place)))
}

// Whether a timer runs at an own place: T3 or T4.
fn is_timed(place: Own) -> bool
    ensures { result ≡ own_timed place }
{
    matches!(
        place.stage,
        OwnStage::Awaiting { .. } | OwnStage::Replying(_)
    )
}

fn is_marked(marks: [bool; 4]) -> bool
    ensures { result ≡ is_marked marks }
{
    marks.contains(&true)
}

#[tactic(auto, unfolding(exchange::specs::Tick::owns_timed))]
fn owns_timed(own: [Own; 4]) -> bool
    ensures { result ≡ owns_timed own }
{
    is_marked(array::from_fn(|place| is_timed(own_at(own, place))))
}

#[tactic(auto, unfolding(exchange::specs::Tick::incomings_timed))]
fn incomings_timed(incoming: [Incoming; 4]) -> bool
    ensures { result ≡ incomings_timed incoming }
{
    is_marked(array::from_fn(|place| incoming::is_open(incoming_at(incoming, place))))
}

// Whether no timer runs: then a tick changes nothing.
#[tactic(auto, unfolding(exchange::specs::Tick::is_still))]
pub fn is_still(exchange: Exchange) -> bool
    ensures { result ≡ is_still exchange }
{
    !owns_timed(exchange.own) && !incomings_timed(exchange.incoming)
}

// Whether a place has verdict 6.
fn has_no_reply(place: Own) -> bool
    ensures { result ≡ no_reply_at place.stage }
{
    matches!(
        place.stage,
        OwnStage::Done {
            verdict: Verdict::NoReply,
            ..
        }
    )
}

// Whether a place got it now.
#[tactic(auto, unfolding(exchange::specs::Tick::got_no_reply))]
fn got_no_reply(before: Own, after: Own) -> bool
    ensures { result ≡ got_no_reply before after }
{
    got_verdict(before, after) && has_no_reply(after)
}

// "verdict 6 gives S9F9", with the header of the primary's last block, which its place keeps.
#[tactic(auto, unfolding(exchange::specs::Tick::late_at))]
fn late_at(
    terms: Terms,
    before: [Own; 4],
    after: [Own; 4],
    latest: u16,
    place: usize,
    outbox: Outbox,
) -> Outbox
    ensures { result ≡ late_at terms before after latest place outbox }
{
    let own = own_at(after, place);
    if got_no_reply(own_at(before, place), own) {
        let header = own.header;
        let report = Report {
            function: 9,
            header,
        };
        return desk::caused(terms, after, latest, outbox, report);
    }
    outbox
}

// Places 0 to 3 add theirs (reading 34).
fn late_over(
    terms: Terms,
    before: [Own; 4],
    after: [Own; 4],
    latest: u16,
    mut outbox: Outbox,
) -> Outbox
    ensures { result ≡ late_over terms before after latest outbox }
{
    for place in 0..4 {
        outbox = late_at(terms, before, after, latest, place, outbox);
    }
    outbox
}

// The same, by the marks of the places that got a verdict: where there is none, there is nothing to go through.
fn late(
    terms: Terms,
    before: [Own; 4],
    after: [Own; 4],
    marks: [bool; 4],
    latest: u16,
    outbox: Outbox,
) -> Outbox
    requires { marks ≡ got_marks before after }
    ensures { result ≡ late_over terms before after latest outbox }
{
    if is_marked(marks) {
        return late_over(terms, before, after, latest, outbox);
    }
    outbox
}

// 0.1 s have passed.
#[tactic(auto, unfolding(exchange::specs::Tick::passed_of))]
pub fn tick(exchange: Exchange, terms: Terms) -> Changed
    ensures { result ≡ tick_of terms exchange }
{
    let own = tick_own(exchange.own, terms);
    let incoming = tick_incoming(exchange.incoming, terms);
    let latest = latest_over(exchange.numbers.latest, exchange.own, own);
    let verdicts = got_marks(exchange.own, own);
    let outbox = late(
        terms,
        exchange.own,
        own,
        verdicts,
        latest,
        desk::outbox(exchange),
    );
    Changed {
        exchange: Exchange {
            own,
            incoming,
            numbers: Numbers {
                last: outbox.last,
                latest,
            },
            sending: outbox.sending,
            reports: outbox.reports,
            ..exchange
        },
        flags: Flags {
            verdicts,
            completed: [false; 4],
            dropped: gone_marks(exchange.incoming, incoming),
        },
    }
}
