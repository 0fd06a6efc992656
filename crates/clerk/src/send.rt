// The message that is being sent: what it is, and how its sending ends; a report that waits starts then (02, request 2).
ghost use Rattle.std.specs.Prelude.{◌≡◌};
ghost use Rattle.exchange.specs.Send.{ended_own, ended_reply, ended_report, failed_of, outgoing_of, put_out_of, reply_to, sent_of};
ghost use Rattle.clerk.specs.Ends.{Ends};

use desk::{
    freed_in, got_verdict, incoming_place, no_flags, own_place, put_incoming, put_own,
    verdict_flag, with_outbox, with_sending,
};
use exchange::{Changed, Exchange, Outgoing, Sending};
use header::Header;
use life::{incoming, own};
use place::{Incoming, Own};

// The header of a reply: the complement of the R-bit (E4 7.3.1), W = 0, and else the primary's.
fn reply_to(primary: Header, function: u8) -> Header
    ensures { result ≡ reply_to primary function }
{
    Header {
        r: !primary.r,
        w: false,
        function,
        e: false,
        number: 0,
        ..primary
    }
}

// What is being sent or held.
pub fn outgoing(exchange: Exchange) -> Outgoing
    ensures { result ≡ outgoing_of exchange }
{
    match exchange.sending {
        Sending::Nothing => Outgoing::Nothing,
        Sending::Primary { place, length } => Outgoing::Message {
            header: own::primary(own_place(exchange, place)),
            length,
        },
        Sending::Reply {
            place,
            function,
            length,
        } => Outgoing::Message {
            header: reply_to(incoming::primary(incoming_place(exchange, place)), function),
            length,
        },
        Sending::Report { function, number } => Outgoing::Report { function, number },
    }
}

// The last block of the message being sent is put out. The reply to a primary may come from now on; a reply of ours, and a
// report, await nothing.
pub fn put_out(exchange: Exchange) -> Exchange
    ensures { result ≡ put_out_of exchange }
{
    match exchange.sending {
        Sending::Primary { place, .. } => put_own(
            exchange,
            place,
            own::put_out(own_place(exchange, place)),
        ),
        Sending::Nothing | Sending::Reply { .. } | Sending::Report { .. } => exchange,
    }
}

// The sending of a primary is over.
#[tactic(auto, unfolding(exchange::specs::Send::ended_own))]
fn ended_own(exchange: Exchange, place: usize, after: Own) -> Changed
    ensures { result ≡ ended_own exchange place after }
{
    Changed {
        exchange: with_sending(put_own(exchange, place, after), Sending::Nothing),
        flags: verdict_flag(place, got_verdict(own_place(exchange, place), after)),
    }
}

// The sending of a reply is over: "a reply of ours that ends raises" no flag.
#[tactic(auto, unfolding(exchange::specs::Send::ended_reply))]
fn ended_reply(exchange: Exchange, place: usize, after: Incoming) -> Changed
    ensures { result ≡ ended_reply exchange place after }
{
    Changed {
        exchange: with_sending(put_incoming(exchange, place, after), Sending::Nothing),
        flags: no_flags(),
    }
}

// A report is over: it has no place and no verdict.
#[tactic(auto, unfolding(exchange::specs::Send::ended_report))]
fn ended_report(exchange: Exchange) -> Changed
    ensures { result ≡ ended_report exchange }
{
    Changed {
        exchange: with_sending(exchange, Sending::Nothing),
        flags: no_flags(),
    }
}

// The oldest report that waits starts in the call that ends a message, `before`. Where none waits, as mostly, the state is not put together
// anew.
fn freeing(before: Sending, changed: Changed) -> Changed
    ensures { result ≡ Rattle.exchange.specs.Send.freeing before changed }
{
    if changed.exchange.reports.count == 0 {
        return changed;
    }
    let outbox = freed_in(before, changed.exchange);
    Changed {
        exchange: with_outbox(changed.exchange, outbox),
        ..changed
    }
}

// What the places make of the end of what is being sent: `own` is what becomes of the place of a primary, `incoming` of that of a
// reply.
fn ended<F: Fn(Own) -> Own, G: Fn(Incoming) -> Incoming>(
    exchange: Exchange,
    own: F,
    incoming: G,
) -> Changed
    requires own { F.IsAlwaysCallable own }
    requires incoming { G.IsAlwaysCallable incoming }
    ensures { Ends (F.post own) (G.post incoming) exchange.sending exchange result }
{
    match exchange.sending {
        Sending::Nothing => Changed {
            exchange,
            flags: no_flags(),
        },
        Sending::Primary { place, .. } => {
            ended_own(exchange, place, own(own_place(exchange, place)))
        }
        Sending::Reply { place, .. } => {
            ended_reply(exchange, place, incoming(incoming_place(exchange, place)))
        }
        Sending::Report { .. } => ended_report(exchange),
    }
}

// The last block of the message being sent was acknowledged.
pub fn sent(exchange: Exchange) -> Changed
    ensures { result ≡ sent_of exchange }
{
    let sent = ended(exchange, own::sent, incoming::sent);
    freeing(exchange.sending, sent)
}

// A block of the message being sent failed.
pub fn failed(exchange: Exchange) -> Changed
    ensures { result ≡ failed_of exchange }
{
    let failed = ended(exchange, own::failed, incoming::failed);
    freeing(exchange.sending, failed)
}
