// Reports of stream 9 (E4 R1-7.6; 02, request 2): whether one is due now or waits, when it starts, and what a freed line makes of those
// that wait. They take and return the outbox, which is small, and the state is put together once.
ghost use Rattle.std.specs.Prelude.{◌≡◌};
ghost use Rattle.exchange.specs.Reports.{freed_in, is_over, oldest_starts, outbox_of, same_message, with_outbox};
ghost use Rattle.exchange.specs.Request.{sending_by};

use exchange::{Exchange, Numbers, Outbox, Sending};
use place::Own;
use reports::Report;
use seek::next_number;
use settings::Terms;

// Whether there is a message that is being sent or held; a report is one.
pub fn is_message(sending: Sending) -> bool
    ensures { result ≡ sending_by sending }
{
    !matches!(sending, Sending::Nothing)
}

// Whether it is the same message.
pub fn same_message(before: Sending, after: Sending) -> bool
    ensures { result ≡ same_message before after }
{
    before == after
}

// The part of the state that a report touches.
pub fn outbox(exchange: Exchange) -> Outbox
    ensures { result ≡ outbox_of exchange }
{
    Outbox {
        last: exchange.numbers.last,
        sending: exchange.sending,
        reports: exchange.reports,
    }
}

// That part anew: places, saved header and the latest verdict's number are as they were.
pub fn with_outbox(exchange: Exchange, outbox: Outbox) -> Exchange
    ensures { result ≡ with_outbox exchange outbox }
{
    Exchange {
        numbers: Numbers {
            last: outbox.last,
            ..exchange.numbers
        },
        sending: outbox.sending,
        reports: outbox.reports,
        ..exchange
    }
}

// A report starts: "a new transaction number, taken when the report starts".
#[tactic(auto, unfolding(exchange::specs::Reports::starts))]
fn starts(own: [Own; 4], latest: u16, outbox: Outbox, report: Report) -> Outbox
    ensures { result ≡ Rattle.exchange.specs.Reports.starts own latest outbox report }
{
    let number = next_number(own, outbox.last, latest);
    Outbox {
        last: number,
        sending: Sending::Report {
            function: report.function,
            number,
        },
        reports: reports::showing(outbox.reports, report.header),
    }
}

// A report is due: "Up to 8 reports wait while a message is being sent or held"; else it starts.
#[tactic(auto, unfolding(exchange::specs::Reports::reported))]
fn reported(own: [Own; 4], latest: u16, outbox: Outbox, report: Report) -> Outbox
    ensures { result ≡ Rattle.exchange.specs.Reports.reported own latest outbox report }
{
    if is_message(outbox.sending) {
        Outbox {
            reports: reports::added(outbox.reports, report),
            ..outbox
        }
    } else {
        starts(own, latest, outbox, report)
    }
}

// A cause: "the equipment side" reports, a host nothing.
#[tactic(auto, unfolding(exchange::specs::Reports::caused))]
pub fn caused(terms: Terms, own: [Own; 4], latest: u16, outbox: Outbox, report: Report) -> Outbox
    ensures { result ≡ Rattle.exchange.specs.Reports.caused terms own latest outbox report }
{
    if terms.host {
        outbox
    } else {
        reported(own, latest, outbox, report)
    }
}

// "the oldest goes first"
#[tactic(auto, unfolding(exchange::specs::Reports::oldest_starts))]
fn oldest_starts(own: [Own; 4], latest: u16, outbox: Outbox) -> Outbox
    ensures { result ≡ oldest_starts own latest outbox }
{
    if outbox.reports.count == 0 {
        return outbox;
    }
    let rest = Outbox {
        reports: reports::without_oldest(outbox.reports),
        ..outbox
    };
    starts(own, latest, rest, reports::oldest(outbox.reports))
}

// Whether the message that was being sent is over, and nothing is being sent now.
#[tactic(auto, unfolding(exchange::specs::Reports::is_over))]
pub fn is_over(before: Sending, after: Sending) -> bool
    ensures { result ≡ is_over before after }
{
    is_message(before) && !is_message(after)
}

// The line is freed if `before`, which was being sent, is over: the oldest report starts in that call.
#[tactic(auto, unfolding(exchange::specs::Reports::freed))]
fn freed(before: Sending, own: [Own; 4], latest: u16, outbox: Outbox) -> Outbox
    ensures { result ≡ Rattle.exchange.specs.Reports.freed before own latest outbox }
{
    if is_over(before, outbox.sending) {
        oldest_starts(own, latest, outbox)
    } else {
        outbox
    }
}

// What is left of a state in which `before` was being sent.
#[tactic(auto, unfolding(exchange::specs::Reports::freed_in))]
pub fn freed_in(before: Sending, exchange: Exchange) -> Outbox
    ensures { result ≡ freed_in before exchange }
{
    freed(
        before,
        exchange.own,
        exchange.numbers.latest,
        outbox(exchange),
    )
}
