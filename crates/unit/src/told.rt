// The transactions are told: what the device has to tell them, and that time passed.
ghost use Rattle.std.specs.Prelude.{◌≡◌, ◌≤◌, length};
ghost use Rattle.wire.specs.Bytes.{part};
ghost use Rattle.header.specs.Header.{first_ten};
ghost use Rattle.link.specs.Run.{changed_to, judged_as, judging, next_in, putting_out, telling};

use crate::flags::both_flags;
use exchange::{Changed, Exchange, Outgoing};
use line::Told;
use link::{Link, Midway, Note};
use settings::Terms;

// Nothing changes them.
pub(crate) fn untold(exchange: Exchange, note: Note) -> Midway
    ensures { result ≡ Rattle.link.specs.Run.untold exchange note }
{
    Midway {
        exchange,
        note,
        flags: desk::no_flags(),
    }
}

// The message's sending ended.
fn changed_to(changed: Changed, note: Note) -> Midway
    ensures { result ≡ changed_to changed note }
{
    Midway {
        exchange: changed.exchange,
        note,
        flags: changed.flags,
    }
}

// Whether a message has a block behind block `k`; a report is one block.
fn has_next(message: Outgoing, k: u16) -> bool
    ensures { result ≡ next_in message k }
{
    match message {
        Outgoing::Message { length, .. } => usize::from(k) < cut::blocks_in(usize::from(length)),
        Outgoing::Nothing | Outgoing::Report { .. } => false,
    }
}

// A block goes out: they are told so of the message's last one.
#[tactic(auto, unfolding(link::specs::Run::putting_out))]
fn putting_out(more: bool, exchange: Exchange) -> Exchange
    ensures { result ≡ putting_out more exchange }
{
    if more {
        return exchange;
    }
    clerk::put_out(exchange)
}

// A block was acknowledged: they are told so of the message's last one.
#[tactic(auto, unfolding(link::specs::Run::acknowledged))]
fn acknowledged(more: bool, exchange: Exchange, note: Note) -> Midway
    ensures { result ≡ Rattle.link.specs.Run.acknowledged more exchange note }
{
    if more {
        return untold(exchange, note);
    }
    changed_to(clerk::sent(exchange), note)
}

// The ten header bytes of a block.
fn header_in(received: [u8; 256]) -> [u8; 10]
    ensures { result ≡ first_ten received }
{
    let mut header = [0; 10];
    header.copy_from_slice(&received[..10]);
    header
}

// The data behind them, of a block of length N.
fn data_in(received: &[u8], n: u8) -> &[u8]
    requires { 255 ≤ length received.now }
    ensures { result.now ≡ part 10 n received.now }
{
    let end = usize::from(n);
    if end < 10 {
        return &received[..0];
    }
    &received[10..end]
}

// A block of N bytes went up.
fn judged(link: Link, n: u8, room: &mut [u8]) -> Midway
    ensures { telling result room.new ≡ telling (judged_as (judging link n room.old).answer) (judging link n room.old).room }
{
    let judged = judging::judge(
        link.exchange,
        link.settings.terms,
        header_in(link.received),
        data_in(&link.received, n),
        room,
    );
    Midway {
        exchange: judged.exchange,
        note: Note::Block(judged.note),
        flags: judged.flags,
    }
}

// What the device tells. `note` is that of what it remarks.
pub(crate) fn tells(link: Link, told: Told, note: Note, room: &mut [u8]) -> Midway
    ensures { telling result room.new ≡ Rattle.link.specs.Run.tells told note link room.old }
{
    match told {
        Told::Nothing => untold(link.exchange, note),
        Told::PutOut => {
            let more = has_next(clerk::outgoing(link.exchange), link.block);
            untold(putting_out(more, link.exchange), note)
        }
        Told::Sent => {
            let more = has_next(clerk::outgoing(link.exchange), link.block);
            acknowledged(more, link.exchange, note)
        }
        Told::Failed => changed_to(clerk::failed(link.exchange), note),
        Told::Up(n) => judged(link, n, room),
    }
}

// "On a tick the line goes first, then own places 0 to 3, then incoming places 0 to 3".
pub(crate) fn passing(ticks: bool, terms: Terms, midway: Midway) -> Midway
    ensures { result ≡ Rattle.link.specs.Run.passing ticks terms midway }
{
    if ticks {
        let changed = clerk::tick(midway.exchange, terms);
        return Midway {
            exchange: changed.exchange,
            flags: both_flags(midway.flags, changed.flags),
            ..midway
        };
    }
    midway
}
