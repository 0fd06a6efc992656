// Whether the numbers of a place are in the ranges of docs/STATE.md: the places' part of refusal 3.
ghost use Rattle.std.specs.Prelude.{◌≡◌};
ghost use Rattle.place.specs.Range.{arriving_in_range, incoming_in_range, length_in_range, own_in_range, timer_in_range};

use place::{Arriving, Incoming, IncomingStage, Own, OwnStage};
use wire::{MESSAGE_LIMIT, NEXT_LIMIT};

// T3 and T4 are 1,200 ticks at most, and a timer that runs is within its limit.
#[tactic(auto, unfolding(place::specs::Range::timer_in_range))]
fn timer_in_range(timer: u32) -> bool
    ensures { result ≡ timer_in_range timer }
{
    timer <= 1200
}

#[tactic(auto, unfolding(place::specs::Range::length_in_range))]
fn length_in_range(length: u16) -> bool
    ensures { result ≡ length_in_range length }
{
    usize::from(length) <= MESSAGE_LIMIT
}

// A message that is arriving: its timer, its next block number and its length.
#[tactic(auto, unfolding(place::specs::Range::arriving_in_range))]
fn arriving_in_range(arriving: Arriving) -> bool
    ensures { result ≡ arriving_in_range arriving }
{
    timer_in_range(arriving.timer)
        && arriving.next <= NEXT_LIMIT
        && length_in_range(arriving.length)
}

pub fn own_in_range(own: Own) -> bool
    ensures { result ≡ own_in_range own }
{
    match own.stage {
        OwnStage::Free | OwnStage::Sending | OwnStage::PutOut => true,
        OwnStage::Awaiting { timer } => timer_in_range(timer),
        OwnStage::Replying(arriving) => arriving_in_range(arriving),
        OwnStage::Done { reply, .. } => length_in_range(reply.length),
    }
}

pub fn incoming_in_range(incoming: Incoming) -> bool
    ensures { result ≡ incoming_in_range incoming }
{
    match incoming.stage {
        IncomingStage::Free => true,
        IncomingStage::Open(arriving) => arriving_in_range(arriving),
        IncomingStage::Complete { length }
        | IncomingStage::Replying { length }
        | IncomingStage::Replied { length, .. } => length_in_range(length),
    }
}
