// A block of the far end: length, body, ACK or NAK (E4 5.8.4, 5.8.5).
ghost use Rattle.std.specs.Prelude.{◌≡◌};
ghost use Rattle.settings.specs.Timer.{ticked};
ghost use Rattle.line.specs.Line.{body_byte, body_tick, heard, length_byte, length_tick, low_byte, silence_tick};

use crate::line::Line;
use crate::phase::{Arrival, Fault, Phase};
use crate::step::{Out, Remark, Step, Told};
use settings::Limits;

impl Line {
    // The length byte. After a bad one the sender may still be talking: no NAK before it is silent (E4 5.8.5).
    #[tactic(auto, unfolding(crate::specs::Line::length_byte, settings::specs::Panel::between))]
    pub(crate) fn length_byte(self, b: u8) -> Step
        ensures { result ≡ length_byte self b }
    {
        if (10..=254).contains(&b) {
            self.takes(Arrival {
                length: b,
                got: 0,
                sum: 0,
                high: 0,
            })
        } else {
            self.listens(Fault::Length)
        }
    }

    // The line goes on with the body, from a byte that came now.
    fn takes(self, block: Arrival) -> Step
        ensures { result ≡ Rattle.line.specs.Line.takes self block }
    {
        self.goes(Phase::Body { timer: 0, block }, Out::Nothing)
    }

    // The line listens for silence, from a byte that came now.
    pub(crate) fn listens(self, fault: Fault) -> Step
        ensures { result ≡ Rattle.line.specs.Line.listens self fault }
    {
        self.goes(Phase::Silence { timer: 0, fault }, Out::Nothing)
    }

    // The last byte of a block: the sum that came is held against the sum that was counted.
    #[tactic(auto, unfolding(crate::specs::Line::low_byte))]
    fn low_byte(self, length: u8, counted: u16, received: u16) -> Step
        ensures { result ≡ low_byte self length counted received }
    {
        if received == counted {
            self.tells(Phase::Idle, Out::Code(Line::ACK), Told::Up(length))
        } else {
            self.listens(Fault::Sum { received, counted })
        }
    }

    // One of the N + 2 bytes after the length byte: the N of the block, then the two of the sum.
    #[tactic(auto, unfolding(crate::specs::Line::body_byte))]
    pub(crate) fn body_byte(self, block: Arrival, b: u8, received: &mut [u8; 256]) -> Step
        ensures { heard result received.new ≡ body_byte self block b received.old }
    {
        let length = u16::from(block.length);
        if block.got < length {
            received[usize::from(block.got)] = b;
            self.takes(Arrival {
                got: block.got + 1,
                sum: wire::sum_with(block.sum, b),
                ..block
            })
        } else if block.got == length {
            self.takes(Arrival {
                got: block.got + 1,
                high: b,
                ..block
            })
        } else {
            self.low_byte(block.length, block.sum, wire::pair(block.high, b))
        }
    }

    // The receive ends by a NAK.
    fn naks(self, why: Remark) -> Step
        ensures { result ≡ Rattle.line.specs.Line.naks self why }
    {
        self.remarks(Phase::Idle, Out::Code(Line::NAK), why)
    }

    pub(crate) fn length_tick(self, limits: Limits, timer: u32) -> Step
        ensures { result ≡ length_tick self (ticked limits.t2 timer) }
    {
        match limits.t2.tick(timer) {
            None => self.naks(Remark::NoLength),
            Some(timer) => self.goes(Phase::WaitLength { timer }, Out::Nothing),
        }
    }

    pub(crate) fn body_tick(self, limits: Limits, timer: u32, block: Arrival) -> Step
        ensures { result ≡ body_tick self block (ticked limits.t1 timer) }
    {
        match limits.t1.tick(timer) {
            None => self.naks(Remark::Gap),
            Some(timer) => self.goes(Phase::Body { timer, block }, Out::Nothing),
        }
    }

    pub(crate) fn silence_tick(self, limits: Limits, timer: u32, fault: Fault) -> Step
        ensures { result ≡ silence_tick self fault (ticked limits.t1 timer) }
    {
        match limits.t1.tick(timer) {
            None => self.naks(Remark::Bad(fault)),
            Some(timer) => self.goes(Phase::Silence { timer, fault }, Out::Nothing),
        }
    }
}
