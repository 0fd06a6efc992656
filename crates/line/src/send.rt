// A block of ours: ENQ, EOT, the block, ACK (E4 5.8.2, 5.8.3, 5.8.6).
ghost use Rattle.std.specs.Prelude.{◌≡◌};
ghost use Rattle.settings.specs.Timer.{ticked};
ghost use Rattle.line.specs.Line.{ack_byte, ack_tick, eot_byte, eot_tick, give_way, retry_of};

use crate::line::Line;
use crate::phase::Phase;
use crate::step::{Out, Remark, Step, Told};
use settings::Limits;

impl Line {
    // The attempt is lost: the next one, or none more.
    #[tactic(auto, unfolding(crate::specs::Line::retry_of, crate::specs::Line::spent))]
    fn retry(self, limits: Limits, tries: u8) -> Step
        ensures { result ≡ retry_of limits self tries }
    {
        if limits.rty <= tries {
            self.tells(Phase::Idle, Out::Nothing, Told::Failed)
        } else {
            self.goes(
                Phase::WaitEot {
                    timer: 0,
                    tries: tries + 1,
                },
                Out::Code(Line::ENQ),
            )
        }
    }

    // Both ends want to send: the slave's block waits (E4 5.8.2.1), the master's goes on.
    #[tactic(auto, unfolding(crate::specs::Line::give_way))]
    fn give_way(self, limits: Limits) -> Step
        ensures { result ≡ give_way limits self }
    {
        if limits.master {
            self.stays()
        } else {
            self.holding().remarks(
                Phase::WaitLength { timer: 0 },
                Out::Code(Line::EOT),
                Remark::GaveWay,
            )
        }
    }

    // While waiting for EOT, any byte but EOT and ENQ is dropped.
    #[tactic(auto, unfolding(crate::specs::Line::eot_byte))]
    pub(crate) fn eot_byte(self, limits: Limits, tries: u8, b: u8) -> Step
        ensures { result ≡ eot_byte limits self tries b }
    {
        if b == Line::EOT {
            self.tells(Phase::Draining { tries }, Out::Block, Told::PutOut)
        } else if b == Line::ENQ {
            self.give_way(limits)
        } else {
            self.stays() // not even the timer is touched: a chattering line must not hold the send for ever
        }
    }

    #[tactic(auto, unfolding(crate::specs::Line::ack_byte))]
    pub(crate) fn ack_byte(self, limits: Limits, tries: u8, b: u8) -> Step
        ensures { result ≡ ack_byte limits self tries b }
    {
        if b == Line::ACK {
            self.tells(Phase::Idle, Out::Nothing, Told::Sent)
        } else {
            self.retry(limits, tries)
        }
    }

    pub(crate) fn eot_tick(self, limits: Limits, timer: u32, tries: u8) -> Step
        ensures { result ≡ eot_tick limits self tries (ticked limits.t2 timer) }
    {
        match limits.t2.tick(timer) {
            None => self.retry(limits, tries),
            Some(timer) => self.goes(Phase::WaitEot { timer, tries }, Out::Nothing),
        }
    }

    pub(crate) fn ack_tick(self, limits: Limits, timer: u32, tries: u8) -> Step
        ensures { result ≡ ack_tick limits self tries (ticked limits.t2 timer) }
    {
        match limits.t2.tick(timer) {
            None => self.retry(limits, tries),
            Some(timer) => self.goes(Phase::WaitAck { timer, tries }, Out::Nothing),
        }
    }
}
