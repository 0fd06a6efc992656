// The line, and the calls on it.
ghost use Rattle.std.specs.Prelude.{◌≡◌};
ghost use Rattle.line.specs.Line.{ask_of, byte_of, drained_of, fresh_line, heard, idle_byte, settle_idle, settle_of, tick_of, withdraw_of};

use crate::phase::Phase;
use crate::step::{Out, Remark, Step, Told};
use settings::Limits;

#[derive(Clone, Copy)]
pub struct Line {
    // Whether a block of ours is to be sent as soon as the line is idle.
    pub held: bool,
    pub phase: Phase,
}

impl Line {
    // The handshake codes (E4 5.2).
    pub const ENQ: u8 = 0x05;

    pub const EOT: u8 = 0x04;

    pub const ACK: u8 = 0x06;

    pub const NAK: u8 = 0x15;

    // "Both ends of the communications link are assumed to start in the Idle state" (E4 5.8.1).
    pub fn fresh() -> Line
        ensures { result ≡ fresh_line }
    {
        Line {
            held: false, // nothing is asked for yet
            phase: Phase::Idle,
        }
    }

    // The line as it is, and nothing to be put out, told or remarked.
    pub(crate) fn stays(self) -> Step
        ensures { result ≡ Rattle.line.specs.Line.stays self }
    {
        Step {
            line: self,
            out: Out::Nothing,
            told: Told::Nothing,
            remark: Remark::Nothing,
        }
    }

    // The line at another phase, with what goes out.
    pub(crate) fn goes(self, phase: Phase, out: Out) -> Step
        ensures { result ≡ Rattle.line.specs.Line.goes self phase out }
    {
        Step {
            out,
            ..Line { phase, ..self }.stays()
        }
    }

    // The same, and this is told.
    pub(crate) fn tells(self, phase: Phase, out: Out, told: Told) -> Step
        ensures { result ≡ Rattle.line.specs.Line.tells self phase out told }
    {
        Step {
            told,
            ..self.goes(phase, out)
        }
    }

    // The same, and this is remarked.
    pub(crate) fn remarks(self, phase: Phase, out: Out, remark: Remark) -> Step
        ensures { result ≡ Rattle.line.specs.Line.remarks self phase out remark }
    {
        Step {
            remark,
            ..self.goes(phase, out)
        }
    }

    // The line with a block held.
    #[tactic(auto, unfolding(crate::specs::Line::holding))]
    pub(crate) fn holding(self) -> Line
        ensures { result ≡ Rattle.line.specs.Line.holding self }
    {
        Line { held: true, ..self }
    }

    // ENQ is answered at once: the line never stalls a sender (E4 R1-1.3).
    #[tactic(auto, unfolding(crate::specs::Line::idle_byte))]
    fn idle_byte(self, b: u8) -> Step
        ensures { result ≡ idle_byte self b }
    {
        if b == Line::ENQ {
            self.goes(Phase::WaitLength { timer: 0 }, Out::Code(Line::EOT))
        } else {
            self.stays()
        }
    }

    // A byte has come. The bytes of a body are kept in `received`, from index 0 on.
    pub fn byte(self, limits: Limits, b: u8, received: &mut [u8; 256]) -> Step
        ensures { heard result received.new ≡ byte_of limits self b received.old }
    {
        match self.phase {
            Phase::Idle => self.idle_byte(b),
            Phase::WaitEot { tries, .. } => self.eot_byte(limits, tries, b),
            Phase::Draining { .. } => self.stays(),
            Phase::WaitAck { tries, .. } => self.ack_byte(limits, tries, b),
            Phase::WaitLength { .. } => self.length_byte(b),
            Phase::Body { block, .. } => self.body_byte(block, b, received),
            Phase::Silence { fault, .. } => self.listens(fault),
        }
    }

    // 0.1 s have passed. An idle line has no timer, and a draining one counts none (01).
    pub fn tick(self, limits: Limits) -> Step
        ensures { result ≡ tick_of limits self }
    {
        match self.phase {
            Phase::Idle | Phase::Draining { .. } => self.stays(),
            Phase::WaitEot { timer, tries } => self.eot_tick(limits, timer, tries),
            Phase::WaitAck { timer, tries } => self.ack_tick(limits, timer, tries),
            Phase::WaitLength { timer } => self.length_tick(limits, timer),
            Phase::Body { timer, block } => self.body_tick(limits, timer, block),
            Phase::Silence { timer, fault } => self.silence_tick(limits, timer, fault),
        }
    }

    // The last byte of our block has left the wire.
    pub fn drained(self) -> Line
        ensures { result ≡ drained_of self }
    {
        match self.phase {
            Phase::Draining { tries } => {
                Line {
                    phase: Phase::WaitAck { timer: 0, tries },
                    ..self
                }
            }
            Phase::WaitAck { .. } => self, // said twice, it starts no second wait
            Phase::Idle
            | Phase::WaitEot { .. }
            | Phase::WaitLength { .. }
            | Phase::Body { .. }
            | Phase::Silence { .. } => self,
        }
    }

    // A block is to be sent. `settle` puts its ENQ out, at once where the line is idle. While a block of ours is under way
    // there can be no other: "one message sent at a time" (01).
    pub fn ask(self) -> Line
        ensures { result ≡ ask_of self }
    {
        match self.phase {
            Phase::WaitEot { .. } | Phase::Draining { .. } | Phase::WaitAck { .. } => self,
            Phase::Idle | Phase::WaitLength { .. } | Phase::Body { .. } | Phase::Silence { .. } =>
                self.holding(),
        }
    }

    // A message that is gone is withdrawn: a held block is held no more. One that is under way goes on.
    pub fn withdraw(self) -> Line
        ensures { result ≡ withdraw_of self }
    {
        Line {
            held: false,
            ..self
        }
    }

    // A held block starts with a count and a timer of its own.
    #[tactic(auto, unfolding(crate::specs::Line::settle_idle))]
    fn settle_idle(self) -> Step
        ensures { result ≡ settle_idle self }
    {
        if self.held {
            self.withdraw().goes(Phase::WaitEot { timer: 0, tries: 0 }, Out::Code(Line::ENQ))
        } else {
            self.stays()
        }
    }

    // The last step of each call: the ENQ of a held block, where the line is idle.
    pub fn settle(self) -> Step
        ensures { result ≡ settle_of self }
    {
        match self.phase {
            Phase::Idle => self.settle_idle(),
            Phase::WaitEot { .. }
            | Phase::Draining { .. }
            | Phase::WaitAck { .. }
            | Phase::WaitLength { .. }
            | Phase::Body { .. }
            | Phase::Silence { .. } => self.stays(),
        }
    }
}
