// The events of a card: an octet, a gap, a session end and a meter write (01, The card).
ghost use Rattle.std.specs.Prelude.{◌≡◌, ◌≤◌, get_or, take};
ghost use Rattle.numbers.specs.Answer.{given, number_of};
ghost use Rattle.frame.specs.Sizes.{longest_frame};
ghost use Rattle.frame.specs.Checks.{inspected};
ghost use Rattle.frame.specs.Content.{fields_of, data_of};
ghost use Rattle.receiver.specs.Receiver.{answer_of_event};
ghost use Rattle.card.specs.Numbers.{answer_number};
ghost use Rattle.card.specs.Loan.{lending};
ghost use Rattle.card.specs.Parts.{Tells, Gives};
ghost use Rattle.card.specs.Soundness.{Sound};
ghost use Rattle.card.specs.Frames.{on_frame};
ghost use Rattle.card.specs.Events.{heard, after_octet, after_gap, after_session_end, after_meter_write};

use crate::{Answered, Card, Refusal, Stepped};
use frame::Command;
use frame::sizes::{LONGEST_FRAME, NUMBER_WIDTH};
use receiver::Event;
use records::Cause;

// What the host is told of a receiver's event.
fn event_answer(event: Event) -> Result<(), Refusal>
    ensures { answer_number result ≡ number_of (answer_of_event event) }
{
    match event {
        Event::Nothing | Event::Good(_) => Ok(()),
        Event::Bad(fault) => Err(fault.into()),
        Event::Refused => Err(Refusal::BrokenRule),
    }
}

impl Card {
    // A whole good frame: its octets, as many as its N says, then zeros.
    #[tactic(auto, using(crate::proofs::Amounts::good_data))]
    fn heard_frame(
        self,
        na2: [u8; NUMBER_WIDTH],
        command: Command,
        frame: [u8; LONGEST_FRAME],
        reply: &mut [u8; LONGEST_FRAME],
    ) -> Stepped
        requires whole { get_or frame 0 0 ≤ longest_frame }
        requires good { inspected (take (get_or frame 0 0) frame) ≡ given command }
        ensures { Gives (on_frame self (lending na2 reply.old) command (fields_of command (take (get_or frame 0 0) frame)) (data_of command (take (get_or frame 0 0) frame))) reply.old reply.new result }
    {
        let octets = &frame[..usize::from(frame[0])];
        let fields = frame::fields_of(command, octets);
        let data = frame::data_of(command, octets);
        self.on_frame(na2, command, fields, data, reply)
    }

    // One octet more for the receiver, and what the card does with a frame that it completes.
    fn heard(self, octet: u8, na2: [u8; NUMBER_WIDTH], reply: &mut [u8; LONGEST_FRAME]) -> Stepped
        requires { Sound self }
        ensures { Gives (heard self octet (lending na2 reply.old)) reply.old reply.new result }
    {
        let received = self.receiver.octet(octet);
        let card = Card {
            receiver: received.receiver,
            ..self
        };
        let Event::Good(command) = received.event else {
            return card.unreplied(event_answer(received.event));
        };
        card.heard_frame(na2, command, received.frame, reply)
    }

    pub fn octet(self, octet: u8, na2: &[u8], reply: &mut [u8]) -> Stepped
        ensures { Gives (after_octet self octet (lending na2.now reply.old)) reply.old reply.new result }
    {
        if na2.len() != NUMBER_WIDTH {
            return self.unreplied(Err(Refusal::WrongLength));
        }
        let Some(front) = reply.first_chunk_mut() else {
            return self.unreplied(Err(Refusal::WrongLength));
        };
        if !self.sound() {
            return self.unreplied(Err(Refusal::BrokenRule));
        }
        self.heard(octet, octets::padded(na2), front)
    }

    pub fn gap(self) -> Answered
        ensures { Tells (after_gap self) result }
    {
        if !self.sound() {
            return self.answered(Err(Refusal::BrokenRule));
        }
        let received = self.receiver.gap();
        let card = Card {
            receiver: received.receiver,
            ..self
        };
        card.answered(event_answer(received.event))
    }

    pub fn session_end(self) -> Answered
        ensures { Tells (after_session_end self) result }
    {
        if !self.sound() {
            return self.answered(Err(Refusal::BrokenRule));
        }
        let card = Card {
            receiver: self.receiver.session_end().receiver,
            ..self.idle()
        };
        card.answered(Ok(()))
    }

    #[tactic(auto, unfolding(crate::specs::Events::after_meter_write))]
    pub fn meter_write(self, tab: u8, data: &[u8]) -> Answered
        ensures { Tells (after_meter_write self tab «data».now) result }
    {
        if !self.sound() {
            return self.answered(Err(Refusal::BrokenRule));
        }
        self.written(Cause::Meter, tab, data)
    }
}
