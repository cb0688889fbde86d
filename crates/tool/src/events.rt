// The events of a tool: an octet, a gap and a session end (01, The tool).
ghost use Rattle.std.specs.Prelude.{◌≡◌, length, get_or, take};
ghost use Rattle.numbers.specs.Answer.{given};
ghost use Rattle.frame.specs.Checks.{inspected};
ghost use Rattle.frame.specs.Content.{fields_of, data_of};
ghost use Rattle.receiver.specs.Receiving.{on_octet};
ghost use Rattle.receiver.specs.Receiver.{reception_of};
ghost use Rattle.tool.specs.Parts.{told, answer_of_answered, answer_of_heard, Gives};
ghost use Rattle.tool.specs.Soundness.{Sound};
ghost use Rattle.tool.specs.Replies.{on_frame};
ghost use Rattle.tool.specs.Events.{heard_step, after_octet, after_gap, after_session_end};

use crate::{Answered, Heard, Progress, Refusal, Tool};
use frame::Command;
use frame::sizes::LONGEST_FRAME;
use receiver::Event;

impl Tool {
    // A whole good frame: its octets, as many as its N says, then zeros.
    fn heard_frame(
        self,
        command: Command,
        whole: [u8; LONGEST_FRAME],
        frame: &mut [u8; LONGEST_FRAME],
    ) -> Heard
        requires { inspected (take (get_or whole 0 0) whole) ≡ given command }
        ensures { Gives (on_frame self command (fields_of command (take (get_or whole 0 0) whole)) (data_of command (take (get_or whole 0 0) whole))) frame.old frame.new (answer_of_heard result) }
    {
        let end = usize::from(whole[0]);
        let octets = &whole[..end];
        let fields = frame::fields_of(command, octets);
        let data = frame::data_of(command, octets);
        self.on_frame(command, fields, data, frame)
    }

    // One octet more for the receiver, and what the tool does with a frame that it completes.
    fn heard(self, octet: u8, frame: &mut [u8; LONGEST_FRAME]) -> Heard
        requires { Sound self }
        ensures gives { Gives (heard_step (on_octet octet (reception_of self.receiver)) self) frame.old frame.new (answer_of_heard result) }
        ensures long { length frame.new ≡ length frame.old }
    {
        let received = self.receiver.octet(octet);
        let tool = Tool {
            receiver: received.receiver,
            ..self
        };
        match received.event {
            Event::Nothing => tool.hearing(Ok(Progress::Nothing)),
            Event::Bad(fault) => tool.hearing(Err(fault.into())),
            Event::Good(command) => tool.heard_frame(command, received.frame, frame),
            Event::Refused => tool.hearing(Err(Refusal::BrokenRule)),
        }
    }

    pub fn octet(self, octet: u8, frame: &mut [u8]) -> Heard
        ensures { Gives (after_octet self octet (length frame.old)) frame.old frame.new (answer_of_heard result) }
    {
        let Some(front) = frame.first_chunk_mut() else {
            return self.hearing(Err(Refusal::WrongLength));
        };
        if !self.sound() {
            return self.hearing(Err(Refusal::BrokenRule));
        }
        self.heard(octet, front)
    }

    pub fn gap(self) -> Answered
        ensures { answer_of_answered result ≡ told (after_gap self) }
    {
        if !self.sound() {
            return self.answering(Err(Refusal::BrokenRule));
        }
        let received = self.receiver.gap();
        let tool = Tool {
            receiver: received.receiver,
            ..self
        };
        match received.event {
            Event::Nothing | Event::Good(_) => tool.answering(Ok(Progress::Nothing)),
            Event::Bad(fault) => tool.answering(Err(fault.into())),
            Event::Refused => tool.answering(Err(Refusal::BrokenRule)),
        }
    }

    pub fn session_end(self) -> Answered
        ensures { answer_of_answered result ≡ told (after_session_end self) }
    {
        if !self.sound() {
            return self.answering(Err(Refusal::BrokenRule));
        }
        let tool = Tool {
            receiver: self.receiver.session_end().receiver,
            ..self
        };
        if self.phase.idle() {
            return tool.answering(Ok(Progress::Nothing));
        }
        tool.ended().answering(Err(Refusal::SessionEnded))
    }
}
