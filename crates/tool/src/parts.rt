// The values that a tool's calls hand back, and a tool whose request has ended.
ghost use Rattle.std.specs.Prelude.{◌≡◌, ◌≤◌, length};
ghost use Rattle.frame.specs.Sizes.{most_transferred};
ghost use Rattle.tool.specs.Answers.{refusal_number, answer_of};
ghost use Rattle.tool.specs.Parts.{ended, ended_well, responding, refusing, over, told, unsent, padded_contents, answer_of_answered, answer_of_requested, answer_of_heard};

use crate::{Answered, Contents, Heard, Phase, Progress, Refusal, Requested, Tool};
use numbers::Octets;
use wake::Wake;

// The contents of a reading.
#[tactic(auto, using(octets::proofs::Splice::spliced_front))]
pub(crate) fn padded_contents(data: &[u8]) -> Contents
    requires { length «data».now ≤ most_transferred }
    ensures { result ≡ padded_contents «data».now }
{
    Contents {
        octets: octets::padded(data),
        length: Octets(data.len()),
    }
}

impl Tool {
    // The tool whose request has ended.
    pub(crate) fn ended(self) -> Tool
        ensures { result ≡ ended self }
    {
        Tool {
            phase: Phase::Idle {
                last: self.phase.last(),
            },
            ..self
        }
    }

    // The tool whose request has ended without a number.
    pub(crate) fn ended_well(self) -> Tool
        ensures { result ≡ ended_well self }
    {
        Tool {
            waking: self.waking.succeeded(self.phase.last()),
            ..self.ended()
        }
    }

    // This tool beside the answer.
    pub(crate) fn answering(self, answer: Result<Progress, Refusal>) -> Answered
        ensures { answer_of_answered result ≡ told (responding self (answer_of answer)) }
    {
        Answered { tool: self, answer }
    }

    // The same for a request that is refused.
    pub(crate) fn refusing(self, refusal: Refusal) -> Requested
        ensures { answer_of_requested result ≡ told (refusing self (refusal_number refusal)) }
    {
        Requested {
            tool: self,
            answer: Err(refusal),
            wake: Wake::None,
            frame: Octets(0),
        }
    }

    // The same for an octet, with nothing to send, no wake-up and these contents.
    pub(crate) fn telling(self, answer: Result<Progress, Refusal>, contents: Contents) -> Heard
        ensures { answer_of_heard result ≡ unsent self (answer_of answer) contents }
    {
        Heard {
            tool: self,
            answer,
            wake: Wake::None,
            frame: Octets(0),
            contents,
        }
    }

    // The same with nothing read.
    pub(crate) fn hearing(self, answer: Result<Progress, Refusal>) -> Heard
        ensures { answer_of_heard result ≡ told (responding self (answer_of answer)) }
    {
        self.telling(answer, padded_contents(&[]))
    }

    // The request has ended with a number.
    pub(crate) fn over(self, refusal: Refusal) -> Heard
        ensures { answer_of_heard result ≡ told (over self (refusal_number refusal)) }
    {
        self.ended().hearing(Err(refusal))
    }
}
