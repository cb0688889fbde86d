#![tactic(auto)]
// Octets and gaps into frames (01, Receiving). A receiver is a struct by value and knows nothing of cards and tools.
ghost use Rattle.std.specs.Prelude.{◌≡◌, ◌<◌};
ghost use Rattle.octets.specs.Splice.{fronted};
ghost use Rattle.numbers.specs.Answer.{number_of};
ghost use Rattle.frame.specs.Sizes.{longest_frame};
ghost use Rattle.frame.specs.Checks.{stated_by};
ghost use Rattle.receiver.specs.Receiving.{awaiting, partial, to, begun, verdict_on, grown};
ghost use Rattle.receiver.specs.Receiver.{Unfinished, answer_of_event, answer_of_received, most_held, fresh, stated_n, sound, held_with, holding, stepped, no_frame, after_octet, after_gap, after_session_end};

use frame::checks::stated_by;
use frame::sizes::LONGEST_FRAME;
use frame::{Command, Fault, judge};
use numbers::{Octets, table};

// The most octets of a partly received frame: one less than the longest frame has. `specs/Receiver.antt` has the same name.
pub const MOST_HELD: usize = 127;

// The octets of a partly received frame, N first. Those at and past the count are free.
// The mark stands beside the count, since a receiver that skips may hold octets (`sound`, `reception_of`).
#[derive(Clone, Copy)]
pub struct Receiver {
    pub skipping: bool,
    pub count: Octets,
    pub octets: [u8; MOST_HELD],
}

// What an octet, a gap or a session end gives.
// An enum of its own: 01 asks for one that holds the command of a frame.
#[derive(Clone, Copy, Debug, PartialEq, Eq)]
pub enum Event {
    Nothing,
    Bad(Fault),
    Good(Command),
    Refused,
}

// The next receiver beside the event. frame has the octets of a good frame, as many as its N says, and zeros after them; else zeros.
#[derive(Clone, Copy)]
pub struct Received {
    pub receiver: Receiver,
    pub event: Event,
    pub frame: [u8; LONGEST_FRAME],
}

impl Event {
    // The number that goes to the host; 0 where there is none.
    // No From: `number` says which octet of an answer it is.
    pub fn number(self) -> u8
        ensures { result ≡ number_of (answer_of_event self) }
    {
        match self {
            Event::Nothing | Event::Good(_) => table::NONE,
            Event::Bad(fault) => fault.number(),
            Event::Refused => table::BROKEN_RULE,
        }
    }
}

// An answer without a frame.
fn answer(receiver: Receiver, event: Event) -> Received
    ensures { answer_of_received result ≡ record { receiver = receiver; answer = answer_of_event event; frame = no_frame } }
{
    Received {
        receiver,
        event,
        frame: [0; LONGEST_FRAME],
    }
}

impl Receiver {
    // An empty receiver.
    pub fn new() -> Self
        ensures { result ≡ fresh }
    {
        Receiver {
            skipping: false,
            count: Octets(0),
            octets: [0; MOST_HELD],
        }
    }

    // Whether no call refuses this receiver with 12.
    pub fn is_sound(self) -> bool
        ensures { result ≡ sound self }
    {
        self.skipping
            || self.count.0 == 0
            || stated_by(self.octets[0]).is_some_and(|whole| self.count.0 < whole.0)
    }

    // 1 at an N out of range; 2, 4 or 5 where a bad frame is complete with this octet.
    pub fn octet(self, octet: u8) -> Received
        ensures { answer_of_received result ≡ after_octet self octet }
    {
        if !self.is_sound() {
            return answer(self, Event::Refused);
        }
        if self.skipping {
            return answer(self, Event::Nothing);
        }
        if self.count.0 == 0 {
            return self.begin(octet);
        }
        self.extend(octet)
    }

    // 3 inside a frame; after it the next octet is an N.
    pub fn gap(self) -> Received
        ensures { answer_of_received result ≡ after_gap self }
    {
        if !self.is_sound() {
            return answer(self, Event::Refused);
        }
        if self.skipping || self.count.0 == 0 {
            return answer(self.empty(), Event::Nothing);
        }
        answer(self.empty(), Event::Bad(Fault::Cut))
    }

    // No number, whatever was held; after it the next octet is an N.
    pub fn session_end(self) -> Received
        ensures { answer_of_received result ≡ after_session_end self }
    {
        if !self.is_sound() {
            return answer(self, Event::Refused);
        }
        answer(self.empty(), Event::Nothing)
    }

    // The next octet is an N.
    fn empty(self) -> Self
        ensures { result ≡ holding awaiting self }
    {
        Receiver {
            skipping: false,
            count: Octets(0),
            ..self
        }
    }

    // One octet more of a frame that is not complete with it.
    fn hold(mut self, octet: u8) -> Self
        requires { self.count.0 < most_held }
        ensures { result ≡ holding (partial (held_with self octet)) self }
    {
        self.octets[self.count.0] = octet;
        Receiver {
            skipping: false,
            count: Octets(self.count.0 + 1),
            ..self
        }
    }

    // The octet is an N.
    fn begin(self, octet: u8) -> Received
        requires { self.count.0 ≡ 0 }
        ensures { answer_of_received result ≡ stepped self (begun (stated_by octet) octet) }
    {
        let Some(_) = stated_by(octet) else {
            let next = Receiver {
                skipping: true,
                ..self
            };
            return answer(next, Event::Bad(Fault::OutOfRange));
        };
        answer(self.hold(octet), Event::Nothing)
    }

    // One octet more of a partly received frame.
    fn extend(self, octet: u8) -> Received
        requires { (0 < self.count.0) × Unfinished self.count.0 (stated_n self) }
        ensures { answer_of_received result ≡ stepped self (grown (held_with self octet)) }
    {
        let whole = usize::from(self.octets[0]);
        if self.count.0 + 1 < whole {
            answer(self.hold(octet), Event::Nothing)
        } else {
            self.complete(octet)
        }
    }

    // The octets of a frame with its last one, and zeros after them.
    fn whole(self, octet: u8) -> [u8; LONGEST_FRAME]
        requires { self.count.0 < longest_frame }
        ensures { result ≡ fronted (held_with self octet) no_frame }
    {
        let end = self.count.0;
        let mut frame = [0; LONGEST_FRAME];
        octets::put(&mut frame, 0, &self.octets[..end]);
        frame[end] = octet;
        frame
    }

    // The frame's whole length has come with this octet.
    fn complete(self, octet: u8) -> Received
        requires { self.count.0 < longest_frame }
        ensures { answer_of_received result ≡ stepped self (to awaiting (verdict_on (held_with self octet))) }
    {
        let frame = self.whole(octet);
        let receiver = self.empty();
        match judge(&frame[..self.count.0 + 1]) {
            Ok(command) => Received {
                receiver,
                event: Event::Good(command),
                frame,
            },
            Err(fault) => answer(receiver, Event::Bad(fault)),
        }
    }
}
