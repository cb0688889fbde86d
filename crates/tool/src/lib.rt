#![tactic(auto)]
// The primary station by value: one request at a time, the replies to it, and the wake-up memory (01, The tool).
ghost use Rattle.std.specs.Prelude.{◌≡◌};
ghost use Rattle.numbers.specs.Answer.{number_of};
ghost use Rattle.tool.specs.declared.Refusal.TheVariants.{BadFrame};
ghost use Rattle.tool.specs.Answers.{refusal_number, answer_of};
ghost use Rattle.tool.specs.Parts.{fresh};

mod events;
mod frames;
mod parts;
mod phases;
mod replies;
mod requests;
mod soundness;

use frame::Fault;
use frame::sizes::{ADDRESS_WIDTH, MOST_TRANSFERRED, NUMBER_WIDTH};
use numbers::Octets;
use numbers::table::{
    BROKEN_RULE, BUSY, NONE, REJECTED, SESSION_ENDED, TOO_LONG, UNEXPECTED_FRAME, WEAK_KEY,
    WRONG_ADDRESS, WRONG_CIPHER, WRONG_ECHO, WRONG_LENGTH,
};
use receiver::Receiver;
use wake::{Last, Wake, WakeUps};

// The mark of the request: none runs, and the last was such a one; or one runs, and waits for the reply to ENQ for a TAB, to TRF, to REC with so many
// octets of DATA, or to AUT. The one that runs is the last.
// No option of a request: the idle mark holds a value too.
#[derive(Clone, Copy, Debug, PartialEq, Eq)]
pub enum Phase {
    Idle { last: Last },
    Reading { tab: u8 },
    Transferring,
    Programming { tab: u8, length: Octets },
    Authenticating,
}

// A tool. ads and adp are those of the request that runs; key and na1 are those of a programming request, and the first octets of sent its DATA.
// What the phase does not use of them is free.
#[derive(Clone, Copy)]
pub struct Tool {
    pub phase: Phase,
    pub ads: [u8; ADDRESS_WIDTH],
    pub adp: u8,
    pub key: [u8; NUMBER_WIDTH],
    pub na1: [u8; NUMBER_WIDTH],
    pub sent: [u8; MOST_TRANSFERRED],
    pub waking: WakeUps,
    pub receiver: Receiver,
}

// Why a call is refused, a frame is dropped, or a request has ended without success.
#[derive(Clone, Copy, Debug, PartialEq, Eq)]
pub enum Refusal {
    BadFrame(Fault),
    WrongAddress,
    TooLong,
    BrokenRule,
    WrongCipher,
    WrongEcho,
    SessionEnded,
    Busy,
    WrongLength,
    Unexpected,
    Rejected,
    WeakKey,
}

// What the host is told without a number: nothing; a frame is to be sent, and a reply is awaited; or the request has ended well.
// One enum: an option of the other two inside the result would say no more.
#[derive(Clone, Copy, Debug, PartialEq, Eq)]
pub enum Progress {
    Nothing,
    Sent,
    Done,
}

// The next tool beside the answer.
#[derive(Clone, Copy)]
pub struct Answered {
    pub tool: Tool,
    pub answer: Result<Progress, Refusal>,
}

// The same for a request: which wake-up goes before its frame, and how many octets of the lent buffer are its frame, none where it is refused.
#[derive(Clone, Copy)]
pub struct Requested {
    pub tool: Tool,
    pub answer: Result<Progress, Refusal>,
    pub wake: Wake,
    pub frame: Octets,
}

// The DATA of a reading, with zeros after them.
// An array of one length: there is no heap.
#[derive(Clone, Copy)]
pub struct Contents {
    pub octets: [u8; MOST_TRANSFERRED],
    pub length: Octets,
}

// The same for an octet: the frame is AUT, and the contents are those of a reading that has ended well. There are none otherwise.
#[derive(Clone, Copy)]
pub struct Heard {
    pub tool: Tool,
    pub answer: Result<Progress, Refusal>,
    pub wake: Wake,
    pub frame: Octets,
    pub contents: Contents,
}

impl Refusal {
    // No From: `number` says which octet of an answer it is.
    pub fn number(self) -> u8
        ensures { result ≡ refusal_number self }
    {
        match self {
            Refusal::BadFrame(fault) => fault.number(),
            Refusal::WrongAddress => WRONG_ADDRESS,
            Refusal::TooLong => TOO_LONG,
            Refusal::BrokenRule => BROKEN_RULE,
            Refusal::WrongCipher => WRONG_CIPHER,
            Refusal::WrongEcho => WRONG_ECHO,
            Refusal::SessionEnded => SESSION_ENDED,
            Refusal::Busy => BUSY,
            Refusal::WrongLength => WRONG_LENGTH,
            Refusal::Unexpected => UNEXPECTED_FRAME,
            Refusal::Rejected => REJECTED,
            Refusal::WeakKey => WEAK_KEY,
        }
    }
}

impl From<Fault> for Refusal {
    ghost from_gives = { λ fault refusal. refusal ≡ BadFrame fault };

    fn from(fault: Fault) -> Refusal {
        Refusal::BadFrame(fault)
    }
}

// 01's number of an answer, or none.
pub fn answer_number(answer: Result<Progress, Refusal>) -> u8
    ensures { result ≡ number_of (answer_of answer) }
{
    match answer {
        Ok(_) => NONE,
        Err(refusal) => refusal.number(),
    }
}

impl Tool {
    // A fresh tool: no request runs, the receiver is empty, and there was no request yet.
    pub fn new() -> Tool
        ensures { result ≡ fresh }
    {
        Tool {
            phase: Phase::Idle { last: Last::Other },
            ads: [0; ADDRESS_WIDTH],
            adp: 0,
            key: [0; NUMBER_WIDTH],
            na1: [0; NUMBER_WIDTH],
            sent: [0; MOST_TRANSFERRED],
            waking: WakeUps::new(),
            receiver: Receiver::new(),
        }
    }
}
