// Requests: read, transfer, program, broadcast and initialise (01, The tool).
ghost use Rattle.std.specs.Prelude.{◌≡◌, ◌≤◌, length, false, IfOk, IfErr};
ghost use Rattle.numbers.specs.Answer.{given};
ghost use Rattle.numbers.specs.Counts.{in_octets};
ghost use Rattle.wake.specs.Rule.{wake_before};
ghost use Rattle.frame.specs.Sizes.{longest_frame};
ghost use Rattle.tool.specs.declared.Refusal.TheVariants.{WrongLength};
ghost use Rattle.tool.specs.Answers.{answer_of, refusal_number};
ghost use Rattle.tool.specs.Parts.{last_of, refusing, answer_of_requested, Gives};
ghost use Rattle.tool.specs.Requests.{zero_number, asking_of, asking_lent, reading, transferring, programming, broadcasting, initialising, sent_command, broadcasts, addressable, weakly_keyed, limit_of, lent_rightly, admission, number_of_admission, Sized, Accepted, fields_to, running, progress_of, asked, sending, after_asking};

use crate::frames::{fields_to, send};
use crate::{Phase, Progress, Refusal, Requested, Tool};
use des::keys::weak;
use frame::sizes::{ADDRESS_WIDTH, LONGEST_FRAME, MOST_PROGRAMMED, MOST_TRANSFERRED, NUMBER_WIDTH};
use frame::{Command, Fields};
use numbers::Octets;
use wake::{Last, Request, Wake};

// The key and NA1 of a request that has none.
const NO_NUMBER: [u8; NUMBER_WIDTH] = [0; NUMBER_WIDTH];

// A request with its arguments, as they are lent.
#[derive(Clone, Copy)]
pub(crate) struct Lent<'a> {
    pub(crate) request: Request,
    pub(crate) ads: &'a [u8],
    pub(crate) adp: u8,
    pub(crate) tab: u8,
    pub(crate) data: &'a [u8],
    pub(crate) key: &'a [u8],
    pub(crate) na1: &'a [u8],
}

// The same where address, key and NA1 are as long as they must be.
#[derive(Clone, Copy)]
pub(crate) struct Arguments<'a> {
    pub(crate) request: Request,
    pub(crate) ads: [u8; ADDRESS_WIDTH],
    pub(crate) adp: u8,
    pub(crate) tab: u8,
    pub(crate) data: &'a [u8],
    pub(crate) key: [u8; NUMBER_WIDTH],
    pub(crate) na1: [u8; NUMBER_WIDTH],
}

impl<'a> Lent<'a> {
    // 17: address, key and NA1 are as long as they must be.
    fn sized(&self) -> Result<Arguments<'a>, Refusal>
        ensures ok { IfOk result (Sized (asking_lent self.now)) }
        ensures err { IfErr result (λ refusal. (lent_rightly self.now.ads.now self.now.key.now self.now.na1.now longest_frame ≡ false) × (refusal ≡ WrongLength)) }
    {
        let Ok(ads) = <[u8; ADDRESS_WIDTH]>::try_from(self.ads) else {
            return Err(Refusal::WrongLength);
        };
        let Ok(key) = <[u8; NUMBER_WIDTH]>::try_from(self.key) else {
            return Err(Refusal::WrongLength);
        };
        let Ok(na1) = <[u8; NUMBER_WIDTH]>::try_from(self.na1) else {
            return Err(Refusal::WrongLength);
        };
        Ok(Arguments {
            request: self.request,
            ads,
            adp: self.adp,
            tab: self.tab,
            data: self.data,
            key,
            na1,
        })
    }
}

impl Arguments<'_> {
    // The fields of the request's frame.
    fn fields(&self) -> Fields
        ensures { result ≡ fields_to self.now.ads self.now.adp self.now.tab self.now.na1 zero_number }
    {
        fields_to(self.ads, self.adp, self.tab, self.na1, NO_NUMBER)
    }

    // Whether the address is of the sort that the request goes to.
    #[tactic(auto, unfolding(frame::specs::Addresses::broadcast))]
    fn addressable(&self) -> bool
        ensures { result ≡ addressable self.now.request self.now.ads }
    {
        broadcasts(self.request) == (self.ads == [0; ADDRESS_WIDTH])
    }

    // Whether the request is one for programming, with a weak key.
    fn weakly_keyed(&self) -> bool
        ensures { result ≡ weakly_keyed self.now.request self.now.key }
    {
        matches!(self.request, Request::Rec) && weak(self.key)
    }
}

fn sent_command(request: Request) -> Command
    ensures { result ≡ sent_command request }
{
    match request {
        Request::Enq => Command::Enq,
        Request::Trf => Command::Trf,
        Request::Rec => Command::Rec,
        Request::Trb => Command::Trb,
        Request::Ib => Command::Ib,
    }
}

// What is told of a request that was sent.
fn progress_of(request: Request) -> Result<Progress, Refusal>
    ensures { answer_of result ≡ given (progress_of request) }
{
    if broadcasts(request) {
        Ok(Progress::Done)
    } else {
        Ok(Progress::Sent)
    }
}

// Whether a request goes to every station.
fn broadcasts(request: Request) -> bool
    ensures { result ≡ broadcasts request }
{
    matches!(request, Request::Trb | Request::Ib)
}

// The most DATA that a request can have.
fn limit_of(request: Request) -> Octets
    ensures { result ≡ in_octets (limit_of request) }
{
    match request {
        Request::Enq | Request::Ib => Octets(0),
        Request::Trf | Request::Trb => Octets(MOST_TRANSFERRED),
        Request::Rec => Octets(MOST_PROGRAMMED),
    }
}

impl Tool {
    // The tests of a request of which all is lent rightly: 12, 16, 6, 21, 7.
    #[tactic(auto, unfolding(crate::specs::Requests::admission))]
    fn admission(self, arguments: &Arguments) -> Result<(), Refusal>
        ensures { number_of_admission result ≡ admission self (asking_of arguments.now) }
    {
        if !self.sound() {
            return Err(Refusal::BrokenRule);
        }
        if !self.phase.idle() {
            return Err(Refusal::Busy);
        }
        if !arguments.addressable() {
            return Err(Refusal::WrongAddress);
        }
        if arguments.weakly_keyed() {
            return Err(Refusal::WeakKey);
        }
        if limit_of(arguments.request).0 < arguments.data.len() {
            return Err(Refusal::TooLong);
        }
        Ok(())
    }

    // The arguments of a request that is not refused: 17, 12, 16, 6, 21, 7.
    #[tactic(auto, unfolding(crate::specs::Requests::after_asking, crate::specs::Requests::unless_refused))]
    fn accepted<'a>(self, lent: &Lent<'a>) -> Result<Arguments<'a>, Refusal>
        ensures ok { IfOk result (Accepted self (asking_lent lent.now)) }
        ensures err { IfErr result (λ refusal. after_asking self (asking_lent lent.now) longest_frame ≡ refusing self (refusal_number refusal)) }
    {
        let arguments = lent.sized()?;
        self.admission(&arguments)?;
        Ok(arguments)
    }

    // The tool whose request was sent.
    // The bound on DATA is no field of `Arguments`: it holds once `admission` has let them pass.
    fn running(self, arguments: &Arguments) -> Tool
        requires { length arguments.now.«data».now ≤ limit_of arguments.now.request }
        ensures { result ≡ running arguments.now.request (asking_of arguments.now) self }
    {
        let waiting = Tool {
            ads: arguments.ads,
            adp: arguments.adp,
            ..self
        };
        match arguments.request {
            Request::Enq => Tool {
                phase: Phase::Reading { tab: arguments.tab },
                ..waiting
            },
            Request::Trf => Tool {
                phase: Phase::Transferring,
                ..waiting
            },
            Request::Rec => {
                let mut sent = self.sent;
                octets::put(&mut sent, 0, arguments.data);
                Tool {
                    phase: Phase::Programming {
                        tab: arguments.tab,
                        length: Octets(arguments.data.len()),
                    },
                    key: arguments.key,
                    na1: arguments.na1,
                    sent,
                    ..waiting
                }
            }
            Request::Trb | Request::Ib => Tool {
                phase: Phase::Idle { last: Last::Other },
                ..self
            },
        }
    }

    // The same with the wake-up memory.
    fn asked(self, arguments: &Arguments) -> Tool
        requires { length arguments.now.«data».now ≤ limit_of arguments.now.request }
        ensures { result ≡ asked (asking_of arguments.now) self }
    {
        Tool {
            waking: self
                .waking
                .asked(self.phase.last(), arguments.request, arguments.ads),
            ..self.running(arguments)
        }
    }

    // The wake-up before a request.
    fn wake_before(self, arguments: &Arguments) -> Wake
        ensures { result ≡ wake_before (last_of self.phase) self.waking arguments.now.request arguments.now.ads }
    {
        self.waking
            .before(self.phase.last(), arguments.request, arguments.ads)
    }

    // The request's frame, and the wake-up before it.
    fn sending(self, arguments: &Arguments, frame: &mut [u8; LONGEST_FRAME]) -> Requested
        requires { length arguments.now.«data».now ≤ limit_of arguments.now.request }
        ensures gives { Gives (sending (asking_of arguments.now) self) frame.old frame.new (answer_of_requested result) }
        ensures long { length frame.new ≡ length frame.old }
    {
        let command = sent_command(arguments.request);
        Requested {
            tool: self.asked(arguments),
            answer: progress_of(arguments.request),
            wake: self.wake_before(arguments),
            frame: send(frame, command, arguments.fields(), arguments.data),
        }
    }

    // A request: it is refused, or else it is sent.
    fn ask(self, lent: &Lent, frame: &mut [u8]) -> Requested
        ensures { Gives (after_asking self (asking_lent lent.now) (length frame.old)) frame.old frame.new (answer_of_requested result) }
    {
        let Some(front) = frame.first_chunk_mut() else {
            return self.refusing(Refusal::WrongLength);
        };
        match self.accepted(lent) {
            Ok(arguments) => self.sending(&arguments, front),
            Err(refusal) => self.refusing(refusal),
        }
    }

    pub fn read(self, ads: &[u8], adp: u8, tab: u8, frame: &mut [u8]) -> Requested
        ensures { Gives (after_asking self (reading ads.now adp tab) (length frame.old)) frame.old frame.new (answer_of_requested result) }
    {
        let lent = Lent {
            request: Request::Enq,
            ads,
            adp,
            tab,
            data: &[],
            key: &NO_NUMBER,
            na1: &NO_NUMBER,
        };
        self.ask(&lent, frame)
    }

    // Two public names with `broadcast`, since docs/STATEMENTS.md has both; each is a few lines over `ask`.
    pub fn transfer(self, ads: &[u8], adp: u8, tab: u8, data: &[u8], frame: &mut [u8]) -> Requested
        ensures { Gives (after_asking self (transferring ads.now adp tab «data».now) (length frame.old)) frame.old frame.new (answer_of_requested result) }
    {
        let lent = Lent {
            request: Request::Trf,
            ads,
            adp,
            tab,
            data,
            key: &NO_NUMBER,
            na1: &NO_NUMBER,
        };
        self.ask(&lent, frame)
    }

    pub fn program(
        self,
        ads: &[u8],
        adp: u8,
        tab: u8,
        data: &[u8],
        key: &[u8],
        na1: &[u8],
        frame: &mut [u8],
    ) -> Requested
        ensures { Gives (after_asking self (programming ads.now adp tab «data».now key.now na1.now) (length frame.old)) frame.old frame.new (answer_of_requested result) }
    {
        let lent = Lent {
            request: Request::Rec,
            ads,
            adp,
            tab,
            data,
            key,
            na1,
        };
        self.ask(&lent, frame)
    }

    pub fn broadcast(self, ads: &[u8], adp: u8, tab: u8, data: &[u8], frame: &mut [u8]) -> Requested
        ensures { Gives (after_asking self (broadcasting ads.now adp tab «data».now) (length frame.old)) frame.old frame.new (answer_of_requested result) }
    {
        let lent = Lent {
            request: Request::Trb,
            ads,
            adp,
            tab,
            data,
            key: &NO_NUMBER,
            na1: &NO_NUMBER,
        };
        self.ask(&lent, frame)
    }

    pub fn initialise(self, ads: &[u8], adp: u8, frame: &mut [u8]) -> Requested
        ensures { Gives (after_asking self (initialising ads.now adp) (length frame.old)) frame.old frame.new (answer_of_requested result) }
    {
        let lent = Lent {
            request: Request::Ib,
            ads,
            adp,
            tab: 0,
            data: &[],
            key: &NO_NUMBER,
            na1: &NO_NUMBER,
        };
        self.ask(&lent, frame)
    }
}
