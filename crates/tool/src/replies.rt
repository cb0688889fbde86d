// What a whole good frame does to the request that runs (01, The tool).
ghost use Rattle.std.specs.Prelude.{◌≡◌, ◌≤◌, length};
ghost use Rattle.frame.specs.Sizes.{most_transferred};
ghost use Rattle.numbers.specs.Answer.{given};
ghost use Rattle.tool.specs.Answers.{done};
ghost use Rattle.tool.specs.Parts.{ended_well, unsent, answer_of_heard, Gives};
ghost use Rattle.tool.specs.Replies.{reply_of, turn_of, on_reading, on_transferring, on_authenticating, enciphers, echoes, on_echo, turn, authentication, authenticating, performed, expected, on_frame};

use crate::frames::{fields_to, send};
use crate::parts::padded_contents;
use crate::{Contents, Heard, Phase, Progress, Refusal, Tool};
use frame::sizes::{LONGEST_FRAME, MOST_TRANSFERRED, NUMBER_WIDTH};
use frame::{Command, Fields};
use numbers::Octets;

// A good frame, as the requests tell replies apart.
#[derive(Clone, Copy)]
pub(crate) enum Reply {
    Dat,
    Ech,
    Eos,
    Drj,
    Arj,
    Tra,
    Other,
}

// What a reply does where it doesn't end the request with a number: it is dropped; it ends a reading with its DATA; it ends the request; or AUT follows.
#[derive(Clone, Copy)]
pub(crate) enum Turn {
    Drop,
    Read,
    End,
    Authenticate,
}

fn reply_of(command: Command) -> Reply
    ensures { result ≡ reply_of command }
{
    match command {
        Command::Dat => Reply::Dat,
        Command::Ech => Reply::Ech,
        Command::Eos => Reply::Eos,
        Command::Drj => Reply::Drj,
        Command::Arj => Reply::Arj,
        Command::Tra => Reply::Tra,
        _ => Reply::Other,
    }
}

// A reply to ENQ, with the TAB asked for or another.
fn on_reading(reply: Reply, asked: bool) -> Result<Turn, Refusal>
    ensures { turn_of result ≡ on_reading reply asked }
{
    match reply {
        Reply::Dat if asked => Ok(Turn::Read),
        Reply::Dat => Err(Refusal::WrongEcho),
        Reply::Drj => Err(Refusal::Rejected),
        _ => Err(Refusal::Unexpected),
    }
}

// A reply to TRF.
fn on_transferring(reply: Reply) -> Result<Turn, Refusal>
    ensures { turn_of result ≡ on_transferring reply }
{
    match reply {
        Reply::Tra => Ok(Turn::End),
        Reply::Drj => Err(Refusal::Rejected),
        _ => Err(Refusal::Unexpected),
    }
}

// A reply to AUT.
fn on_authenticating(reply: Reply) -> Result<Turn, Refusal>
    ensures { turn_of result ≡ on_authenticating reply }
{
    match reply {
        Reply::Eos => Ok(Turn::End),
        Reply::Drj => Err(Refusal::Rejected),
        Reply::Arj => Err(Refusal::WrongCipher),
        _ => Err(Refusal::Unexpected),
    }
}

impl Tool {
    // Whether ECH's ZA1 is NA1 enciphered.
    #[tactic(auto, unfolding(crate::specs::Replies::enciphers))]
    fn enciphers(self, za1: [u8; NUMBER_WIDTH]) -> bool
        ensures { result ≡ enciphers self za1 }
    {
        let na1k = des::encipher(self.key, self.na1);
        za1 == na1k
    }

    // Whether ECH's TAB and DATA are those sent.
    #[tactic(auto, unfolding(crate::specs::Replies::echoes))]
    fn echoes(self, tab: u8, count: Octets, fields: Fields, data: &[u8]) -> bool
        ensures { result ≡ echoes self tab count.0 fields «data».now }
    {
        fields.tab == tab && data == &self.sent[..count.0.min(MOST_TRANSFERRED)]
    }

    // ECH: its ZA1 (13), then its TAB and DATA (14), only then AUT.
    #[tactic(auto, unfolding(crate::specs::Replies::on_echo))]
    fn on_echo(self, tab: u8, count: Octets, fields: Fields, data: &[u8]) -> Result<Turn, Refusal>
        ensures { turn_of result ≡ on_echo self tab count.0 fields «data».now }
    {
        if !self.enciphers(fields.za1) {
            return Err(Refusal::WrongCipher);
        }
        if !self.echoes(tab, count, fields, data) {
            return Err(Refusal::WrongEcho);
        }
        Ok(Turn::Authenticate)
    }

    // What a frame from the station of the request, for its ADP, does.
    #[tactic(auto, unfolding(crate::specs::Replies::turn))]
    fn turn_on(self, reply: Reply, fields: Fields, data: &[u8]) -> Result<Turn, Refusal>
        ensures { turn_of result ≡ turn self.phase self reply fields «data».now }
    {
        // A match, since its arms take different arguments.
        match self.phase {
            Phase::Idle { .. } => Ok(Turn::Drop),
            Phase::Reading { tab } => on_reading(reply, fields.tab == tab),
            Phase::Transferring => on_transferring(reply),
            Phase::Programming { tab, length } => {
                let Reply::Ech = reply else {
                    return Err(Refusal::Unexpected);
                };
                self.on_echo(tab, length, fields, data)
            }
            Phase::Authenticating => on_authenticating(reply),
        }
    }

    // The request has ended without a number, with these contents.
    fn finished(self, contents: Contents) -> Heard
        ensures { answer_of_heard result ≡ unsent (ended_well self) (given done) contents }
    {
        self.ended_well().telling(Ok(Progress::Done), contents)
    }

    // AUT's fields, with NA2 enciphered.
    fn authentication(self, za2: [u8; NUMBER_WIDTH]) -> Fields
        ensures { result ≡ authentication self za2 }
    {
        let na2k = des::encipher(self.key, za2);
        fields_to(self.ads, self.adp, 0, [0; NUMBER_WIDTH], na2k)
    }

    // AUT is sent.
    #[tactic(auto, unfolding(frame::specs::Layout::within, frame::specs::Layout::layout_of, octets::specs::Between::between))]
    fn authenticating(self, za2: [u8; NUMBER_WIDTH], frame: &mut [u8; LONGEST_FRAME]) -> Heard
        ensures { Gives (authenticating za2 self) frame.old frame.new (answer_of_heard result) }
    {
        let tool = Tool {
            phase: Phase::Authenticating,
            ..self
        };
        Heard {
            frame: send(frame, Command::Aut, self.authentication(za2), &[]),
            ..tool.hearing(Ok(Progress::Sent))
        }
    }

    // What a turn of the request comes to.
    fn perform(
        self,
        turn: Result<Turn, Refusal>,
        fields: Fields,
        data: &[u8],
        frame: &mut [u8; LONGEST_FRAME],
    ) -> Heard
        requires { length «data».now ≤ most_transferred }
        ensures { Gives (performed (turn_of turn) fields «data».now self) frame.old frame.new (answer_of_heard result) }
    {
        match turn {
            Ok(Turn::Drop) => self.hearing(Ok(Progress::Nothing)),
            Ok(Turn::Read) => self.finished(padded_contents(data)),
            Ok(Turn::End) => self.finished(padded_contents(&[])),
            Ok(Turn::Authenticate) => self.authenticating(fields.za2, frame),
            Err(refusal) => self.over(refusal),
        }
    }

    // Whether a frame is from the station of the request, for its ADP.
    #[tactic(auto, unfolding(crate::specs::Replies::expected))]
    fn expected(self, fields: Fields) -> bool
        ensures { result ≡ expected self fields }
    {
        fields.ads == self.ads && fields.adp == self.adp
    }

    // A whole good frame.
    #[tactic(auto, unfolding(crate::specs::Replies::on_frame))]
    pub(crate) fn on_frame(
        self,
        command: Command,
        fields: Fields,
        data: &[u8],
        frame: &mut [u8; LONGEST_FRAME],
    ) -> Heard
        requires { length «data».now ≤ most_transferred }
        ensures { Gives (on_frame self command fields «data».now) frame.old frame.new (answer_of_heard result) }
    {
        if !self.expected(fields) {
            return self.hearing(Ok(Progress::Nothing));
        }
        let turn = self.turn_on(reply_of(command), fields, data);
        self.perform(turn, fields, data, frame)
    }
}
