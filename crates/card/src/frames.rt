// What a card does with a whole good frame (01, The card).
ghost use Rattle.std.specs.Prelude.{◌≡◌, true, length};
ghost use Rattle.frame.specs.declared.codes.Command.TheVariants.{Rec};
ghost use Rattle.frame.specs.Layout.{layout_of, within};
ghost use Rattle.card.specs.Loan.{lending};
ghost use Rattle.card.specs.Parts.{Tells, Gives};
ghost use Rattle.card.specs.Frames.{written, acknowledged, opened, authentic, on_enq, on_rec, on_aut, on_trf, on_trb, on_frame};

use crate::replies::{acknowledgement, echo, send, send_bare};
use crate::taking::{Taken, taken_for};
use crate::{Answered, Card, Exchange, Phase, Refusal, Stepped};
use frame::sizes::{LONGEST_FRAME, MOST_PROGRAMMED, NUMBER_WIDTH};
use frame::{Command, Fields};
use numbers::Octets;
use records::Cause;

// Whether an AUT comes from the primary that sent the REC and carries NA2 enciphered under the key.
#[tactic(auto, unfolding(crate::specs::Frames::authentic))]
fn authentic(key: [u8; NUMBER_WIDTH], na2: [u8; NUMBER_WIDTH], adp: u8, fields: Fields) -> bool
    ensures { result ≡ authentic key na2 adp fields }
{
    adp == fields.adp && fields.za2 == des::encipher(key, na2)
}

impl Exchange {
    // The exchange that a REC opens, with the number that is lent with it.
    fn opened(self, na2: [u8; NUMBER_WIDTH], fields: Fields, data: &[u8]) -> Exchange
        requires { within (layout_of Rec) (length «data».now) ≡ true }
        ensures { result ≡ opened na2 fields «data».now self }
    {
        let mut content = self.content;
        octets::put(&mut content, 0, data);
        Exchange {
            phase: Phase::Waiting {
                adp: fields.adp,
                tab: fields.tab,
                length: Octets(data.len()),
            },
            content,
            na2,
        }
    }
}

impl Card {
    // A write, granted or refused.
    pub(crate) fn written(self, cause: Cause, tab: u8, data: &[u8]) -> Answered
        ensures { Tells (written self cause tab «data».now) result }
    {
        let done = self.records.write(cause, tab, data);
        let card = Card {
            records: done.records,
            ..self
        };
        card.answered(done.answer.map_err(Refusal::Write))
    }

    // A write with its reply: the acknowledgement, or DRJ.
    fn acknowledged(
        self,
        cause: Cause,
        tab: u8,
        data: &[u8],
        granted: Command,
        fields: Fields,
        reply: &mut [u8; LONGEST_FRAME],
    ) -> Stepped
        requires { within (layout_of granted) 0 ≡ true }
        ensures { Gives (acknowledged self cause tab «data».now granted fields) reply.old reply.new result }
    {
        let done = self.written(cause, tab, data);
        let sent = send_bare(reply, acknowledgement(done.answer, granted), fields);
        Stepped {
            card: done.card,
            answer: done.answer,
            reply: sent,
        }
    }

    // ENQ: the reply is DAT with the record, or DRJ where it is missing (10) or not readable (11).
    fn on_enq(self, fields: Fields, reply: &mut [u8; LONGEST_FRAME]) -> Stepped
        ensures { Gives (on_enq self fields) reply.old reply.new result }
    {
        let card = self.idle();
        match self.records.find_readable(fields.tab) {
            Ok(i) => Stepped {
                card,
                answer: Ok(()),
                reply: send(reply, Command::Dat, fields, self.records.each[i].contents()),
            },
            Err(refusal) => Stepped {
                card,
                answer: Err(refusal.into()),
                reply: send_bare(reply, Command::Drj, fields),
            },
        }
    }

    // REC: the reply is ECH, and the exchange now waits. Its data is not judged yet.
    #[tactic(auto, using(crate::proofs::Giving::sent_by), unfolding(crate::specs::Frames::on_rec, frame::specs::Layout::layout_of, frame::specs::Layout::within))]
    fn on_rec(
        self,
        na2: [u8; NUMBER_WIDTH],
        fields: Fields,
        data: &[u8],
        reply: &mut [u8; LONGEST_FRAME],
    ) -> Stepped
        requires { within (layout_of Rec) (length «data».now) ≡ true }
        ensures { Gives (on_rec self (lending na2 reply.old) fields «data».now) reply.old reply.new result }
    {
        let card = Card {
            exchange: self.exchange.opened(na2, fields, data),
            ..self
        };
        let echoed = echo(self.identity.key, na2, fields);
        Stepped {
            card,
            answer: Ok(()),
            reply: send(reply, Command::Ech, echoed, data),
        }
    }

    // AUT: without a waiting exchange nothing; else the wait is over, and the reply is ARJ (13), or DRJ, or EOS after the write.
    fn on_aut(self, fields: Fields, reply: &mut [u8; LONGEST_FRAME]) -> Stepped
        ensures { Gives (on_aut self fields) reply.old reply.new result }
    {
        let Phase::Waiting { adp, tab, length } = self.exchange.phase else {
            return self.unreplied(Ok(()));
        };
        let card = self.idle();
        if !authentic(self.identity.key, self.exchange.na2, adp, fields) {
            return Stepped {
                card,
                answer: Err(Refusal::WrongCipher),
                reply: send_bare(reply, Command::Arj, fields),
            };
        }
        let end = length.0.min(MOST_PROGRAMMED);
        card.acknowledged(
            Cause::Programmed(adp),
            tab,
            &self.exchange.content[..end],
            Command::Eos,
            fields,
            reply,
        )
    }

    // TRF: the wait is over; the data is written and the reply is TRA, or DRJ.
    #[tactic(auto, unfolding(crate::specs::Frames::on_trf, frame::specs::Layout::layout_of, frame::specs::Layout::within, octets::specs::Between::between))]
    fn on_trf(self, fields: Fields, data: &[u8], reply: &mut [u8; LONGEST_FRAME]) -> Stepped
        ensures { Gives (on_trf self fields «data».now) reply.old reply.new result }
    {
        self.idle().acknowledged(
            Cause::Transferred(fields.adp),
            fields.tab,
            data,
            Command::Tra,
            fields,
            reply,
        )
    }

    // TRB: the wait is over; the data is written or dropped, without a reply.
    #[tactic(auto, unfolding(crate::specs::Frames::on_trb))]
    fn on_trb(self, fields: Fields, data: &[u8]) -> Answered
        ensures { Tells (on_trb self fields «data».now) result }
    {
        self.idle()
            .written(Cause::Broadcast(fields.adp), fields.tab, data)
    }

    // What the card does with a good frame, by what it takes it for.
    pub(crate) fn on_frame(
        self,
        na2: [u8; NUMBER_WIDTH],
        command: Command,
        fields: Fields,
        data: &[u8],
        reply: &mut [u8; LONGEST_FRAME],
    ) -> Stepped
        requires { within (layout_of command) (length «data».now) ≡ true }
        ensures { Gives (on_frame self (lending na2 reply.old) command fields «data».now) reply.old reply.new result }
    {
        let Some(taken) = taken_for(self.identity.address, command, fields.ads) else {
            return self.unreplied(Ok(()));
        };
        // A match, since its arms take different arguments; a table of closures would need them alike.
        match taken {
            Taken::Enq => self.on_enq(fields, reply),
            Taken::Rec => self.on_rec(na2, fields, data, reply),
            Taken::Aut => self.on_aut(fields, reply),
            Taken::Trf => self.on_trf(fields, data, reply),
            Taken::Trb => {
                let done = self.on_trb(fields, data);
                done.card.unreplied(done.answer)
            }
            Taken::Ib => self.idle().unreplied(Ok(())),
        }
    }
}
