// The wire: what one station sends, all others hear, octet by octet.
use crate::filled::Filled;
use card::Card;
use printing::{print_card, print_frame, print_number, print_octets};
use std::io;

// The number that the host of a card lends with each octet. It is fixed, so that every day prints the same; a real host lends a fresh one that nobody can guess.
const NA2: [u8; 8] = [0xFE, 0xDC, 0xBA, 0x98, 0x76, 0x54, 0x32, 0x10];

// The place of the tool; the cards have the places 0, 1 and 2.
pub(crate) const TOOL: usize = 3;

// A frame on its way, from the station at a place.
#[derive(Clone, Copy)]
pub(crate) struct Sent {
    pub(crate) frame: Filled<128>,
    pub(crate) place: usize,
}

// The cards after octets, and the reply of one of them.
#[derive(Clone, Copy)]
pub(crate) struct Cards {
    pub(crate) each: [Card; 3],
    pub(crate) reply: Option<Sent>,
}

// A card after an octet, and its reply, none of no octets.
#[derive(Clone, Copy)]
struct Heard {
    card: Card,
    reply: Filled<128>,
}

impl Sent {
    // The frame of a buffer that a station at a place has filled; none where it has put nothing there.
    pub(crate) fn from(place: usize, frame: Filled<128>) -> Option<Sent> {
        (frame.length != 0).then_some(Sent { frame, place })
    }

    pub(crate) fn print(&self, rt: &impl Print, speaker: &[u8]) -> io::Result<()> {
        print_frame(rt, speaker, self.frame.octets())
    }

    // The frame as it arrives where the octet at an offset is damaged, which turns each of its bits.
    pub(crate) fn damaged(self, rt: &impl Print, damage: Option<usize>) -> io::Result<Sent> {
        let Some(at) = damage else {
            return Ok(self);
        };
        let old = octets::octet(&self.frame.array, at);
        let turned = !old;
        print_number(rt, b"wire  octet ", at)?;
        print_octets(rt, b" turns from ", &[old])?;
        print_octets(rt, b" to ", &[turned])?;
        println!(rt;)?;
        let mut arrived = self;
        octets::put(&mut arrived.frame.array, at, &[turned]);
        Ok(arrived)
    }
}

// Every card but the one that sends hears a frame: an octet after the other, and each by one card after the other.
pub(crate) fn cards_hear(rt: &impl Print, cards: [Card; 3], sent: &Sent) -> io::Result<Cards> {
    let mut each = cards;
    let mut reply = None;
    for &octet in sent.frame.octets() {
        for place in 0..3 {
            if place != sent.place {
                let heard = hears(rt, each[place], octet)?;
                each[place] = heard.card;
                reply = Sent::from(place, heard.reply).or(reply);
            }
        }
    }
    Ok(Cards { each, reply })
}

// A card hears an octet, and its host says which number it got.
fn hears(rt: &impl Print, card: Card, octet: u8) -> io::Result<Heard> {
    let mut array = [0u8; 128];
    let stepped = card.octet(octet, &NA2, &mut array);
    print_card(
        rt,
        card.identity.address,
        card::answer_number(stepped.answer),
    )?;
    Ok(Heard {
        card: stepped.card,
        reply: Filled {
            array,
            length: stepped.reply.0,
        },
    })
}

// Nothing more comes: the host of each card reports a session end.
pub(crate) fn cards_leave(cards: [Card; 3]) -> [Card; 3] {
    cards.map(|card| card.session_end().card)
}
