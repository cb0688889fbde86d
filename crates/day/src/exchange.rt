// A request from its first frame to its end, between the tool and the cards of the block.
use crate::primary::{Primary, Stage};
use crate::wire::{cards_hear, cards_leave};
use card::Card;
use std::io;
use tool::{Requested, Tool};

#[derive(Clone, Copy)]
pub(crate) struct Bus {
    pub(crate) cards: [Card; 3],
    pub(crate) primary: Primary,
}

impl Bus {
    // The tool makes a request.
    pub(crate) fn asking<F: FnOnce(Tool, u8, &mut [u8]) -> Requested>(
        self,
        rt: &impl Print,
        request: F,
    ) -> io::Result<Bus>
        requires { F.IsAlwaysCallable request }
    {
        Ok(Bus {
            primary: self.primary.asks(rt, request)?,
            ..self
        })
    }
}

// The frame that the tool sends, and the reply to it as it arrives, which the tool and the other cards hear. The octet of the reply at an offset may be damaged.
fn round(rt: &impl Print, bus: Bus, damage: Option<usize>) -> io::Result<Bus> {
    let Stage::Speaking(sent) = bus.primary.stage else {
        return Ok(bus);
    };
    sent.print(rt, b"tool  ")?;
    let heard = cards_hear(rt, bus.cards, &sent)?;
    let Some(reply) = heard.reply else {
        return Ok(Bus {
            cards: heard.each,
            primary: bus.primary.waiting(),
        });
    };
    reply.print(rt, b"card  ")?;
    let arrived = reply.damaged(rt, damage)?;
    let others = cards_hear(rt, heard.each, &arrived)?;
    Ok(Bus {
        cards: others.each,
        primary: bus.primary.hears(rt, &arrived)?,
    })
}

// One frame and its reply, then, for programming, AUT and its reply. Where a reply is still awaited, the hosts report a session end.
pub(crate) fn exchange(rt: &impl Print, bus: Bus, damage: Option<usize>) -> io::Result<Bus> {
    let first = round(rt, bus, damage)?;
    match first.primary.stage {
        Stage::Speaking(_) => round(rt, first, None),
        Stage::Waiting => Ok(Bus {
            cards: cards_leave(first.cards),
            primary: first.primary.leaves(rt)?,
        }),
        Stage::Done(_) | Stage::Refused => Ok(first),
    }
}
