// The calls after the setup, as `history` reads them.
use crate::lines;
use card::{Answered, Card, answer_number};
use history::calls::{Call, LONGEST_LENT, split_call};
use std::io;

// All calls, and the card after them.
// No iterator: the calls are taken off the front, and an own iterator would be longer than this loop.
pub(crate) fn play(rt: &impl Print, mut card: Card, mut calls: &[u8]) -> io::Result<Card> {
    let mut index = 1u64;
    while !calls.is_empty() {
        let (call, rest) = split_call(calls);
        card = called(rt, card, index, call)?;
        index = index.wrapping_add(1);
        calls = rest;
    }
    Ok(card)
}

fn called(rt: &impl Print, card: Card, index: u64, call: Call) -> io::Result<Card> {
    match call {
        Call::Octet { octet, na2, reply } => hears(rt, card, index, octet, na2, reply),
        Call::MeterWrite { tab, data } => answered(rt, index, card.meter_write(tab, data)),
        Call::SessionEnd => answered(rt, index, card.session_end()),
        Call::Gap => answered(rt, index, card.gap()),
    }
}

// The octets A5 that the buffer is lent with show which of them are written to.
fn hears(
    rt: &impl Print,
    card: Card,
    index: u64,
    octet: u8,
    na2: &[u8],
    reply: u8,
) -> io::Result<Card> {
    let mut buffer = [0xA5; LONGEST_LENT];
    let lent = &mut buffer[..usize::from(reply)];
    let stepped = card.octet(octet, na2, lent);
    lines::print_octet(
        rt,
        index,
        answer_number(stepped.answer),
        &buffer,
        stepped.reply.0,
    )?;
    Ok(stepped.card)
}

fn answered(rt: &impl Print, index: u64, done: Answered) -> io::Result<Card> {
    lines::print_call(rt, index, answer_number(done.answer))?;
    Ok(done.card)
}
