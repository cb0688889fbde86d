#![tactic(auto)]
// Reads frames one after the other from standard input and lists them, a line for each. The end of the input is a gap.
mod line;

use line::{list_frame, list_refusal, list_skipped};
use receiver::{Event, Received, Receiver};
use std::io;
use std::io::Read;

// A receiver, the offset of the N that it last awaited or took, and that of the next octet.
#[derive(Clone, Copy)]
struct Listing {
    receiver: Receiver,
    begun: u64,
    next: u64,
}

// A proved loop has to end, and nothing says that the input does, so the reads are counted up to a number that no run uses up.
fn main(rt: HostRuntime) -> io::Result<()> {
    let mut listing = Listing {
        receiver: Receiver::new(),
        begun: 0,
        next: 0,
    };
    let mut buffer = [0u8; 4096];
    for _ in 0..u64::MAX {
        let count = rt.reader().read(&mut buffer)?;
        if count == 0 {
            break;
        }
        listing = list(&rt, listing, &buffer[..count])?;
    }
    finish(&rt, listing)
}

fn list(rt: &impl Print, mut listing: Listing, octets: &[u8]) -> io::Result<Listing> {
    for &octet in octets {
        listing = list_octet(rt, listing, octet)?;
    }
    Ok(listing)
}

fn list_octet(rt: &impl Print, listing: Listing, octet: u8) -> io::Result<Listing> {
    let received = listing.receiver.octet(octet);
    list_event(rt, received, listing.begun)?;
    let receiver = received.receiver;
    // The last offset that there is stays.
    let next = listing.next.saturating_add(1);
    let begun = if awaits(receiver) {
        next
    } else {
        listing.begun
    };
    Ok(Listing {
        receiver,
        begun,
        next,
    })
}

// Whether the next octet is an N.
fn awaits(receiver: Receiver) -> bool {
    !receiver.skipping && receiver.count.0 == 0
}

fn list_event(rt: &impl Print, received: Received, begun: u64) -> io::Result<()> {
    let frame = received.frame;
    match received.event {
        Event::Nothing => Ok(()),
        Event::Good(_) => list_frame(rt, octets::part(&frame, 0, usize::from(frame[0]))),
        event => list_refusal(rt, event.number(), begun),
    }
}

// The end of the input. Skipped octets are those after the N that was refused with 1.
fn finish(rt: &impl Print, listing: Listing) -> io::Result<()> {
    if listing.receiver.skipping {
        list_skipped(rt, between(listing.begun, listing.next))?;
    }
    list_event(rt, listing.receiver.gap(), listing.begun)
}

// How many octets there are after one offset and before another.
fn between(from: u64, to: u64) -> u64 {
    to.saturating_sub(from).saturating_sub(1)
}
