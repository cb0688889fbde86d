// The load curve that the flat's logger keeps: the meter's index in Wh at every half hour of the last day.
use crate::gather::Gathered;
use crate::stations::FLAT;
use printing::{print_octets, print_record};
use std::io;
use swap::Kind;

const TAB: u8 = 0x03;

const HALF_HOURS: usize = 48;

// The index at the first half hour, and how much it rises in each; at the last it is the one that the card holds.
const FIRST_INDEX: u32 = 88250;

const RISE: u32 = 250;

// The curve goes into the file as a long record, for no record of a card has room for it.
pub(crate) fn log(rt: &impl Print, gathered: Gathered) -> io::Result<Gathered> {
    let indexes = indexes();
    let curve = indexes.as_flattened();
    print_octets(rt, b"curve TAB ", &[TAB])?;
    print_record(rt, b" ", Kind::Long, curve, b"\n")?;
    Ok(gathered.with(FLAT, TAB, Kind::Long, curve))
}

// Three octets for every half hour.
fn indexes() -> [[u8; 3]; HALF_HOURS] {
    let mut octets = [[0u8; 3]; HALF_HOURS];
    for i in 0..HALF_HOURS {
        let [_, high, middle, low] = (FIRST_INDEX + RISE * i as u32).to_be_bytes();
        octets[i] = [high, middle, low];
    }
    octets
}
