#![tactic(auto)]
// The fitter's day, played by our tool and our cards on one wire: docs/PROGRAMS.md tells it.
mod curve;
mod exchange;
mod filled;
mod gather;
mod hours;
mod primary;
mod stations;
mod wire;

use card::Card;
use exchange::Bus;
use gather::{File, Gathered};
use hours::{Readings, read_all};
use primary::Primary;
use std::io;
use tool::Tool;

fn main(rt: HostRuntime) -> io::Result<()> {
    let morning = seven(&rt)?;
    let old = curve::log(&rt, morning.gathered)?.written(&rt)?;
    let fitted = ten(&rt, morning.bus, &old)?;
    let noon = twelve(&rt, fitted.cards)?;
    night(&rt, &old, &noon.gathered.written(&rt)?)
}

// A fresh tool with an ADP is plugged in, and nothing is read yet.
fn plugged(cards: [Card; 3], adp: u8) -> Readings {
    Readings {
        bus: Bus {
            cards,
            primary: Primary::listening(Tool::new(), adp),
        },
        gathered: Gathered::new(),
    }
}

// The first reading of the holder's label, the third of all, is damaged on the wire.
fn seven(rt: &impl Print) -> io::Result<Readings> {
    println!(rt; "07:00 the fitter reads the old card")?;
    let polls = [
        (0x66, 0x01),
        (0x66, 0x02),
        (0x66, 0x0A),
        (0x66, 0x0A),
        (0x66, 0x0B),
    ];
    read_all(rt, plugged(stations::block(), 1), &polls, Some(2))
}

fn ten(rt: &impl Print, bus: Bus, file: &File) -> io::Result<Bus> {
    println!(rt; "\n10:00 the fitter programs the new card from the swap file")?;
    printing::print_file(rt, file.octets())?;
    hours::program_all(rt, swapped(bus), file.octets())
}

// The new card takes the place and the address of the old one.
fn swapped(mut bus: Bus) -> Bus {
    bus.cards[0] = stations::new_card();
    bus
}

// The van has a tool and an ADP of its own, and reads every record of the block.
fn twelve(rt: &impl Print, cards: [Card; 3]) -> io::Result<Readings> {
    println!(rt; "\n12:00 the van polls the block")?;
    let polls = [
        (0x66, 0x01),
        (0x66, 0x02),
        (0x66, 0x0A),
        (0x66, 0x0B),
        (0x77, 0x01),
        (0x77, 0x0A),
        (0x88, 0x01),
        (0x88, 0x02),
        (0x88, 0x03),
        (0x88, 0x04),
        (0x88, 0x05),
        (0x88, 0x06),
    ];
    read_all(rt, plugged(cards, 2), &polls, None)
}

fn night(rt: &impl Print, old: &File, new: &File) -> io::Result<()> {
    println!(rt; "\n21:00 the office opens the records")?;
    printing::print_file(rt, new.octets())?;
    hours::compare_files(rt, old.octets(), new.octets())
}
