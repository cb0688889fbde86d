#![tactic(auto)]
// Runs the DES vectors on standard input through the library, both ways. For each set it prints how many vectors it has and how many of them
// came out right each way; a vector that did not has a line of its own, and so has a line that is no vector. A line `boxes` asks for the S-boxes.
mod boxes;
mod hex;
mod lines;
mod tally;

use lines::{Line, Vector, line_of};
use numbers::Octets;
use std::io;
use tally::Tally;
use text::{put_hex, put_number, put_words};

// One octet more than the longest input, so that a longer one is seen to be too long.
const READ_LIMIT: usize = 65536;

// Enough for the line of a vector that does not come out right: under a hundred characters.
const DIFFERENCE_SIZE: usize = 128;

// What was found so far: up to which line, and the set at hand.
#[derive(Clone, Copy)]
struct Report<'a> {
    line: u64,
    name: &'a [u8],
    set: Tally,
    total: Tally,
}

// By `text`, whose clause says which digits an octet has.
fn print_difference(
    rt: &impl Print,
    line: u64,
    way: &[u8],
    found: [u8; 8],
    expected: [u8; 8],
) -> io::Result<()> {
    let mut words = [0u8; DIFFERENCE_SIZE];
    let found_at = put_number(&mut words, Octets(0), b"line ", line);
    let expected_at = put_hex(&mut words, found_at, way, &found);
    let next = put_hex(&mut words, expected_at, b" expected ", &expected);
    let end = put_words(&mut words, next, b"\n");
    rt.write_all(octets::part(&words, 0, end.0))
}

// Whether the octets found are those expected; a line says where they are not.
fn agrees(
    rt: &impl Print,
    line: u64,
    way: &[u8],
    found: [u8; 8],
    expected: [u8; 8],
) -> io::Result<bool> {
    if found != expected {
        print_difference(rt, line, way, found, expected)?;
        return Ok(false);
    }
    Ok(true)
}

// A vector both ways.
fn run_vector(rt: &impl Print, line: u64, vector: Vector<'_>) -> io::Result<Tally> {
    let Vector {
        key,
        plain,
        cipher,
        ..
    } = vector;
    let enciphered = agrees(rt, line, b" enciphered ", des::encipher(key, plain), cipher)?;
    let deciphered = agrees(rt, line, b" deciphered ", des::decipher(key, cipher), plain)?;
    Ok(Tally::one(enciphered, deciphered))
}

// A tally on a line of its own, after a name.
fn print_tally(rt: &impl Print, name: &[u8], tally: Tally) -> io::Result<()> {
    rt.write_all(name)?;
    println!(rt; " {tally}")
}

impl<'a> Report<'a> {
    // Writes the line of the set at hand, if it has a vector, and gives the total with it.
    fn closed(self, rt: &impl Print) -> io::Result<Tally> {
        if 0 < self.set.vectors {
            print_tally(rt, self.name, self.set)?;
        }
        Ok(self.total.plus(self.set))
    }

    // The report with the set of this name at hand: the same set, or a new one.
    fn in_set(self, rt: &impl Print, name: &'a [u8]) -> io::Result<Report<'a>> {
        if name == self.name {
            return Ok(self);
        }
        Ok(Report {
            line: self.line,
            name,
            set: Tally::default(),
            total: self.closed(rt)?,
        })
    }

    fn with_vector(self, rt: &impl Print, vector: Vector<'a>) -> io::Result<Report<'a>> {
        let report = self.in_set(rt, vector.set)?;
        let tally = run_vector(rt, report.line, vector)?;
        Ok(Report {
            set: report.set.plus(tally),
            ..report
        })
    }

    fn with_line(self, rt: &impl Print, line: &'a [u8]) -> io::Result<Report<'a>> {
        let report = Report {
            line: self.line.wrapping_add(1),
            ..self
        };
        match line_of(line) {
            Line::Comment => {}
            Line::Boxes => boxes::print(rt)?,
            Line::Vector(vector) => return report.with_vector(rt, vector),
            Line::Other => println!(rt; "line {} is not a vector", report.line)?,
        }
        Ok(report)
    }
}

// Runs all lines of the input and writes the report.
fn run(rt: &impl Print, input: &[u8]) -> io::Result<()> {
    let mut report = Report {
        line: 0,
        name: &[],
        set: Tally::default(),
        total: Tally::default(),
    };
    for line in input.split(|&c| c == b'\n') {
        report = report.with_line(rt, line)?;
    }
    print_tally(rt, b"total", report.closed(rt)?)
}

fn main(rt: HostRuntime) -> io::Result<()> {
    let mut input = [0u8; READ_LIMIT];
    let length = printing::read_full(&rt, &mut input)?;
    if length == READ_LIMIT {
        return rt.write_all(b"the input is over 65535 octets\n");
    }
    run(&rt, &input[..length])
}
