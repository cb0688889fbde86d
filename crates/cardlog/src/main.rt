#![tactic(auto)]
// Plays a recorded history on a card: reads a setup and calls from standard input, and prints what each call gave and what
// the records hold at the end.
mod calls;
mod lines;
mod setup;

use card::answer_number;
use std::io;

// One octet more than the longest input, so that a longer one is seen to be too long.
const READ_LIMIT: usize = 65536;

// The setup of the input, then its calls, unless the setup is refused.
fn run(rt: &impl Print, input: &[u8]) -> io::Result<()> {
    let Some((setup, calls)) = setup::read_setup(input) else {
        return rt.write_all(b"the input ends inside the setup\n");
    };
    let done = setup.played();
    lines::print_setup(rt, answer_number(done.answer))?;
    if done.answer.is_ok() {
        let card = calls::play(rt, done.card, calls)?;
        lines::print_records(rt, &card.records)?;
    }
    Ok(())
}

// No function with `des_vectors`' main: it would take the program as a closure and have a `requires`, which public functions here do not have.
fn main(rt: HostRuntime) -> io::Result<()> {
    let mut input = [0u8; READ_LIMIT];
    let length = printing::read_full(&rt, &mut input)?;
    if length == READ_LIMIT {
        return rt.write_all(b"the input is over 65535 octets\n");
    }
    run(&rt, &input[..length])
}
