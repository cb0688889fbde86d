#![tactic(auto)]
// The CRC of IEC 62056-3-1, Annex E: the check key of a list of octets and the receiver's test.
ghost use Rattle.std.specs.Prelude.{◌≡◌};
ghost use Rattle.crc.specs.AnnexE.{check_key, divides};

mod residues;

use residues::Residues;

// The octets of a turn.
const TURN: usize = 16;

// The check key of the octets; its low octet is sent first. The octets that fill no turn come first: zeros at higher powers change no polynomial.
// At each turn X^128, which is X^16 + X^8 by X^15 + X + 1, moves the octets so far on.
pub fn check_key(s: &[u8]) -> u16
    ensures { result ≡ check_key s.now }
{
    let (start, turns) = s.split_at(s.len() % TURN);
    let Residues {
        mut word,
        mut parity,
    } = residues::residues_of(start);
    for turn in turns.chunks_exact(TURN) {
        let next = residues::residues_of(turn);
        word = residues::moved(word, 16, 8) ^ next.word;
        parity ^= next.parity;
    }
    residues::check_key_of(word, parity)
}

// The receiver's test: the polynomial of all the octets divides by D(X), as it does exactly if their key is 0.
pub fn divisible(s: &[u8]) -> bool
    ensures { result ≡ divides s.now }
{
    check_key(s) == 0
}
