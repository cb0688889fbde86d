#![tactic(auto)]
// DES of FIPS 46-3 on one block of eight octets, both ways. The first octet of a key or a block has its bits 1 to 8.
pub mod boxes;
pub mod keys;
mod permuting;
mod rounds;
mod schedule;
mod words;

ghost use Rattle.std.specs.Prelude.{◌≡◌};
ghost use Rattle.des.specs.Tables.{IP, inverse_ip};
ghost use Rattle.des.specs.Des.{bits_of, bits, octets, permuted, exchanged, round_key, computation, encipher, decipher};
ghost use Rattle.des.specs.Words.{Word, order};

// The bits of a block, permuted by IP.
fn permuted_input(block: [u8; 8]) -> u64
    ensures { Word 64 (permuted IP (bits block)) result }
{
    permuting::initial(words::word(block))
}

// The octets of the preoutput block, permuted by the inverse of IP.
fn output(lr: u64) -> [u8; 8]
    ensures { result ≡ octets 8 (permuted inverse_ip (exchanged (bits_of 64 lr))) }
{
    words::octets(permuting::inverse_initial(rounds::exchanged(lr)))
}

// The computation of both ways, which differ in the order of the round keys alone.
fn computation(deciphering: bool, key: [u8; 8], block: [u8; 8]) -> [u8; 8]
    ensures { result ≡ computation (λ n. round_key key (order deciphering n)) block }
{
    let lr = permuted_input(block);
    output(rounds::rounds(deciphering, key, lr))
}

// The block enciphered under the key.
pub fn encipher(key: [u8; 8], block: [u8; 8]) -> [u8; 8]
    ensures { result ≡ encipher key block }
{
    computation(false, key, block)
}

// The block deciphered under the key.
pub fn decipher(key: [u8; 8], block: [u8; 8]) -> [u8; 8]
    ensures { result ≡ decipher key block }
{
    computation(true, key, block)
}
