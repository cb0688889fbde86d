#![tactic(auto)]
// For C programs: the check key, one DES block, and fitting a label. include/propolisk_primitives.h declares them.
ghost use Rattle.std.specs.Prelude.{◌≡◌};
ghost use Rattle.crc.specs.AnnexE.{check_key, divides};
ghost use Rattle.des.specs.Des.{encipher, decipher};
ghost use Rattle.numbers.specs.Counts.{in_octets, in_characters};
ghost use Rattle.label.specs.Fitting.{fit_of};
ghost use Rattle.primitive_exports.specs.Report.{report};

use label::IllFormed;
use numbers::{Characters, Octets, table};

// The check key of the octets; its low octet is sent first.
#[unsafe(no_mangle)]
pub extern "C" fn propolisk_crc_key(octets: &[u8]) -> u16
    ensures { result ≡ check_key octets.now }
{
    crc::check_key(octets)
}

// The receiver's test of octets that end with their check key.
#[unsafe(no_mangle)]
pub extern "C" fn propolisk_crc_divisible(octets: &[u8]) -> bool
    ensures { result ≡ divides octets.now }
{
    crc::divisible(octets)
}

// The block is enciphered where it stands.
#[unsafe(no_mangle)]
pub extern "C" fn propolisk_des_encipher(key: &[u8; 8], block: &mut [u8; 8])
    ensures { block.new ≡ encipher key.now block.old }
{
    *block = des::encipher(*key, *block);
}

// The block is deciphered where it stands.
#[unsafe(no_mangle)]
pub extern "C" fn propolisk_des_decipher(key: &[u8; 8], block: &mut [u8; 8])
    ensures { block.new ≡ decipher key.now block.old }
{
    *block = des::decipher(*key, *block);
}

// The kept part's two counts and 0, or 8 with the offset in place of the octet count.
#[unsafe(no_mangle)]
#[tactic(auto, unfolding(crate::specs::Report::report))]
pub extern "C" fn propolisk_label_fit(
    label: &[u8],
    octet_limit: usize,
    character_limit: usize,
    octets: &mut usize,
    characters: &mut usize,
) -> u8
    ensures { record { number = result; octets = octets.new; characters = characters.new } ≡ report (fit_of label.now (in_octets octet_limit) (in_characters character_limit)) characters.old }
{
    match label::fit(label, Octets(octet_limit), Characters(character_limit)) {
        Ok(kept) => {
            *octets = kept.octets.0;
            *characters = kept.characters.0;
            table::NONE
        }
        Err(IllFormed(offset)) => {
            *octets = offset.0;
            table::ILL_FORMED
        }
    }
}
