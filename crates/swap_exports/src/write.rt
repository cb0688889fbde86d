// Writing a file.
ghost use Rattle.std.specs.Prelude.{◌≡◌};
ghost use Rattle.swap_write.specs.Writing.{writing};
ghost use Rattle.swap_exports.specs.Reports.{written_as};

use numbers::table;
use swap_write::Refusal;

// 0 with the file's length, or 18 with the offset, or 17; a refusal leaves the buffer, and each cell that is not named is kept.
#[unsafe(no_mangle)]
pub extern "C" fn propolisk_swap_write(
    heads: &[u8],
    contents: &[u8],
    buffer: &mut [u8],
    length: &mut usize,
    offset: &mut usize,
) -> u8
    ensures { record { number = result; buffer = buffer.new; length = length.new; offset = offset.new } ≡ written_as (writing heads.now contents.now buffer.old).answer (writing heads.now contents.now buffer.old).buffer length.old offset.old }
{
    match swap_write::write(heads, contents, buffer) {
        Ok(octets) => {
            *length = octets.0;
            table::NONE
        }
        Err(Refusal::Fault(fault)) => {
            *offset = fault.0.0;
            table::FAULTY_FILE
        }
        Err(Refusal::Short) => table::WRONG_LENGTH,
    }
}
