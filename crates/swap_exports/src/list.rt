// Adding a record to a list that the writer takes.
ghost use Rattle.std.specs.Prelude.{◌≡◌};
ghost use Rattle.numbers.specs.Counts.{in_octets};
ghost use Rattle.swap.specs.Reading.{in_record_count};
ghost use Rattle.swap_list.specs.Adding.{record_of, adding};
ghost use Rattle.swap_exports.specs.Reports.{added_as};

use numbers::{Octets, table};
use swap::RecordCount;
use swap_list::{CONTENTS_SIZE, HEADS_SIZE, RecordList};

// 0 with the next list's two counts, or 18 with the offset; a refusal leaves both arrays and both counts.
// The kind is an octet here (the C interface).
#[unsafe(no_mangle)]
pub extern "C" fn propolisk_swap_add(
    heads: &mut [u8; HEADS_SIZE],
    contents: &mut [u8; CONTENTS_SIZE],
    records: &mut usize,
    octets: &mut usize,
    ads: &[u8; 6],
    tab: u8,
    kind: u8,
    content: &[u8],
    offset: &mut usize,
) -> u8
    ensures { record { number = result; heads = heads.new; contents = contents.new; records = records.new; octets = octets.new; offset = offset.new } ≡ added_as (adding (record { records = in_record_count records.old; octets = in_octets octets.old }) (record_of ads.now tab kind content.now) heads.old contents.old) records.old octets.old offset.old }
{
    let list = RecordList {
        records: RecordCount(*records),
        octets: Octets(*octets),
    };
    match list.add_with_octet(heads, contents, *ads, tab, kind, content) {
        Ok(next) => {
            *records = next.records.0;
            *octets = next.octets.0;
            table::NONE
        }
        Err(fault) => {
            *offset = fault.0.0;
            table::FAULTY_FILE
        }
    }
}
