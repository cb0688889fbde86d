// Reading a file.
ghost use Rattle.std.specs.Prelude.{◌≡◌};
ghost use Rattle.numbers.specs.Counts.{in_octets};
ghost use Rattle.swap.specs.Reading.{verdict_of, in_record_count};
ghost use Rattle.swap.specs.Cursor.{start_of, answer_of_next, next_at};
ghost use Rattle.swap.specs.Station.{next_for, next_to_program};
ghost use Rattle.swap_exports.specs.Reports.{judged_as, started_as, shown};

use numbers::{Octets, table};
use swap::{Cursor, Entry, NoRecord, RecordCount};

// 0 with the count of records, or 18 with the offset; the other cell is kept.
#[unsafe(no_mangle)]
pub extern "C" fn propolisk_swap_verdict(file: &[u8], records: &mut usize, offset: &mut usize) -> u8
    ensures { record { number = result; records = records.new; offset = offset.new } ≡ judged_as (verdict_of file.now) records.old offset.old }
{
    match swap::judge(file) {
        Ok(count) => {
            *records = count.0;
            table::NONE
        }
        Err(fault) => {
            *offset = fault.0.0;
            table::FAULTY_FILE
        }
    }
}

// 0 with the cursor of the first record, its offset and how many records are left, or 18 with the offset; a refusal leaves the cursor.
#[unsafe(no_mangle)]
pub extern "C" fn propolisk_swap_start(
    file: &[u8],
    at: &mut usize,
    left: &mut usize,
    offset: &mut usize,
) -> u8
    ensures { record { number = result; at = at.new; left = left.new; offset = offset.new } ≡ started_as (start_of file.now) at.old left.old offset.old }
{
    match swap::cursor::start(file) {
        Ok(cursor) => {
            *at = cursor.at.0;
            *left = cursor.left.0;
            table::NONE
        }
        Err(fault) => {
            *offset = fault.0.0;
            table::FAULTY_FILE
        }
    }
}

// The record at the cursor, and the cursor after it. At the end, and at a cursor that is none of this file, nothing but the mark changes.
#[unsafe(no_mangle)]
pub extern "C" fn propolisk_swap_next(
    file: &[u8],
    at: &mut usize,
    left: &mut usize,
    found: &mut bool,
    ads: &mut [u8; 6],
    tab: &mut u8,
    kind: &mut u8,
    from: &mut usize,
    length: &mut usize,
) -> u8
    ensures { record { number = result; at = at.new; left = left.new; found = found.new; ads = ads.new; tab = tab.new; kind = kind.new; from = from.new; length = length.new } ≡ shown (next_at file.now (record { at = in_octets at.old; left = in_record_count left.old })) file.now (record { number = 0; at = at.old; left = left.old; found = found.old; ads = ads.old; tab = tab.old; kind = kind.old; from = from.old; length = length.old }) }
{
    let here = Cursor {
        at: Octets(*at),
        left: RecordCount(*left),
    };
    let next = here.next(file);
    show(next, file, at, left, found, ads, tab, kind, from, length)
}

// As above, for the first record of this station from the cursor on.
#[unsafe(no_mangle)]
pub extern "C" fn propolisk_swap_next_for(
    file: &[u8],
    station: &[u8; 6],
    at: &mut usize,
    left: &mut usize,
    found: &mut bool,
    ads: &mut [u8; 6],
    tab: &mut u8,
    kind: &mut u8,
    from: &mut usize,
    length: &mut usize,
) -> u8
    ensures { record { number = result; at = at.new; left = left.new; found = found.new; ads = ads.new; tab = tab.new; kind = kind.new; from = from.new; length = length.new } ≡ shown (next_for station.now file.now (record { at = in_octets at.old; left = in_record_count left.old })) file.now (record { number = 0; at = at.old; left = left.old; found = found.old; ads = ads.old; tab = tab.old; kind = kind.old; from = from.old; length = length.old }) }
{
    let here = Cursor {
        at: Octets(*at),
        left: RecordCount(*left),
    };
    let next = swap::next_for(here, file, *station);
    show(next, file, at, left, found, ads, tab, kind, from, length)
}

// As above, for the first record that a tool programs this station's card with: its long records are passed over.
#[unsafe(no_mangle)]
pub extern "C" fn propolisk_swap_next_to_program(
    file: &[u8],
    station: &[u8; 6],
    at: &mut usize,
    left: &mut usize,
    found: &mut bool,
    ads: &mut [u8; 6],
    tab: &mut u8,
    kind: &mut u8,
    from: &mut usize,
    length: &mut usize,
) -> u8
    ensures { record { number = result; at = at.new; left = left.new; found = found.new; ads = ads.new; tab = tab.new; kind = kind.new; from = from.new; length = length.new } ≡ shown (next_to_program station.now file.now (record { at = in_octets at.old; left = in_record_count left.old })) file.now (record { number = 0; at = at.old; left = left.old; found = found.old; ads = ads.old; tab = tab.old; kind = kind.old; from = from.old; length = length.old }) }
{
    let here = Cursor {
        at: Octets(*at),
        left: RecordCount(*left),
    };
    let next = swap::next_to_program(here, file, *station);
    show(next, file, at, left, found, ads, tab, kind, from, length)
}

// An answer in the lent cells.
fn show(
    next: Result<Option<(Entry, Cursor)>, NoRecord>,
    file: &[u8],
    at: &mut usize,
    left: &mut usize,
    found: &mut bool,
    ads: &mut [u8; 6],
    tab: &mut u8,
    kind: &mut u8,
    from: &mut usize,
    length: &mut usize,
) -> u8
    ensures { record { number = result; at = at.new; left = left.new; found = found.new; ads = ads.new; tab = tab.new; kind = kind.new; from = from.new; length = length.new } ≡ shown (answer_of_next next) file.now (record { number = 0; at = at.old; left = left.old; found = found.old; ads = ads.old; tab = tab.old; kind = kind.old; from = from.old; length = length.old }) }
{
    match next {
        Ok(None) => {
            *found = false;
            table::NONE
        }
        Err(NoRecord) => {
            *found = false;
            table::FAULTY_FILE
        }
        Ok(Some((entry, after))) => {
            *ads = swap::cursor::ads(file, entry);
            *tab = entry.tab;
            *kind = u8::from(entry.kind);
            *from = entry.from.0;
            *length = entry.length.0;
            *at = after.at.0;
            *left = after.left.0;
            *found = true;
            table::NONE
        }
    }
}
