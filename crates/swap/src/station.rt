// The records of one station, one by one: what is listed, and what a tool programs a new card with (00; 02, E10).
ghost use Rattle.std.specs.Prelude.{◌≡◌};
ghost use Rattle.swap.specs.Record.{kind_octet};
ghost use Rattle.swap.specs.Cursor.{answer_of_next};
ghost use Rattle.swap.specs.Station.{asks, wanted_entry, next_asked, next_for, next_to_program};

use crate::cursor::{Cursor, NoRecord, ads as ads_of};
use crate::item::Entry;
use crate::kind::Kind;

// Which records of a station are asked for.
#[derive(Clone, Copy)]
enum Asked {
    Every,
    ToProgram,
}

// The first record at or after the cursor whose ADS is the station's, with the cursor after it; none where none is left.
// Two public names, since docs/STATEMENTS.md has both.
pub fn next_for(
    cursor: Cursor,
    file: &[u8],
    ads: [u8; 6],
) -> Result<Option<(Entry, Cursor)>, NoRecord>
    ensures { answer_of_next result ≡ next_for ads file.now cursor }
{
    next_asked(cursor, file, ads, Asked::Every)
}

// The same, but that long records are passed over: a tool asks for what it programs a card with (02, E10).
pub fn next_to_program(
    cursor: Cursor,
    file: &[u8],
    ads: [u8; 6],
) -> Result<Option<(Entry, Cursor)>, NoRecord>
    ensures { answer_of_next result ≡ next_to_program ads file.now cursor }
{
    next_asked(cursor, file, ads, Asked::ToProgram)
}

fn next_asked(
    mut cursor: Cursor,
    file: &[u8],
    ads: [u8; 6],
    asked: Asked,
) -> Result<Option<(Entry, Cursor)>, NoRecord>
    ensures { answer_of_next result ≡ next_asked asked ads file.now cursor }
{
    while let Some((entry, after)) = cursor.next(file)? {
        if is_wanted(file, entry, ads, asked) {
            return Ok(Some((entry, after)));
        }
        cursor = after;
    }
    Ok(None)
}

// Whether a record is the station's, and of a kind that is asked for.
fn is_wanted(file: &[u8], entry: Entry, ads: [u8; 6], asked: Asked) -> bool
    ensures { result ≡ wanted_entry asked ads file.now entry }
{
    let its = ads_of(file, entry);
    its == ads && is_asked(asked, entry.kind)
}

#[tactic(auto, unfolding(crate::specs::Station::asks))]
fn is_asked(asked: Asked, kind: Kind) -> bool
    ensures { result ≡ asks asked (kind_octet kind) }
{
    match (asked, kind) {
        (Asked::ToProgram, Kind::Long) => false,
        _ => true,
    }
}
