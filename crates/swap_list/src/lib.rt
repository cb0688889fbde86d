#![tactic(auto)]
// A list of records in the form that the writer takes, kept in order: what a tool collects from the old cards (01, Swap file).
ghost use Rattle.std.specs.Prelude.{◌≡◌};
ghost use Rattle.swap.specs.Record.{kind_octet};
ghost use Rattle.swap_list.specs.Adding.{empty, record_of, answer_of_added, adding};

mod insert;
mod place;

use insert::{insert, keep};
use numbers::Octets;
use place::{head_of, place_of};
use swap::file::{COUNT_LIMIT, FILE_LIMIT};
use swap::item::rank;
use swap::{Fault, Kind, RecordCount};
use swap_write::size::HEAD_SIZE;

// Octets of the array of heads: as many heads as a file has records.
pub const HEADS_SIZE: usize = 40960;
// Octets of the array of data: as many as a file has.
pub const CONTENTS_SIZE: usize = 65536;

// How many records the list has, and how many octets of data, at the front of the two arrays that are lent with it.
#[derive(Clone, Copy, Debug, PartialEq, Eq)]
pub struct RecordList {
    pub records: RecordCount,
    pub octets: Octets,
}

impl RecordList {
    pub fn new() -> RecordList
        ensures { result ≡ empty }
    {
        RecordList {
            records: RecordCount(0),
            octets: Octets(0),
        }
    }

    // The next list, with the record in its place by ADS then TAB, or where the first bad item of its file would stand; a refusal leaves both arrays as they
    // are.
    pub fn add(
        self,
        heads: &mut [u8; HEADS_SIZE],
        contents: &mut [u8; CONTENTS_SIZE],
        ads: [u8; 6],
        tab: u8,
        kind: Kind,
        content: &[u8],
    ) -> Result<RecordList, Fault>
        ensures { record { answer = answer_of_added result; heads = heads.new; contents = contents.new } ≡ adding self (record_of ads tab (kind_octet kind) content.now) heads.old contents.old }
    {
        self.add_with_octet(heads, contents, ads, tab, u8::from(kind), content)
    }

    // As `add`, with the octet that stands for the kind; one that stands for none is a bad item too. Data that leaves no room for a count makes a file too long.
    // The kind is an octet, since one that stands for none has an answer too (`adding`).
    pub fn add_with_octet(
        self,
        heads: &mut [u8; HEADS_SIZE],
        contents: &mut [u8; CONTENTS_SIZE],
        ads: [u8; 6],
        tab: u8,
        kind: u8,
        content: &[u8],
    ) -> Result<RecordList, Fault>
        ensures { record { answer = answer_of_added result; heads = heads.new; contents = contents.new } ≡ adding self (record_of ads tab kind content.now) heads.old contents.old }
    {
        let head_end = HEAD_SIZE * self.records.0.min(COUNT_LIMIT);
        let content_end = self.octets.0.min(CONTENTS_SIZE);
        if CONTENTS_SIZE - content_end <= content.len() {
            return Err(Fault(Octets(FILE_LIMIT)));
        }
        let head = head_of(ads, tab, kind, content.len());
        let place = place_of(&heads[..head_end], rank(&head));
        let mut new_heads = [0; HEADS_SIZE + HEAD_SIZE];
        insert(&mut new_heads, &heads[..head_end], place.head, &head);
        let mut new_contents = [0; CONTENTS_SIZE];
        insert(
            &mut new_contents,
            &contents[..content_end],
            place.from,
            content,
        );
        keep(
            heads,
            contents,
            &new_heads[..head_end + HEAD_SIZE],
            &new_contents[..content_end + content.len()],
        )
    }
}
