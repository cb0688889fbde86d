// The head of a record, and its place among the heads of a list.
ghost use Rattle.std.specs.Prelude.{◌≡◌, ◌++◌, ◌∷◌, [], ◌/◌, ◌%◌, ◌≤◌, ◌<◌, length};
ghost use Rattle.swap_list.specs.Adding.{heads_size, contents_size, place_of};

use swap::item::rank;
use swap_write::size::{HEAD_SIZE, head_length};

// Offsets in the heads and in their data.
#[derive(Clone, Copy)]
pub struct Place {
    pub head: usize,
    pub from: usize,
}

// A head of ten octets: ADS, TAB, kind, and the length of the data, the low octet first.
// The kind is an octet of a head, which C programs lay too.
pub(crate) fn head_of(ads: [u8; 6], tab: u8, kind: u8, count: usize) -> [u8; HEAD_SIZE]
    requires { count < contents_size }
    ensures { result ≡ ads ++ tab ∷ kind ∷ count % 256 ∷ count / 256 ∷ [] }
{
    let [low, high] = (count as u16).to_le_bytes();
    let mut head = [0; HEAD_SIZE];
    octets::put(&mut head, 0, &ads);
    octets::put(&mut head, 6, &[tab, kind, low, high]);
    head
}

// After the heads at the front that have no higher rank, so that a record with a rank that is there already comes after it.
pub(crate) fn place_of(heads: &[u8], least: u64) -> Place
    requires { length heads.now ≤ heads_size }
    ensures { result ≡ place_of least heads.now }
{
    let count = heads.len() / HEAD_SIZE;
    let mut place = Place { head: 0, from: 0 };
    for _passed in 0..count {
        let here = &heads[place.head..];
        if least < rank(here) {
            return place;
        }
        place.head += HEAD_SIZE;
        place.from += head_length(here).0;
    }
    place
}
