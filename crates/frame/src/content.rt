// The fields of a frame.
ghost use Rattle.std.specs.Prelude.{◌≡◌, ◌<◌, ◌≤◌};
ghost use Rattle.frame.specs.Sizes.{longest_frame, number_width};
ghost use Rattle.frame.specs.Content.{value_at, octet_at, fields_of, data_of};
ghost use Rattle.frame.specs.Checks.{answer_of_reading, read_of};

use crate::checks::{Fault, inspect};
use crate::codes::Command;
use crate::layout::{Presence, layout_of, places_of};
use crate::sizes::{ADDRESS_WIDTH, ADP_AT, ADS_AT, CRC_WIDTH, FIELDS_AT, NUMBER_WIDTH};

// What a frame carries beside its command and DATA. Addresses and numbers are in written order, the most significant octet first;
// a field that the command does not carry is zero. announced is RSO's second ADS.
#[derive(Clone, Copy)]
pub struct Fields {
    pub ads: [u8; ADDRESS_WIDTH],
    pub adp: u8,
    pub za1: [u8; NUMBER_WIDTH],
    pub za2: [u8; NUMBER_WIDTH],
    pub tab: u8,
    pub announced: [u8; ADDRESS_WIDTH],
}

// What a good frame in a slice is.
#[derive(Clone, Copy)]
pub struct Reading {
    pub command: Command,
    pub fields: Fields,
}

// The value of a field of N octets; zeros where the field carries none. The least significant octet goes over the wire first
// (004 4.4.8), so reader and builder turn every field of several octets.
fn value_at<const N: usize>(frame: &[u8], at: usize, presence: Presence) -> [u8; N]
    requires at_in_frame { at < longest_frame }
    requires width { N ≤ number_width }
    ensures { result ≡ value_at presence N frame.now at }
{
    let mut value = [0; N];
    if let Presence::Carried = presence {
        octets::put_reversed(&mut value, 0, octets::part(frame, at, at + N));
    }
    value
}

// The value of a field of one octet.
#[tactic(auto, unfolding(crate::specs::Content::octet_at))]
fn octet_at(frame: &[u8], at: usize, presence: Presence) -> u8
    ensures { result ≡ octet_at presence frame.now at }
{
    match presence {
        Presence::Absent | Presence::Zero => 0,
        Presence::Carried => octets::octet(frame, at),
    }
}

// The fields of a frame with this command.
pub fn fields_of(command: Command, frame: &[u8]) -> Fields
    ensures { result ≡ fields_of command frame.now }
{
    let layout = layout_of(command);
    let places = places_of(layout);
    Fields {
        ads: value_at(frame, ADS_AT, Presence::Carried),
        adp: octets::octet(frame, ADP_AT),
        za1: value_at(frame, FIELDS_AT, layout.za1),
        za2: value_at(frame, places.za2.0, layout.za2),
        tab: octet_at(frame, places.tab.0, layout.tab),
        announced: value_at(frame, places.announced.0, layout.announced),
    }
}

// The DATA of a frame with this command, as a part of the frame.
pub fn data_of(command: Command, frame: &[u8]) -> &[u8]
    ensures { result.now ≡ data_of command frame.now }
{
    let content = places_of(layout_of(command)).content;
    octets::part(frame, content.0, frame.len().saturating_sub(CRC_WIDTH))
}

// A whole frame in a slice.
pub fn read(frame: &[u8]) -> Result<Reading, Fault>
    ensures { answer_of_reading result ≡ read_of frame.now }
{
    let command = inspect(frame)?;
    Ok(Reading {
        command,
        fields: fields_of(command, frame),
    })
}
