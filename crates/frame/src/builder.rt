// Frames built into a lent buffer.
ghost use Rattle.std.specs.Prelude.{◌≡◌, ◌+◌, ◌≤◌, ◌<◌, length};
ghost use Rattle.octets.specs.Splice.{spliced, fronted};
ghost use Rattle.frame.specs.Sizes.{longest_frame, fields_at, crc_width, number_width, most_before_data};
ghost use Rattle.frame.specs.Layout.{layout_of};
ghost use Rattle.frame.specs.Content.{on_wire};
ghost use Rattle.frame.specs.Building.{refusal_number, answer_of_built, head_of, fixed_of, closed, frame_octets, built};

use crate::codes::Command;
use crate::content::Fields;
use crate::layout::{Layout, Presence, layout_of, places_of};
use crate::sizes::{ADDRESS_WIDTH, ADS_AT, CRC_WIDTH, FIELDS_AT, LONGEST_FRAME, NUMBER_WIDTH};
use numbers::{Octets, table};

// Why no frame was built.
#[derive(Clone, Copy, Debug, PartialEq, Eq)]
pub enum Refusal {
    Buffer,
    Data,
}

impl Refusal {
    // No From: `number` says which octet of an answer it is.
    pub fn number(self) -> u8
        ensures { result ≡ refusal_number self }
    {
        match self {
            Refusal::Buffer => table::WRONG_LENGTH,
            Refusal::Data => table::TOO_LONG,
        }
    }
}

// N, ADS, ADP and COM.
fn put_head(buffer: &mut [u8], n: u8, ads: [u8; ADDRESS_WIDTH], adp: u8, command: u8)
    ensures { buffer.new ≡ spliced buffer.old 0 (head_of n ads adp command) }
{
    let mut head = [n, 0, 0, 0, 0, 0, 0, adp, command];
    octets::put_reversed(&mut head, ADS_AT, &ads);
    octets::put(buffer, 0, &head);
}

// A field that the command may have, and the offset after it.
fn put_field(buffer: &mut [u8], at: usize, presence: Presence, field: &[u8]) -> usize
    requires { (at < longest_frame) × (length field.now ≤ number_width) }
    ensures { (result ≡ at + length (on_wire presence field.now)) × (buffer.new ≡ spliced buffer.old at (on_wire presence field.now)) }
{
    match presence {
        Presence::Absent => return at,
        Presence::Zero => octets::put(buffer, at, &[0; NUMBER_WIDTH][..field.len()]),
        Presence::Carried => octets::put_reversed(buffer, at, field),
    }
    at + field.len()
}

// ZA1, ZA2, TAB and RSO's second ADS.
fn put_fixed(buffer: &mut [u8], layout: Layout, fields: Fields)
    requires { most_before_data ≤ length buffer.old }
    ensures { buffer.new ≡ spliced buffer.old fields_at (fixed_of layout fields) }
{
    let za2_at = put_field(buffer, FIELDS_AT, layout.za1, &fields.za1);
    let tab_at = put_field(buffer, za2_at, layout.za2, &fields.za2);
    let announced_at = put_field(buffer, tab_at, layout.tab, &[fields.tab]);
    put_field(buffer, announced_at, layout.announced, &fields.announced);
}

// DATA over a part of the buffer that is as long.
fn fill(part: &mut [u8], data: &[u8])
    requires { length part.old ≡ length «data».now }
    ensures { part.new ≡ «data».now }
{
    octets::put(part, 0, data);
}

// The CRC after the octets before end, and the offset after it.
fn close(buffer: &mut [u8], end: usize) -> usize
    requires { end + crc_width ≤ length buffer.old }
    ensures { (result ≡ end + crc_width) × (buffer.new ≡ closed buffer.old end) }
{
    let check_key = crc::check_key(&buffer[..end]);
    octets::put(buffer, end, &check_key.to_le_bytes());
    end + CRC_WIDTH
}

// The frame over the front of a buffer that holds it.
fn write(buffer: &mut [u8], command: Command, fields: Fields, data: &[u8]) -> usize
    requires { (longest_frame ≤ length buffer.old) × (length «data».now ≤ (layout_of command).most.0) }
    ensures { (result ≡ length (frame_octets command fields «data».now)) × (buffer.new ≡ fronted (frame_octets command fields «data».now) buffer.old) }
{
    let layout = layout_of(command);
    let at = places_of(layout).content.0;
    let end = at + data.len();
    let n = (end + CRC_WIDTH) as u8;
    put_head(buffer, n, fields.ads, fields.adp, u8::from(command));
    put_fixed(buffer, layout, fields);
    fill(&mut buffer[at..end], data);
    close(buffer, end)
}

// A frame of this command in the front of the buffer: 17 for a buffer under 128 octets, then 7 for DATA that the command cannot have.
// Octets past the frame are kept, and a refusal leaves the whole buffer.
pub fn build(
    buffer: &mut [u8],
    command: Command,
    fields: Fields,
    data: &[u8],
) -> Result<Octets, Refusal>
    ensures { (answer_of_built result ≡ (built buffer.old command fields «data».now).answer) × (buffer.new ≡ (built buffer.old command fields «data».now).buffer) }
{
    if buffer.len() < LONGEST_FRAME {
        return Err(Refusal::Buffer);
    }
    let layout = layout_of(command);
    if !(layout.least.0..=layout.most.0).contains(&data.len()) {
        return Err(Refusal::Data);
    }
    Ok(Octets(write(buffer, command, fields, data)))
}
