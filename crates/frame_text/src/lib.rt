#![tactic(auto)]
// A good frame in words, as the programs list it (docs/PROGRAMS.md, A good frame).
mod items;

ghost use Rattle.std.specs.Prelude.{◌≡◌, ◌+◌, ◌≤◌, length};
ghost use Rattle.octets.specs.Splice.{spliced};
ghost use Rattle.text.specs.Text.{Written};
ghost use Rattle.frame_text.specs.Names.{name_of};
ghost use Rattle.frame_text.specs.Words.{most_data, most_words, most_head_words, head_words, words_of, frame_end, frame_over};

use frame::{Command, Fields, Reading};
use items::{items_of, put_items};
use numbers::Octets;
use text::{put_hex, put_words};

// The most octets that the words of a frame have. `specs/Words.antt` has the same name.
pub const MOST_WORDS: usize = 320;

// The words of a good frame from an offset on, and the offset after them. Where the slice is no good frame, or fewer than MOST_WORDS octets are left for
// the words, the buffer stays and the offset is given as it was.
pub fn put_frame(buffer: &mut [u8], at: Octets, frame: &[u8]) -> Octets
    ensures { (result.0 ≡ frame_end buffer.old at.0 frame.now) × (buffer.new ≡ frame_over buffer.old at.0 frame.now) }
{
    if buffer.len() < MOST_WORDS || buffer.len() - MOST_WORDS < at.0 {
        return at;
    }
    let Ok(Reading { command, fields }) = frame::read(frame) else {
        return at;
    };
    put_whole(buffer, at, command, fields, frame::data_of(command, frame))
}

// The words of a command with these fields and DATA.
fn put_whole(buffer: &mut [u8], at: Octets, command: Command, fields: Fields, data: &[u8]) -> Octets
    requires { (at.0 + most_words ≤ length buffer.old) × (length «data».now ≤ most_data) }
    ensures { (result.0 ≡ at.0 + length (words_of command fields «data».now)) × (buffer.new ≡ spliced buffer.old at.0 (words_of command fields «data».now)) }
{
    let next = put_head(buffer, at, command, fields);
    put_items(buffer, next, items_of(command), fields, data)
}

// The command, ADS and ADP.
fn put_head(buffer: &mut [u8], at: Octets, command: Command, fields: Fields) -> Octets
    requires { at.0 + most_head_words ≤ length buffer.old }
    ensures { Written buffer.old at.0 (head_words command fields) result.0 buffer.new }
{
    let ads_at = put_words(buffer, at, name_of(command));
    let adp_at = put_hex(buffer, ads_at, b" ADS ", &fields.ads);
    put_hex(buffer, adp_at, b" ADP ", &[fields.adp])
}

#[tactic(auto, unfolding(crate::specs::Names::name_of))]
fn name_of(command: Command) -> &'static [u8]
    ensures { result.now ≡ name_of command }
{
    match command {
        Command::Enq => b"ENQ",
        Command::Dat => b"DAT",
        Command::Rec => b"REC",
        Command::Ech => b"ECH",
        Command::Aut => b"AUT",
        Command::Eos => b"EOS",
        Command::Aso => b"ASO",
        Command::Rso => b"RSO",
        Command::Ib => b"IB",
        Command::Drj => b"DRJ",
        Command::Arj => b"ARJ",
        Command::Trf => b"TRF",
        Command::Trb => b"TRB",
        Command::Tra => b"TRA",
        Command::Pre => b"PRE",
        Command::Sel => b"SEL",
    }
}
