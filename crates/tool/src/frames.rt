// Frames that a tool sends.
ghost use Rattle.std.specs.Prelude.{◌≡◌, true, length};
ghost use Rattle.frame.specs.Layout.{layout_of, within};
ghost use Rattle.frame.specs.Building.{frame_octets, Sends};
ghost use Rattle.tool.specs.Requests.{fields_to};

use frame::sizes::{ADDRESS_WIDTH, LONGEST_FRAME, NUMBER_WIDTH};
use frame::{Command, Fields};
use numbers::Octets;

pub(crate) fn fields_to(
    ads: [u8; ADDRESS_WIDTH],
    adp: u8,
    tab: u8,
    za1: [u8; NUMBER_WIDTH],
    za2: [u8; NUMBER_WIDTH],
) -> Fields
    ensures { result ≡ fields_to ads adp tab za1 za2 }
{
    Fields {
        ads,
        adp,
        za1,
        za2,
        tab,
        announced: [0; ADDRESS_WIDTH],
    }
}

// A frame over the front of a buffer that holds it, and its length.
// As the card's (`replies.rt` there).
pub(crate) fn send(
    frame: &mut [u8; LONGEST_FRAME],
    command: Command,
    fields: Fields,
    data: &[u8],
) -> Octets
    requires { within (layout_of command) (length «data».now) ≡ true }
    ensures { Sends (frame_octets command fields «data».now) frame.old frame.new result }
{
    frame::build(frame, command, fields, data).unwrap_or(Octets(0))
}
