// The reply frames of a card in the lent buffer.
ghost use Rattle.std.specs.Prelude.{◌≡◌, true, [], length};
ghost use Rattle.frame.specs.Layout.{layout_of, within};
ghost use Rattle.frame.specs.Building.{frame_octets, Sends};
ghost use Rattle.card.specs.Numbers.{answer_number};
ghost use Rattle.card.specs.Frames.{acknowledgement, echo};

use crate::Refusal;
use frame::sizes::{LONGEST_FRAME, NUMBER_WIDTH};
use frame::{Command, Fields};
use numbers::Octets;

// A frame over the front of a buffer that holds it, and its length.
// As the tool's: one for both would be public in `frame` and have a `requires`, which public functions here do not have.
pub(crate) fn send(
    reply: &mut [u8; LONGEST_FRAME],
    command: Command,
    fields: Fields,
    data: &[u8],
) -> Octets
    requires { within (layout_of command) (length «data».now) ≡ true }
    ensures { Sends (frame_octets command fields «data».now) reply.old reply.new result }
{
    frame::build(reply, command, fields, data).unwrap_or(Octets(0))
}

// A frame without DATA.
pub(crate) fn send_bare(reply: &mut [u8; LONGEST_FRAME], command: Command, fields: Fields) -> Octets
    requires { within (layout_of command) 0 ≡ true }
    ensures { Sends (frame_octets command fields []) reply.old reply.new result }
{
    send(reply, command, fields, &[])
}

// The acknowledgement of a write that was granted, or DRJ.
pub(crate) fn acknowledgement(answer: Result<(), Refusal>, granted: Command) -> Command
    ensures { result ≡ acknowledgement (answer_number answer) granted }
{
    match answer {
        Ok(()) => granted,
        Err(_) => Command::Drj,
    }
}

// ECH's fields: NA1 enciphered under the key, and NA2.
pub(crate) fn echo(key: [u8; NUMBER_WIDTH], na2: [u8; NUMBER_WIDTH], fields: Fields) -> Fields
    ensures { result ≡ echo key na2 fields }
{
    Fields {
        za1: des::encipher(key, fields.za1),
        za2: na2,
        ..fields
    }
}
