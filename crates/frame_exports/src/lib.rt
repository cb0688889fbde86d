#![tactic(auto)]
// Frames for C programs: the builder and the reader of whole frames. include/propolisk_frame.h declares them.
ghost use Rattle.std.specs.Prelude.{◌≡◌};
ghost use Rattle.frame_exports.specs.Exported.{build_outcome, read_outcome, fields_from};

use frame::sizes::{ADDRESS_WIDTH, LONGEST_FRAME, MOST_TRANSFERRED, NUMBER_WIDTH};
use frame::{Command, Fields, Reading};
use numbers::table;

// A frame over the front of the buffer: 17, then 4 for a code that names no command, then 7. A refusal leaves buffer and length.
#[unsafe(no_mangle)]
pub extern "C" fn propolisk_frame_build(
    buffer: &mut [u8],
    code: u8,
    ads: &[u8; ADDRESS_WIDTH],
    adp: u8,
    za1: &[u8; NUMBER_WIDTH],
    za2: &[u8; NUMBER_WIDTH],
    tab: u8,
    announced: &[u8; ADDRESS_WIDTH],
    data: &[u8],
    length: &mut usize,
) -> u8
    ensures { record { number = result; buffer = buffer.new; length = length.new } ≡ build_outcome buffer.old code (fields_from ads.now adp za1.now za2.now tab announced.now) «data».now length.old }
{
    if buffer.len() < LONGEST_FRAME {
        return table::WRONG_LENGTH;
    }
    let Ok(command) = Command::try_from(code) else {
        return table::UNKNOWN_COMMAND;
    };
    let fields = Fields {
        ads: *ads,
        adp,
        za1: *za1,
        za2: *za2,
        tab,
        announced: *announced,
    };
    match frame::build(buffer, command, fields, data) {
        Ok(octets) => {
            *length = octets.0;
            table::NONE
        }
        Err(refusal) => refusal.number(),
    }
}

// A whole frame, read: 1, 3, 2, 4, 5 in this order; a refusal leaves all that is lent.
#[unsafe(no_mangle)]
pub extern "C" fn propolisk_frame_read(
    octets: &[u8],
    code: &mut u8,
    ads: &mut [u8; ADDRESS_WIDTH],
    adp: &mut u8,
    za1: &mut [u8; NUMBER_WIDTH],
    za2: &mut [u8; NUMBER_WIDTH],
    tab: &mut u8,
    announced: &mut [u8; ADDRESS_WIDTH],
    data: &mut [u8; MOST_TRANSFERRED],
    length: &mut usize,
) -> u8
    ensures { record { number = result; code = code.new; fields = fields_from ads.new adp.new za1.new za2.new tab.new announced.new; content = «data».new; length = length.new } ≡ read_outcome octets.now (record { number = 0; code = code.old; fields = fields_from ads.old adp.old za1.old za2.old tab.old announced.old; content = «data».old; length = length.old }) }
{
    match frame::read(octets) {
        Err(fault) => fault.number(),
        Ok(Reading { command, fields }) => {
            let its_ads = fields.ads;
            let its_za1 = fields.za1;
            let its_za2 = fields.za2;
            let its_announced = fields.announced;
            let content = frame::data_of(command, octets);
            octets::put(data, 0, content);
            *length = content.len();
            *code = u8::from(command);
            *ads = its_ads;
            *adp = fields.adp;
            *za1 = its_za1;
            *za2 = its_za2;
            *tab = fields.tab;
            *announced = its_announced;
            table::NONE
        }
    }
}
