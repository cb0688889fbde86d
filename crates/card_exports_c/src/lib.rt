#![tactic(auto)]
// The calls of `card_exports` under their C names: a crate is a library for Rattle or an archive for C, not both. include/propolisk_card.h declares them.
ghost use Rattle.std.specs.Prelude.{◌≡◌};
ghost use Rattle.card.specs.Events.{gap, session_end, meter_write};
ghost use Rattle.card_exports.specs.Observing.{read_outcome};
ghost use Rattle.card_exports.specs.Outcome.{call_outcome, octet_outcome};
ghost use Rattle.card_exports.specs.Setup.{setup_outcome};

use card_memory::layout;

#[unsafe(no_mangle)]
pub extern "C" fn propolisk_card_setup(
    memory: &mut [u8],
    address: &[u8],
    key: &[u8],
    count: u8,
    entries: &[u8; layout::RECORDS_SIZE],
) -> u8
    ensures { record { number = result; memory = memory.new } ≡ setup_outcome memory.old address.now key.now count entries.now }
{
    card_exports::propolisk_card_setup(memory, address, key, count, entries)
}

#[unsafe(no_mangle)]
pub extern "C" fn propolisk_card_step_octet(
    memory: &mut [u8],
    octet: u8,
    na2: &[u8],
    reply: &mut [u8],
    length: &mut usize,
) -> u8
    ensures { record { number = result; memory = memory.new; reply = reply.new; length = length.new } ≡ octet_outcome memory.old octet na2.now reply.old length.old }
{
    card_exports::propolisk_card_step_octet(memory, octet, na2, reply, length)
}

#[unsafe(no_mangle)]
pub extern "C" fn propolisk_card_step_gap(memory: &mut [u8]) -> u8
    ensures { record { number = result; memory = memory.new } ≡ call_outcome memory.old gap }
{
    card_exports::propolisk_card_step_gap(memory)
}

#[unsafe(no_mangle)]
pub extern "C" fn propolisk_card_step_session_end(memory: &mut [u8]) -> u8
    ensures { record { number = result; memory = memory.new } ≡ call_outcome memory.old session_end }
{
    card_exports::propolisk_card_step_session_end(memory)
}

#[unsafe(no_mangle)]
pub extern "C" fn propolisk_card_meter_write(memory: &mut [u8], tab: u8, data: &[u8]) -> u8
    ensures { record { number = result; memory = memory.new } ≡ call_outcome memory.old (meter_write tab «data».now) }
{
    card_exports::propolisk_card_meter_write(memory, tab, data)
}

#[unsafe(no_mangle)]
pub extern "C" fn propolisk_card_read(
    memory: &[u8],
    tab: u8,
    data: &mut [u8; layout::STORAGE_SIZE],
    length: &mut usize,
) -> u8
    ensures { record { number = result; shown = «data».new; length = length.new } ≡ read_outcome memory.now tab «data».old length.old }
{
    card_exports::propolisk_card_read(memory, tab, data, length)
}
