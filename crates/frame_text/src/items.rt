// The fields between COM and CRC that carry information, each with its name before it.
ghost use Rattle.std.specs.Prelude.{◌≡◌, ◌+◌, ◌≤◌, length};
ghost use Rattle.text.specs.Text.{Written};
ghost use Rattle.frame_text.specs.Words.{most_data, items_of, widths, data_words, item_words, items_words};

use frame::{Command, Fields};
use numbers::Octets;
use text::{put_hex, put_words};

// A field and the name that it has in a command's words.
#[derive(Clone, Copy, Debug, PartialEq, Eq)]
pub(crate) enum Item {
    Na1,
    Na1k,
    Na2,
    Na2k,
    Tab,
    Station,
    Data,
    Tabi,
}

// The fields of a command's words in their order.
#[tactic(auto, unfolding(crate::specs::Words::items_of))]
pub(crate) fn items_of(command: Command) -> &'static [Item]
    ensures { result.now ≡ items_of command }
{
    match command {
        Command::Enq => &[Item::Tab],
        Command::Dat | Command::Trf | Command::Trb => &[Item::Tab, Item::Data],
        Command::Rec => &[Item::Na1, Item::Tab, Item::Data],
        Command::Ech => &[Item::Na1k, Item::Na2, Item::Tab, Item::Data],
        Command::Aut => &[Item::Na2k],
        Command::Aso => &[Item::Tabi],
        Command::Rso => &[Item::Tab, Item::Station],
        Command::Eos
        | Command::Ib
        | Command::Drj
        | Command::Arj
        | Command::Tra
        | Command::Pre
        | Command::Sel => &[],
    }
}

// The fields of a command's words, where they fit.
pub(crate) fn put_items(
    buffer: &mut [u8],
    at: Octets,
    items: &[Item],
    fields: Fields,
    data: &[u8],
) -> Octets
    requires { (at.0 + widths items.now ≤ length buffer.old) × (length «data».now ≤ most_data) }
    ensures { Written buffer.old at.0 (items_words items.now fields «data».now) result.0 buffer.new }
{
    let mut next = at;
    for &item in items {
        next = put_item(buffer, next, item, fields, data);
    }
    next
}

#[tactic(auto, unfolding(crate::specs::Words::item_words))]
fn put_item(buffer: &mut [u8], at: Octets, item: Item, fields: Fields, data: &[u8]) -> Octets
    ensures { Written buffer.old at.0 (item_words item fields «data».now) result.0 buffer.new }
{
    match item {
        Item::Na1 => put_hex(buffer, at, b" NA1 ", &fields.za1),
        Item::Na1k => put_hex(buffer, at, b" NA1K ", &fields.za1),
        Item::Na2 => put_hex(buffer, at, b" NA2 ", &fields.za2),
        Item::Na2k => put_hex(buffer, at, b" NA2K ", &fields.za2),
        Item::Tab => put_hex(buffer, at, b" TAB ", &[fields.tab]),
        Item::Station => put_hex(buffer, at, b" ADS ", &fields.announced),
        Item::Data => put_data(buffer, at, data),
        Item::Tabi => put_hex(buffer, at, b" TABi ", data),
    }
}

// DATA of no octets is its name alone.
fn put_data(buffer: &mut [u8], at: Octets, data: &[u8]) -> Octets
    ensures { Written buffer.old at.0 (data_words «data».now) result.0 buffer.new }
{
    if data.is_empty() {
        return put_words(buffer, at, b" DATA");
    }
    put_hex(buffer, at, b" DATA ", data)
}
