// What each command's frame has between COM and CRC (01, Frames).
ghost use Rattle.std.specs.Prelude.{◌≡◌};
ghost use Rattle.frame.specs.Layout.{layout_of, width, places_of};

use crate::codes::Command;
use crate::sizes::{
    ADDRESS_WIDTH, FIELDS_AT, MOST_PROGRAMMED, MOST_TABS, MOST_TRANSFERRED, NUMBER_WIDTH, TAB_WIDTH,
};
use numbers::Octets;

// Whether a command has a field, and whether the field carries a value or is always zero.
#[derive(Clone, Copy, Debug, PartialEq, Eq)]
pub enum Presence {
    Absent,
    Zero,
    Carried,
}

// ZA1, ZA2, TAB and RSO's second ADS, in this order, then DATA from least to most octets.
#[derive(Clone, Copy)]
pub struct Layout {
    pub za1: Presence,
    pub za2: Presence,
    pub tab: Presence,
    pub announced: Presence,
    pub least: Octets,
    pub most: Octets,
}

// The offsets of the fields after ZA1, which is the first; content is DATA's.
#[derive(Clone, Copy)]
pub struct Places {
    pub za2: Octets,
    pub tab: Octets,
    pub announced: Octets,
    pub content: Octets,
}

// No field and no DATA.
const BARE: Layout = Layout {
    za1: Presence::Absent,
    za2: Presence::Absent,
    tab: Presence::Absent,
    announced: Presence::Absent,
    least: Octets(0),
    most: Octets(0),
};

// TAB alone.
const TABBED: Layout = Layout {
    tab: Presence::Carried,
    ..BARE
};

#[tactic(auto, unfolding(crate::specs::Layout::layout_of))]
pub(crate) fn layout_of(command: Command) -> Layout
    ensures { result ≡ layout_of command }
{
    match command {
        Command::Enq => TABBED,
        Command::Dat | Command::Trf | Command::Trb => Layout {
            most: Octets(MOST_TRANSFERRED),
            ..TABBED
        },
        Command::Rec => Layout {
            za1: Presence::Carried,
            za2: Presence::Zero,
            most: Octets(MOST_PROGRAMMED),
            ..TABBED
        },
        Command::Ech => Layout {
            za1: Presence::Carried,
            za2: Presence::Carried,
            most: Octets(MOST_PROGRAMMED),
            ..TABBED
        },
        Command::Aut => Layout {
            za1: Presence::Zero,
            za2: Presence::Carried,
            ..BARE
        },
        Command::Eos => Layout {
            za1: Presence::Zero,
            za2: Presence::Zero,
            ..BARE
        },
        Command::Aso => Layout {
            least: Octets(1),
            most: Octets(MOST_TABS),
            ..BARE
        },
        Command::Rso => Layout {
            announced: Presence::Carried,
            ..TABBED
        },
        Command::Ib | Command::Drj | Command::Arj | Command::Tra | Command::Pre | Command::Sel =>
            BARE,
    }
}

// The octets that a field of n octets takes.
fn width_of(presence: Presence, n: usize) -> usize
    ensures { result ≡ width presence n }
{
    match presence {
        Presence::Absent => 0,
        Presence::Zero | Presence::Carried => n,
    }
}

pub(crate) fn places_of(layout: Layout) -> Places
    ensures { result ≡ places_of layout }
{
    let za2 = FIELDS_AT + width_of(layout.za1, NUMBER_WIDTH);
    let tab = za2 + width_of(layout.za2, NUMBER_WIDTH);
    let announced = tab + width_of(layout.tab, TAB_WIDTH);
    let content = announced + width_of(layout.announced, ADDRESS_WIDTH);
    Places {
        za2: Octets(za2),
        tab: Octets(tab),
        announced: Octets(announced),
        content: Octets(content),
    }
}
