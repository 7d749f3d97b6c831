// The enums of a record as numbers. A number that is none of an enum's is read as its first variant.
ghost use Rattle.std.specs.Prelude.{◌≡◌};
ghost use Rattle.handle.specs.Words.{style_of, style_words, slot_of, slot_word, event_of, event_word};

use rules::{EventState, Slot};
use transaction::Style;

// A style's number, and the bytes that it has; 0 for those that it has not.
#[derive(Clone, Copy)]
pub struct Numbers {
    pub style: u64,
    pub sc: u8,
    pub kind: u8,
    pub pid: u8,
}

// Those of no style.
const NONE: Numbers = Numbers {
    style: 0,
    sc: 0,
    kind: 0,
    pid: 0,
};

const SIMPLE: u64 = 1;

const SPLIT: u64 = 2;

const TOKEN: u64 = 3;

pub fn style_of(style: u64, sc: u8, kind: u8, pid: u8) -> Style
    ensures { result ≡ style_of style sc kind pid }
{
    match style {
        SIMPLE => Style::Simple(pid),
        SPLIT => Style::Split(sc, kind),
        TOKEN => Style::Token(sc, kind, pid),
        _ => Style::Nothing,
    }
}

pub fn style_words(style: Style) -> Numbers
    ensures { result ≡ style_words style }
{
    match style {
        Style::Nothing => NONE,
        Style::Simple(pid) => Numbers {
            style: SIMPLE,
            pid,
            ..NONE
        },
        Style::Split(sc, kind) => Numbers {
            style: SPLIT,
            sc,
            kind,
            ..NONE
        },
        Style::Token(sc, kind, pid) => Numbers {
            style: TOKEN,
            sc,
            kind,
            pid,
        },
    }
}

const CURRENT: u64 = 1;

const SUSPENDED: u64 = 2;

pub fn slot_of(word: u64) -> Slot
    ensures { result ≡ slot_of word }
{
    match word {
        CURRENT => Slot::Current,
        SUSPENDED => Slot::Suspended,
        _ => Slot::Empty,
    }
}

pub fn slot_word(slot: Slot) -> u64
    ensures { result ≡ slot_word slot }
{
    slot as u64
}

const LS_KEEPALIVE_GROUP: u64 = 1;

const AWAIT_DEVICE_CHIRP: u64 = 2;

const PARTIAL_DEVICE_CHIRP: u64 = 3;

const VALID_DEVICE_CHIRP: u64 = 4;

const AWAIT_HOST_CHIRP: u64 = 5;

const PARTIAL_HOST_CHIRP: u64 = 6;

const VALID_HOST_CHIRP: u64 = 7;

pub fn event_of(word: u64) -> EventState
    ensures { result ≡ event_of word }
{
    match word {
        LS_KEEPALIVE_GROUP => EventState::LsKeepaliveGroup,
        AWAIT_DEVICE_CHIRP => EventState::AwaitDeviceChirp,
        PARTIAL_DEVICE_CHIRP => EventState::PartialDeviceChirp,
        VALID_DEVICE_CHIRP => EventState::ValidDeviceChirp,
        AWAIT_HOST_CHIRP => EventState::AwaitHostChirp,
        PARTIAL_HOST_CHIRP => EventState::PartialHostChirp,
        VALID_HOST_CHIRP => EventState::ValidHostChirp,
        _ => EventState::Idle,
    }
}

pub fn event_word(event: EventState) -> u64
    ensures { result ≡ event_word event }
{
    event as u64
}
