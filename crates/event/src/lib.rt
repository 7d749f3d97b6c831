// What an event does to the event endpoint and to the event state, decided from values alone (document 000, event_update).
#![tactic(auto)]

ghost use Rattle.std.specs.Prelude.{◌≡◌, ◌≤◌, ◌^◌};
ghost use Rattle.rules.specs.Events.{turn_of, ◌then◌};
ghost use Rattle.rules.specs.declared.EventState.TheVariants.{Idle, LsKeepaliveGroup, AwaitDeviceChirp, PartialDeviceChirp, ValidDeviceChirp, AwaitHostChirp, PartialHostChirp, ValidHostChirp};
ghost use Rattle.event.specs.Event.{act_of, told, adds_row, adds_group};

use rules::EventState;

// Event kinds (01, Rules of a group); 7 is any other.
pub const LS_KEEPALIVE: u8 = 0;

pub const BUS_RESET: u8 = 1;

pub const SE0: u8 = 2;

pub const CHIRP_J: u8 = 3;

pub const CHIRP_K: u8 = 4;

pub const DEVICE_CHIRP_VALID: u8 = 5;

pub const HOST_CHIRP_VALID: u8 = 6;

// What an event does; the numbers are lines of docs/src/src/decoder.rs.
#[derive(Clone, Copy)]
pub enum Act {
    Nothing,
    // event_single: a group with an end row and no start row (655).
    Single,
    // event_group_start (659).
    Group,
    // event_subgroup_start (663).
    Subgroup,
    // A subgroup where there is a keepalive group, and else that group (611).
    Keepalive,
}

// What is done, and the state after it.
#[derive(Clone, Copy)]
pub struct Turn {
    pub act: Act,
    pub next: EventState,
}

fn to(act: Act, next: EventState) -> Turn
    ensures { told result ≡ (act_of act then next) }
{
    Turn { act, next }
}

// The rows of the Rust's match that hold in any state.
fn from_any(kind: u8) -> Turn
    ensures { told result ≡ turn_of Idle kind }
{
    match kind {
        LS_KEEPALIVE => to(Act::Keepalive, EventState::LsKeepaliveGroup),
        BUS_RESET => to(Act::Single, EventState::AwaitDeviceChirp),
        _ => to(Act::Single, EventState::Idle),
    }
}

fn from_keepalive_group(kind: u8) -> Turn
    ensures { told result ≡ turn_of LsKeepaliveGroup kind }
{
    match kind {
        LS_KEEPALIVE => to(Act::Nothing, EventState::LsKeepaliveGroup),
        _ => from_any(kind),
    }
}

fn from_await_device(kind: u8) -> Turn
    ensures { told result ≡ turn_of AwaitDeviceChirp kind }
{
    match kind {
        CHIRP_K => to(Act::Group, EventState::PartialDeviceChirp),
        _ => from_any(kind),
    }
}

fn from_partial_device(kind: u8) -> Turn
    ensures { told result ≡ turn_of PartialDeviceChirp kind }
{
    match kind {
        SE0 => to(Act::Nothing, EventState::AwaitDeviceChirp),
        DEVICE_CHIRP_VALID => to(Act::Nothing, EventState::ValidDeviceChirp),
        _ => from_any(kind),
    }
}

fn from_valid_device(kind: u8) -> Turn
    ensures { told result ≡ turn_of ValidDeviceChirp kind }
{
    match kind {
        SE0 => to(Act::Nothing, EventState::AwaitHostChirp),
        _ => from_any(kind),
    }
}

fn from_await_host(kind: u8) -> Turn
    ensures { told result ≡ turn_of AwaitHostChirp kind }
{
    match kind {
        CHIRP_K => to(Act::Subgroup, EventState::PartialHostChirp),
        _ => from_any(kind),
    }
}

fn from_partial_host(kind: u8) -> Turn
    ensures { told result ≡ turn_of PartialHostChirp kind }
{
    match kind {
        HOST_CHIRP_VALID => to(Act::Nothing, EventState::ValidHostChirp),
        SE0 | CHIRP_J | CHIRP_K => to(Act::Nothing, EventState::PartialHostChirp),
        _ => from_any(kind),
    }
}

fn from_valid_host(kind: u8) -> Turn
    ensures { told result ≡ turn_of ValidHostChirp kind }
{
    match kind {
        SE0 | CHIRP_J | CHIRP_K => to(Act::Nothing, EventState::ValidHostChirp),
        _ => from_any(kind),
    }
}

// What an event of this kind does in this state; a kind above 7 is as 7, though its call is refused (answer 4).
pub fn event_turn(state: EventState, kind: u8) -> Turn
    ensures { told result ≡ turn_of state kind }
{
    match state {
        EventState::Idle => from_any(kind),
        EventState::LsKeepaliveGroup => from_keepalive_group(kind),
        EventState::AwaitDeviceChirp => from_await_device(kind),
        EventState::PartialDeviceChirp => from_partial_device(kind),
        EventState::ValidDeviceChirp => from_valid_device(kind),
        EventState::AwaitHostChirp => from_await_host(kind),
        EventState::PartialHostChirp => from_partial_host(kind),
        EventState::ValidHostChirp => from_valid_host(kind),
    }
}

// Whether there is a transaction row, and its T row.
pub fn adds_row(act: Act) -> bool
    ensures { result ≡ adds_row (act_of act) }
{
    !matches!(act, Act::Nothing)
}

// Whether there is a group: its G row, group row, state row and item. keepalive says whether there is a keepalive group.
pub fn adds_group(act: Act, keepalive: bool) -> bool
    ensures { result ≡ adds_group (act_of act) keepalive }
{
    match act {
        Act::Nothing | Act::Subgroup => false,
        Act::Single | Act::Group => true,
        Act::Keepalive => !keepalive,
    }
}
