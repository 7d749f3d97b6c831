// What is known of devices and their endpoints (endpoint_details and set_endpoint_type of capture.rs, by document 01's rules), and the search for a device.
#![tactic(auto)]

pub mod find;
pub mod kind;

ghost use Rattle.std.specs.Prelude.{◌≡◌, ◌<◌};
ghost use Rattle.details.specs.Details.{entry_for, bare, ordinary, details_of, with_type, detail_entry, with_detail, with_given, fresh};
ghost use Rattle.details.specs.Lookup.{detail_answer};

use usb::types;

// What is known of an endpoint: its type, whether a descriptor gave it, and the largest payload it sends (0 where it is not known).
#[derive(Clone, Copy)]
pub struct Detail {
    pub kind: u8,
    pub given: bool,
    pub max: u16,
}

// A device row: its address, the configuration that is chosen (256 and more: none is), how many descriptor entries it keeps, and the details of its 16
// endpoint numbers, out (0 to 15) and then in (16 to 31).
#[derive(Clone, Copy)]
pub struct Device {
    pub address: u8,
    pub chosen: u16,
    pub kept: u16,
    pub details: [Detail; 32],
}

pub const CONTROL_EP_NUM: u8 = 0;

pub const EVENT_EP_NUM: u8 = 0x10;

pub const INVALID_EP_NUM: u8 = 0x11;

pub const FRAMING_EP_NUM: u8 = 0x12;

// No configuration is chosen.
pub const UNCHOSEN: u16 = 256;

// Document 01's answers to a detail call.
const WRONG: u8 = 5;

const NO_DEVICE: u8 = 6;

// A kind with no max known.
fn bare_kind(kind: u8) -> Detail
    ensures { result ≡ bare kind }
{
    Detail {
        kind,
        given: false,
        max: 0,
    }
}

// The entry of an ordinary address: its number, and 16 more where its direction is In.
fn entry_for(address: u8) -> usize
    ensures { result ≡ entry_for address }
{
    (address % 128 + 16 * (address / 128)) as usize
}

fn ordinary_details(device: Device, address: u8) -> Detail
    ensures { result ≡ ordinary device address }
{
    if address % 128 < 16 {
        device.details[entry_for(address)]
    } else {
        bare_kind(kind::UNKNOWN)
    }
}

#[tactic(auto, unfolding(crate::specs::Details::details_of))]
pub fn endpoint_details(device: Device, address: u8) -> Detail
    ensures { result ≡ details_of device address }
{
    match address % 128 {
        EVENT_EP_NUM => bare_kind(kind::EVENT),
        INVALID_EP_NUM => bare_kind(kind::INVALID),
        FRAMING_EP_NUM => bare_kind(kind::FRAMING),
        CONTROL_EP_NUM => Detail {
            kind: types::CONTROL,
            ..device.details[0]
        },
        _ => ordinary_details(device, address),
    }
}

// A split's type is stored only where none is known, and never for number 0.
#[tactic(auto, unfolding(crate::specs::Details::with_type))]
pub fn set_endpoint_type(mut device: Device, address: u8, kind: u8) -> Device
    ensures { result ≡ with_type device address kind }
{
    let number = address % 128;
    if number != CONTROL_EP_NUM && number < 16 {
        let at = entry_for(address);
        if device.details[at].kind == kind::UNKNOWN {
            device.details[at].kind = kind;
        }
    }
    device
}

// The entry of a detail call: number 0 is kept as out.
fn detail_entry(number: u8, direction: u8) -> usize
    requires number_bound { number < 16 }
    requires direction_bound { direction < 2 }
    ensures { result ≡ detail_entry number direction }
{
    if number == CONTROL_EP_NUM {
        return 0;
    }
    (number + 16 * direction) as usize
}

// A typed-in detail sets both type and max, except where a descriptor gave them.
#[tactic(auto, unfolding(crate::specs::Details::with_detail))]
pub fn set_detail(mut device: Device, number: u8, direction: u8, kind: u8, max: u16) -> Device
    requires number_bound { number < 16 }
    requires direction_bound { direction < 2 }
    ensures { result ≡ with_detail device number direction kind max }
{
    let at = detail_entry(number, direction);
    let before = device.details[at];
    if !before.given {
        device.details[at] = Detail {
            kind,
            max,
            ..before
        };
    }
    device
}

// A descriptor sets both, and that it gave them.
#[tactic(auto, unfolding(crate::specs::Details::with_given))]
pub fn set_given(mut device: Device, number: u8, direction: u8, kind: u8, max: u16) -> Device
    requires number_bound { number < 16 }
    requires direction_bound { direction < 2 }
    ensures { result ≡ with_given device number direction kind max }
{
    device.details[detail_entry(number, direction)] = Detail {
        kind,
        given: true,
        max,
    };
    device
}

// A device of which nothing is known.
#[tactic(auto, unfolding(crate::specs::Details::fresh))]
pub fn fresh_device(address: u8) -> Device
    ensures { result ≡ fresh address }
{
    Device {
        address,
        chosen: UNCHOSEN,
        kept: 0,
        details: [bare_kind(kind::UNKNOWN); 32],
    }
}

// The answer to a detail call; found is the search for its device.
#[tactic(auto, unfolding(crate::specs::Lookup::detail_answer))]
pub fn detail_answer(number: u8, direction: u8, kind: u8, found: Option<usize>) -> u8
    ensures { result ≡ detail_answer number direction kind found }
{
    if 15 < number || 3 < kind || 1 < direction {
        return WRONG;
    }
    if number == CONTROL_EP_NUM && kind != types::CONTROL {
        return WRONG;
    }
    match found {
        Some(_) => 0,
        None => NO_DEVICE,
    }
}
