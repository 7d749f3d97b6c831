// The walk over the bytes that a request read, descriptor by descriptor (USB 2.0, 9.5 and 9.6), and what is taken of each.
ghost use Rattle.std.specs.Prelude.{◌≡◌, ◌≤◌, ◌<◌};
ghost use Rattle.descriptors.specs.Whole.{whole};
ghost use Rattle.descriptors.specs.Entries.{is_of, named, first_of, max_of, value_of, setting_after, gives_entry};
ghost use Rattle.descriptors.specs.Steps.{whole_at, step_at};

// The interface and alternate setting that endpoint descriptors belong to.
#[derive(Clone, Copy)]
pub struct Setting {
    pub interface: u8,
    pub alternate: u8,
}

// A whole descriptor: the setting of the entry that it gives, if it gives one, where it ends, and the setting behind it, once there is one.
#[derive(Clone, Copy)]
pub struct Step {
    pub gives: Option<Setting>,
    pub end: usize,
    pub setting: Option<Setting>,
}

// Types of descriptors (table 9-5).
const DEVICE: u8 = 1;

const CONFIGURATION: u8 = 2;

const INTERFACE: u8 = 4;

const ENDPOINT: u8 = 5;

// The shortest descriptor: its length and its type.
const SHORTEST: usize = 2;

// How long the whole descriptor at a place is, where there is one.
pub fn whole_at(payload: &[u8], at: usize) -> Option<usize>
    ensures { result ≡ whole_at payload.now at }
{
    let len = usize::from(*payload.get(at)?);
    if len < SHORTEST || payload.len() - at < len {
        return None;
    }
    Some(len)
}

fn is_of(d: &[u8], kind: u8, least: usize) -> bool
    requires { 2 ≤ least }
    ensures { result ≡ is_of kind least d.now }
{
    least <= d.len() && d[1] == kind
}

fn setting_after(d: &[u8], s: Option<Setting>) -> Option<Setting>
    ensures { result ≡ setting_after d.now s }
{
    if is_of(d, INTERFACE, 9) {
        Some(Setting {
            interface: d[2],
            alternate: d[3],
        })
    } else {
        s
    }
}

// Numbers 1 to 15 have a descriptor, and bits 6..4 are 0.
fn is_named(address: u8) -> bool
    ensures { result ≡ named address }
{
    matches!(address % 128, 1..=15)
}

fn gives_entry(d: &[u8], s: Option<Setting>) -> Option<Setting>
    ensures { result ≡ gives_entry d.now s }
{
    if is_of(d, ENDPOINT, 7) && is_named(d[2]) {
        s
    } else {
        None
    }
}

// One step of the walk.
pub fn read_step(payload: &[u8], at: usize, s: Option<Setting>) -> Option<Step>
    ensures { result ≡ step_at payload.now at s }
{
    let len = whole_at(payload, at)?;
    let end = at + len;
    let d = &payload[at..end];
    Some(Step {
        gives: gives_entry(d, s),
        end,
        setting: setting_after(d, s),
    })
}

// A byte of the first descriptor, if that is of this type.
fn first_of(payload: &[u8], kind: u8, least: usize, place: usize) -> Option<u8>
    requires le_least { 2 ≤ least }
    requires place_lt_least { place < least }
    ensures { result ≡ first_of kind least place (whole payload.now) }
{
    let len = whole_at(payload, 0)?;
    let d = &payload[..len];
    if is_of(d, kind, least) {
        Some(d[place])
    } else {
        None
    }
}

// The max of endpoint 0, by a device read.
pub fn read_max(payload: &[u8]) -> Option<u8>
    ensures { result ≡ max_of payload.now }
{
    first_of(payload, DEVICE, 18, 7)
}

// The value of the configuration that was read.
pub fn read_value(payload: &[u8]) -> Option<u8>
    ensures { result ≡ value_of payload.now }
{
    first_of(payload, CONFIGURATION, 9, 5)
}
