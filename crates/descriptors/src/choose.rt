// What SET_CONFIGURATION and SET_INTERFACE do (USB 2.0, 9.4.7 and 9.4.10): the entries that they mean set the details of their endpoints.
ghost use Rattle.std.specs.Prelude.{◌≡◌, ◌+◌, ◌≤◌, true, length, take, drop};
ghost use Rattle.usb.specs.Fields.{setup_of};
ghost use Rattle.descriptors.specs.Store.{stored_at};
ghost use Rattle.descriptors.specs.Chosen.{configuration_choice, interface_choice, is_meant, is_chosen, set_from, set_if, applied, count_set};

use details::Device;

// Which entries a request means: those of a configuration, of one interface or (none) of all, at an alternate setting.
#[derive(Clone, Copy)]
pub struct Choice {
    pub value: u16,
    pub interface: Option<u16>,
    pub alternate: u16,
}

// SET_CONFIGURATION: all interfaces of the configuration, at alternate setting 0.
pub fn configuration_choice(setup: u64) -> Choice
    ensures { result ≡ configuration_choice (setup_of setup) }
{
    Choice {
        value: usb::fields::value(setup),
        interface: None,
        alternate: 0,
    }
}

// SET_INTERFACE: one interface of the configuration that is chosen, at an alternate setting.
pub fn interface_choice(setup: u64, chosen: u16) -> Choice
    ensures { result ≡ interface_choice (setup_of setup) chosen }
{
    Choice {
        value: chosen,
        interface: Some(usb::fields::index(setup)),
        alternate: usb::fields::value(setup),
    }
}

fn is_meant(c: Choice, value: u8, interface: u8, alternate: u8) -> bool
    ensures { result ≡ is_meant c value interface alternate }
{
    u16::from(value) == c.value
        && c.interface.is_none_or(|i| u16::from(interface) == i)
        && u16::from(alternate) == c.alternate
}

// Whether the entry at a place is meant.
fn is_chosen(c: Choice, store: &[u8], from: usize) -> bool
    requires { from + 7 ≤ length store.now }
    ensures { result ≡ is_chosen c (take 7 (drop from store.now)) }
{
    is_meant(c, store[from], store[from + 1], store[from + 2])
}

// The details of an endpoint, by four bytes of its descriptor.
fn set_from(device: Device, address: u8, attributes: u8, low: u8, high: u8) -> Device
    ensures { result ≡ set_from address attributes low high device }
{
    let number = address % 16;
    let direction = address / 128 % 2;
    let kind = attributes % 4;
    let max = usb::fields::pair(low, high) % 2048;
    details::set_given(device, number, direction, kind, max)
}

// The details of the endpoint of the entry at a place.
fn set_entry(device: Device, store: &[u8], from: usize) -> Device
    requires { from + 7 ≤ length store.now }
    ensures { result ≡ set_if true (take 7 (drop from store.now)) device }
{
    set_from(
        device,
        store[from + 3],
        store[from + 4],
        store[from + 5],
        store[from + 6],
    )
}

// The entries of the store that are meant set the details, in their order.
pub fn apply(device: Device, choice: Choice, store: &[u8], base: usize, kept: usize) -> Device
    requires kept_bound { kept ≤ 585 }
    requires base_in_bounds { base + 4095 ≤ length store.now }
    ensures { result ≡ applied choice (stored_at base kept store.now) device }
{
    let mut d = device;
    for i in 0..kept {
        let from = base + i * 7;
        if is_chosen(choice, store, from) {
            d = set_entry(d, store, from);
        }
    }
    d
}

// How many they are.
pub fn count_set(choice: Choice, store: &[u8], base: usize, kept: usize) -> usize
    requires kept_bound { kept ≤ 585 }
    requires base_in_bounds { base + 4095 ≤ length store.now }
    ensures { result ≡ count_set choice (stored_at base kept store.now) }
{
    let mut n = 0;
    for i in 0..kept {
        if is_chosen(choice, store, base + i * 7) {
            n += 1;
        }
    }
    n
}
