// What a packet changes of the devices, of the shelf and in the log of requests, as flags and numbers: these are the caller's, who makes the change.
ghost use Rattle.std.specs.Prelude.{◌≡◌, ◌≤◌};
ghost use Rattle.transaction.specs.Table.{pick};
ghost use Rattle.details.specs.Details.{fresh};
ghost use Rattle.plan.specs.Devices.{adds_device, address_of};
ghost use Rattle.packet.specs.After.{keeping, change_by, row_by, added_by, is_change, Placed, changed, shelved, requested};

use details::{Device, fresh_device, set_endpoint_type};
use group::Effect;
use plan::Plan;
use shelving::{Reading, Shelf, no_reading, put_request, reading_of, shelve};

// First row `place`, then what is read, then row `at`; where neither row changes, both are 0.
#[derive(Clone, Copy)]
pub struct Change {
    pub place: usize,
    pub at: usize,
    // What is laid by, and which request completes; that one's row goes to the place `row`.
    pub row: usize,
    pub reading: Reading,
    // Row `place` becomes that of a new device at the address `owner`.
    pub device: bool,
    // A split's type, `kind`, is stored in it for the endpoint `number`.
    pub types: bool,
    pub owner: u8,
    pub number: u8,
    pub kind: u8,
    // Row `at` becomes that of a new device at this address.
    pub adds: bool,
    pub address: u8,
}

pub fn no_change() -> Change
    ensures { result ≡ keeping }
{
    Change {
        device: false,
        types: false,
        place: 0,
        owner: 0,
        number: 0,
        kind: 0,
        adds: false,
        at: 0,
        address: 0,
        reading: no_reading(),
        row: 0,
    }
}

pub fn adds_device(effect: Effect) -> bool
    ensures { result ≡ adds_device effect }
{
    matches!(effect, Effect::NewDevice(_))
}

fn address_of(effect: Effect) -> u8
    ensures { result ≡ address_of effect }
{
    match effect {
        Effect::NewDevice(address) => address,
        _ => 0,
    }
}

// Of a packet with these steps, where there are n devices and the log holds `row` requests.
pub fn change_of(high: bool, plan: Plan, n: usize, row: usize) -> Change
    requires { n ≤ 64 }
    ensures { result ≡ change_by high plan n row }
{
    let begin = plan.begin;
    let adds = plan.closes & adds_device(plan.close.effect);
    let behind = n + usize::from(begin.device);
    Change {
        device: begin.device,
        types: begin.types,
        place: row_if(begin.device | begin.types, begin.place),
        owner: begin.owner,
        number: begin.number,
        kind: begin.kind,
        adds,
        at: row_if(adds, behind),
        address: address_of(plan.close.effect),
        reading: reading_of(high, plan),
        row,
    }
}

// A row that is changed, else the first.
fn row_if(on: bool, i: usize) -> usize
    ensures { result ≡ pick on i 0 }
{
    if on { i } else { 0 }
}

// Whether there is anything to do.
pub fn is_change(c: Change) -> bool
    ensures { result ≡ is_change c }
{
    let t = c.reading;
    (c.device | (c.types | c.adds)) | (t.keeps | t.asks)
}

// Row `place` then, by what it was.
pub fn row_by(c: Change, row: Device) -> Device
    ensures { result ≡ row_by c row }
{
    let row = device_if(c.device, c.owner, row);
    if c.types {
        set_endpoint_type(row, c.number, c.kind)
    } else {
        row
    }
}

// Row `at` then, by what it was.
pub fn added_by(c: Change, row: Device) -> Device
    ensures { result ≡ added_by c row }
{
    device_if(c.adds, c.address, row)
}

// A new device's row, or the row that there is.
fn device_if(new: bool, address: u8, row: Device) -> Device
    ensures { result ≡ pick new (fresh address) row }
{
    if new { fresh_device(address) } else { row }
}

// The change, made.
pub fn make_change(
    c: Change,
    devices: [Device; 64],
    packet: &[u8],
    shelf: &mut Shelf,
    requests: &mut [u64],
) -> [Device; 64]
    requires { Placed c packet.now requests.old }
    ensures value { result ≡ changed c packet.now shelf.old devices }
    ensures shelf_after { shelf.new ≡ shelved c packet.now shelf.old devices }
    ensures requests_after { requests.new ≡ requested c packet.now shelf.old devices requests.old }
{
    let mut devices = devices;
    let t = c.reading;
    devices[c.place] = row_by(c, devices[c.place]);
    let s = shelve(shelf, t, devices[t.place], packet);
    devices[t.place] = s.row;
    put_request(requests, c.row, t, s.note);
    devices[c.at] = added_by(c, devices[c.at]);
    devices
}
