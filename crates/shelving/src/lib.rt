// What a packet does to the shelf and to the row of a device (change request 2): the payload that it brings to a read is laid by, and a request that completes is
// read. As of the devices, flags and numbers are told by the packet's plan, and the caller, who has the shelf and the devices, does it when the packet is accepted.
#![tactic(auto)]

ghost use Rattle.std.specs.Prelude.{◌≡◌, ◌<◌, ◌≤◌, length};
ghost use Rattle.transaction.specs.Table.{pick};
ghost use Rattle.plan.specs.Devices.{asks, length_of};
ghost use Rattle.plan.specs.Packet.{keeps};
ghost use Rattle.rules.specs.Transactions.{is_payload, is_kept};
ghost use Rattle.shelving.specs.Shelve.{is_asked, reading_of, resting, asked_with, LongIf, RoomIf, laid_shelf, Shelves, request_after};

use descriptors::complete::{Asked, complete, row_after};
use descriptors::payload::{is_laid, lay};
use descriptors::request::kind_of;
use details::Device;
use endpoints::Endpoint;
use group::Effect;
use plan::Plan;
use rows::width;
use transaction::payload::{takes_setup, yields};
use transaction::{Style, Transaction};
use usb::pid::DATA0;

// The bytes of a device's part of the shelf, and a shelf for 64 devices.
const PART: usize = 8192;

pub type Shelf = [u8; 524288];

// The packet's payload is laid by where `keeps`: in the part of the device `device`, behind `count` bytes. A request completes where `asks`: on the device `place`,
// with these setup data and a payload of this length, on the endpoint `endpoint`. Where not, the device is the first.
#[derive(Clone, Copy)]
pub struct Reading {
    pub device: usize,
    pub count: usize,
    pub endpoint: usize,
    pub place: usize,
    pub setup: u64,
    pub length: u64,
    pub keeps: bool,
    pub asks: bool,
}

// The note of the request's row, 0 where none completes, and the device's row then.
#[derive(Clone, Copy)]
pub struct Shelved {
    pub note: u64,
    pub row: Device,
}

// Whether a packet brings a payload that is no setup data; high is the decoder's mode.
fn is_payload(high: bool, style: Style, pid: u8) -> bool
    ensures { result ≡ is_payload high style pid }
{
    let setup = takes_setup(style);
    let payload = yields(high, pid);
    payload & !((pid == DATA0) & setup)
}

// Whether it is laid by: where the setup data of its endpoint are a read.
pub fn is_kept(high: bool, t: Transaction, e: Endpoint, pid: u8) -> bool
    ensures { result ≡ is_kept high t e pid }
{
    let payload = is_payload(high, t.style, pid);
    let read = is_laid(kind_of(e.setup));
    payload & (!(t.endpoint == 0) & read)
}

// Whether a packet with this plan has its payload laid by.
fn keeps_payload(high: bool, p: Plan) -> bool
    ensures { result ≡ keeps high p }
{
    let kept = is_kept(high, p.brought, p.end.entry, p.begin.transaction.last);
    !p.begin.row & kept
}

// Whether an end is that of a request.
pub fn is_request(effect: Effect) -> bool
    ensures { result ≡ asks effect }
{
    matches!(effect, Effect::Request(_))
}

// The length of its payload.
fn length_of(effect: Effect) -> u64
    ensures { result ≡ length_of effect }
{
    match effect {
        Effect::Request(n) => n,
        _ => 0,
    }
}

// Whether a packet with this plan completes a request.
fn is_asked(p: Plan) -> bool
    ensures { result ≡ is_asked p }
{
    p.closes & is_request(p.close.effect)
}

// A device that something is done for, else the first.
fn device_if(on: bool, device: u64) -> usize
    ensures { result ≡ pick on device 0 }
{
    if on { device as usize } else { 0 }
}

// Nothing.
pub fn no_reading() -> Reading
    ensures { result ≡ resting }
{
    Reading {
        keeps: false,
        device: 0,
        count: 0,
        asks: false,
        endpoint: 0,
        place: 0,
        setup: 0,
        length: 0,
    }
}

// What a packet with this plan does.
pub fn reading_of(high: bool, p: Plan) -> Reading
    ensures { result ≡ reading_of high p }
{
    let old = p.end.entry;
    let e = p.close.entry;
    let keeps = keeps_payload(high, p);
    let asks = is_asked(p);
    Reading {
        keeps,
        device: device_if(keeps, old.device),
        count: old.payload as usize,
        asks,
        endpoint: p.begin.transaction.endpoint,
        place: device_if(asks, e.device),
        setup: e.setup,
        length: length_of(p.close.effect),
    }
}

// The payload, behind the bytes of its request that count so far.
fn lay_payload(shelf: &mut [u8], t: Reading, packet: &[u8])
    requires in_bounds { 524288 ≤ length shelf.old }
    requires device_bound { t.device < 64 }
    requires long_if { LongIf t packet.now }
    ensures { shelf.new ≡ laid_shelf t packet.now shelf.old }
{
    if t.keeps {
        let start = t.device * PART;
        lay(shelf, start, t.count, packet);
    }
}

// What a request is asked, by the row of its device.
fn asked_of(t: Reading, kept: u16, chosen: u16) -> Asked
    requires { t.place < 64 }
    ensures { result ≡ asked_with t kept chosen }
{
    let start = t.place * PART;
    Asked {
        setup: t.setup,
        length: t.length,
        start,
        kept,
        chosen,
    }
}

// Both, the payload first; `row` is that of the device `place`.
pub fn shelve(shelf: &mut [u8], t: Reading, row: Device, packet: &[u8]) -> Shelved
    requires in_bounds { 524288 ≤ length shelf.old }
    requires device_bound { t.device < 64 }
    requires place_bound { t.place < 64 }
    requires long_if { LongIf t packet.now }
    ensures { Shelves t row packet.now shelf.old shelf.new result }
{
    lay_payload(shelf, t, packet);
    if t.asks {
        let a = asked_of(t, row.kept, row.chosen);
        let c = complete(shelf, a);
        let row = row_after(row, a, c, shelf);
        return Shelved { note: c.note, row };
    }
    Shelved { note: 0, row }
}

// The row of a request that completes, as row `at`.
pub fn put_request(requests: &mut [u64], at: usize, t: Reading, note: u64)
    requires { RoomIf t at requests.old }
    ensures { requests.new ≡ request_after t at note requests.old }
{
    if t.asks {
        rows::put(
            requests,
            at * width::REQUEST,
            &[t.endpoint as u64, t.setup, t.length, note],
        );
    }
}
