// The endpoint of a packet (packet_endpoint of decoder.rs and of capture.rs), found but not added.
ghost use Rattle.std.specs.Prelude.{◌≡◌, ◌<◌, ◌≤◌, [], ◌==◌};
ghost use Rattle.usb.specs.Pid.{SETUP, IN, OUT, PING};
ghost use Rattle.transaction.specs.Table.{pick, only, ◌or◌};
ghost use Rattle.endpoints.specs.Table.{entry_at};
ghost use Rattle.rules.specs.Endpoints.{address_for, endpoint_lookup};
ghost use Rattle.record.specs.World.{world_of};
ghost use Rattle.plan.specs.Packet.{place_of};
ghost use Rattle.decide.specs.Ready.{Ready};
ghost use Rattle.decide.specs.Near.{ForSeen, found_on, detail_by, standing_on, new_by};

use crate::near::Near;
use details::{Detail, endpoint_details, fresh_device, kind};
use endpoints::entry::{load, new_endpoint};
use endpoints::find::find_endpoint;
use endpoints::{Endpoint, Table};
use plan::Place;
use record::Decoder;
use usb::fields::token_of;
use usb::pid::{IN, OUT, PING, SETUP, SOF};

// INVALID_EP_ID and FRAMING_EP_ID of the Rust.
pub const INVALID_EP_ID: usize = 1;

const FRAMING_EP_ID: usize = 2;

// The address of an endpoint: its number, and 128 more where the direction is In.
pub fn address_for(pid: u8, number: u8) -> u8
    requires { number < 16 }
    ensures { result ≡ address_for pid number }
{
    if pid == IN {
        if number != 0 {
            return number + 128;
        }
    }
    number
}

fn is_token(pid: u8) -> bool
    ensures { result ≡ (SETUP or IN or OUT or only PING) pid }
{
    (pid == SETUP) | ((pid == IN) | ((pid == OUT) | (pid == PING)))
}

// endpoint_lookup of capture.rs, on the device that was found.
fn endpoint_lookup(device: Option<usize>, address: u8, d: Decoder, table: &Table) -> Option<usize>
    requires { d.counts.endpoints ≤ 128 }
    ensures { result ≡ endpoint_lookup device address (world_of d [] table.now) }
{
    find_endpoint(table, d.counts.endpoints, device? as u64, address)
}

// packet_endpoint of capture.rs.
pub fn find_place(pid: u8, packet: &[u8], d: Decoder, near: Near, table: &Table) -> Option<usize>
    requires { d.counts.endpoints ≤ 128 }
    ensures { result ≡ found_on near.found pid packet.now (world_of d [] table.now) }
{
    if pid == SOF {
        return Some(FRAMING_EP_ID);
    }
    if is_token(pid) {
        let token = token_of(packet);
        let address = address_for(pid, token.number);
        let device = near.found;
        endpoint_lookup(device, address, d, table)
    } else {
        Some(INVALID_EP_ID)
    }
}

// The entry of endpoint i by then; x0 is the old transaction's endpoint, and e0 its entry.
fn entry_by(x0: usize, e0: Endpoint, i: usize, e: Endpoint) -> Endpoint
    ensures { result ≡ pick (i == x0) e0 e }
{
    if i == x0 { e0 } else { e }
}

// An endpoint that is there, with its details.
pub fn stand_at(x0: usize, e0: Endpoint, i: usize, detail: Detail, table: &Table) -> Place
    requires { i < 128 }
    ensures { result ≡ standing_on x0 e0 i detail (entry_at table.now i) }
{
    let e = load(table, i);
    let place = e.device as usize;
    let number = e.address;
    let entry = entry_by(x0, e0, i, e);
    Place {
        x: i,
        new: false,
        device: false,
        place,
        number,
        detail,
        entry,
    }
}

// A new endpoint (add_endpoint), with a new device where the address has none.
fn new_on(owner: u8, address: u8, d: Decoder, found: Option<usize>, detail: Detail) -> Place
    ensures { result ≡ new_by found detail owner address d.counts }
{
    let counts = d.counts;
    let x = counts.endpoints;
    match found {
        Some(place) => {
            let entry = new_endpoint(place as u64, address);
            Place {
                x,
                new: true,
                device: false,
                place,
                number: address,
                detail,
                entry,
            }
        }
        None => {
            let place = counts.devices;
            let detail = endpoint_details(fresh_device(owner), address);
            let entry = new_endpoint(place as u64, address);
            Place {
                x,
                new: true,
                device: true,
                place,
                number: address,
                detail,
                entry,
            }
        }
    }
}

// The details of a packet's endpoint: a special one has a kind of its own.
pub fn detail_by(pid: u8, near: Near) -> Detail
    ensures { result ≡ detail_by pid near }
{
    if pid == SOF {
        return Detail {
            kind: kind::FRAMING,
            given: false,
            max: 0,
        };
    }
    if is_token(pid) {
        if pid == IN { near.inward } else { near.outward }
    } else {
        Detail {
            kind: kind::INVALID,
            given: false,
            max: 0,
        }
    }
}

// packet_endpoint.
pub fn packet_endpoint(
    x0: usize,
    e0: Endpoint,
    pid: u8,
    packet: &[u8],
    d: Decoder,
    near: Near,
    table: &Table,
) -> Place
    requires { Ready d table.now }
    ensures { ForSeen near x0 packet.now d table.now (λ w. result ≡ place_of x0 e0 pid packet.now w) }
{
    let found = find_place(pid, packet, d, near, table);
    let detail = detail_by(pid, near);
    match found {
        Some(i) => stand_at(x0, e0, i, detail, table),
        None => {
            let token = token_of(packet);
            let address = address_for(pid, token.number);
            let device = near.found;
            new_on(token.address, address, d, device, detail)
        }
    }
}
