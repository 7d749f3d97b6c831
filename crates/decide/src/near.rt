// What a packet's steps go by of the devices, taken once, so that neither the devices nor a row of them need be handed on.
ghost use Rattle.std.specs.Prelude.{◌≡◌, ◌<◌};
ghost use Rattle.endpoints.specs.Table.{entry_at};
ghost use Rattle.record.specs.World.{world_of};
ghost use Rattle.plan.specs.Packet.{old_endpoint};
ghost use Rattle.decide.specs.Ready.{Ready};
ghost use Rattle.decide.specs.Near.{Seen, place_in, near_by};

use crate::place::address_for;
use crate::slot::old_endpoint;
use details::find::find_device;
use details::{Detail, Device, endpoint_details};
use endpoints::entry::load;
use endpoints::{Endpoint, Table};
use record::Decoder;
use usb::fields::token_of;
use usb::pid::IN;

// The device that stands for the packet's address; the details of the packet's endpoint there, in either direction; those of the old transaction's.
#[derive(Clone, Copy)]
pub struct Near {
    pub found: Option<usize>,
    pub inward: Detail,
    pub outward: Detail,
    pub old: Detail,
}

// The place of a device that was found, else the first.
pub fn place_in(found: Option<usize>) -> usize
    ensures { result ≡ place_in found }
{
    found.unwrap_or(0)
}

// The entry of the endpoint of the transaction that is held.
pub fn old_entry(d: Decoder, table: &Table) -> Endpoint
    requires { Ready d table.now }
    ensures { result ≡ entry_at table.now (old_endpoint d.slot d.transaction) }
{
    load(table, old_endpoint(d.slot, d.transaction))
}

// By the row of the device that was found, the number in the packet's token, and the details of the old transaction's endpoint.
pub fn near_of(found: Option<usize>, number: u8, row: Device, old: Detail) -> Near
    requires { number < 16 }
    ensures { result ≡ near_by found number row old }
{
    let inward = endpoint_details(row, address_for(IN, number));
    let outward = endpoint_details(row, number);
    Near {
        found,
        inward,
        outward,
        old,
    }
}

pub fn look(d: Decoder, devices: [Device; 64], table: &Table, packet: &[u8]) -> Near
    requires { Ready d table.now }
    ensures { Seen result (old_endpoint d.slot d.transaction) packet.now (world_of d devices table.now) }
{
    let counts = d.counts;
    let token = token_of(packet);
    let found = find_device(devices, counts.devices, token.address);
    let place = place_in(found);
    let e = old_entry(d, table);
    let owner = e.device as usize;
    let row = devices[place];
    let held = devices[owner];
    let old = endpoint_details(held, e.address);
    near_of(found, token.number, row, old)
}
