// What a packet goes by of the devices (decide::near), where their addresses are kept beside them: first where to look, then what is found there.
ghost use Rattle.std.specs.Prelude.{◌≡◌, ◌<◌};
ghost use Rattle.details.specs.Details.{details_of};
ghost use Rattle.decide.specs.Near.{near_by};
ghost use Rattle.decide.specs.Ready.{Ready};
ghost use Rattle.stream.specs.Addresses.{sight_of};

use crate::address::find_address;
use decide::near::{Near, near_of, old_entry, place_in};
use details::{Device, endpoint_details};
use endpoints::Table;
use record::Decoder;
use usb::fields::token_of;

// The device that stands for the packet's address, its place, and the number in the packet's token; the device and the address of the old transaction's endpoint.
#[derive(Clone, Copy)]
pub struct Sight {
    pub found: Option<usize>,
    pub place: usize,
    pub number: u8,
    pub owner: usize,
    pub address: u8,
}

pub fn sight_of(addresses: [u8; 64], d: Decoder, table: &Table, packet: &[u8]) -> Sight
    requires { Ready d table.now }
    ensures { result ≡ sight_of addresses d table.now packet.now }
{
    let counts = d.counts;
    let token = token_of(packet);
    let found = find_address(addresses, counts.devices, token.address);
    let place = place_in(found);
    let e = old_entry(d, table);
    Sight {
        found,
        place,
        number: token.number,
        owner: e.device as usize,
        address: e.address,
    }
}

pub fn near_by(s: Sight, row: Device, held: Device) -> Near
    requires { s.number < 16 }
    ensures { result ≡ near_by s.found s.number row (details_of held s.address) }
{
    let found = s.found;
    let old = endpoint_details(held, s.address);
    near_of(found, s.number, row, old)
}
