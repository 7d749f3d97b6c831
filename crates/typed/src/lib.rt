// The detail record of an old trace (01, "Details and tables"; 02, 13): the type and the max of one endpoint of the device that stands for an address. No call
// for users: descriptors give these now, and no typed-in detail overrides one.
#![tactic(auto)]

ghost use Rattle.std.specs.Prelude.{not, ◌||◌};
ghost use Rattle.details.specs.Lookup.{found_device};
ghost use Rattle.record.specs.Formed.{well_formed};
ghost use Rattle.record.specs.Room.{long};
ghost use Rattle.call.specs.State.{logs, state};
ghost use Rattle.typed.specs.Detail.{Details};
ghost use Rattle.typed.specs.Judges.{Judged};

use call::{Called, is_ill, room_of};
use details::find::find_device;
use details::{Device, detail_answer, set_detail};
use endpoints::Table;
use record::{Counts, Decoder};

// The tests in their order: 1, 2, then 5 and 6. The row of the device, or the answer that refuses.
fn judged(
    d: Decoder,
    devices: [Device; 64],
    address: u8,
    number: u8,
    direction: u8,
    kind: u8,
    table: &Table,
    room: Counts,
) -> Result<usize, u8>
    ensures { Judged (long room || not (well_formed d devices table.now room)) d.finished number direction kind (found_device devices d.counts.devices address) result }
{
    if is_ill(d, devices, table, room) {
        return Err(1);
    }
    if d.finished {
        return Err(2);
    }
    let counts = d.counts;
    let found = find_device(devices, counts.devices, address);
    let answer = detail_answer(number, direction, kind, found);
    match found {
        Some(at) if answer == 0 => Ok(at),
        _ => Err(answer),
    }
}

// It appends nothing: the logs are lent for their lengths, and one entry of one device is stored.
pub fn detail(
    d: Decoder,
    devices: [Device; 64],
    address: u8,
    number: u8,
    direction: u8,
    kind: u8,
    max: u16,
    table: &Table,
    bytes: &[u8],
    device_rows: &[u64],
    endpoint_rows: &[u64],
    packets: &[u64],
    events: &[u64],
    transactions: &[u64],
    groups: &[u64],
    statebytes: &[u8],
    states: &[u64],
    items: &[u64],
    links: &[u64],
    requests: &[u64],
) -> Called
    ensures { Details address number direction kind max (state d devices table.now (logs bytes.now device_rows.now endpoint_rows.now packets.now events.now transactions.now groups.now statebytes.now states.now items.now links.now requests.now)) result.answer (state result.decoder result.devices table.now (logs bytes.now device_rows.now endpoint_rows.now packets.now events.now transactions.now groups.now statebytes.now states.now items.now links.now requests.now)) }
{
    let room = room_of(
        bytes.len(),
        device_rows.len(),
        endpoint_rows.len(),
        packets.len(),
        events.len(),
        transactions.len(),
        groups.len(),
        statebytes.len(),
        states.len(),
        items.len(),
        links.len(),
        requests.len(),
    );
    let at = match judged(d, devices, address, number, direction, kind, table, room) {
        Ok(at) => at,
        Err(answer) => {
            return Called {
                answer,
                decoder: d,
                devices,
            };
        },
    };
    let device = devices[at];
    let mut changed = devices;
    changed[at] = set_detail(device, number, direction, kind, max);
    Called {
        answer: 0,
        decoder: d,
        devices: changed,
    }
}
