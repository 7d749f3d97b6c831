// One record by its public call, which tests the record anew; and what stands where there is no whole record.
#![tactic(auto)]

ghost use Rattle.std.specs.Prelude.{◌≡◌};
ghost use Rattle.trace.specs.Trace.{next_at};
ghost use Rattle.call.specs.State.{state, logs};
ghost use Rattle.step.specs.Block.{stand};
ghost use Rattle.step.specs.Step.{Steps};

use details::Device;
use endpoints::Table;
use events::event;
use packet::packet;
use record::Decoder;
use shelving::Shelf;
use step::{DETAIL_IN_BLOCK, Stepped, over, went};
use trace::Next;
use trace::clock::{Clock, tick};
use typed::detail;

// What was found at this place: a record, as its call; or no whole record, or a detail where `typed` is false, as in a block, and then nothing is called.
pub fn single_step(
    typed: bool,
    found: Next,
    records: &[u8],
    at: usize,
    clock: Clock,
    d: Decoder,
    devices: [Device; 64],
    table: &mut Table,
    bytes: &mut [u8],
    device_rows: &mut [u64],
    endpoint_rows: &mut [u64],
    packets: &mut [u64],
    events: &mut [u64],
    transactions: &mut [u64],
    groups: &mut [u64],
    statebytes: &mut [u8],
    states: &mut [u64],
    items: &mut [u64],
    links: &mut [u64],
    requests: &mut [u64],
    shelf: &mut Shelf,
) -> Stepped
    requires { found ≡ next_at records.now at }
    ensures { Steps typed records.now at clock (stand (state d devices table.old (logs bytes.old device_rows.old endpoint_rows.old packets.old events.old transactions.old groups.old statebytes.old states.old items.old links.old requests.old)) shelf.old) result table.new (logs bytes.new device_rows.new endpoint_rows.new packets.new events.new transactions.new groups.new statebytes.new states.new items.new links.new requests.new) shelf.new }
{
    match found {
        Next::Packet {
            ticks,
            start,
            end,
            next,
        } => {
            let clock = tick(clock, ticks);
            let r = packet(
                d,
                devices,
                &records[start..end],
                clock.time,
                table,
                bytes,
                device_rows,
                endpoint_rows,
                packets,
                events,
                transactions,
                groups,
                statebytes,
                states,
                items,
                links,
                requests,
                shelf,
            );
            let answer = r.answer;
            let decoder = r.decoder;
            let devices = r.devices;
            went(answer, next, clock, decoder, devices)
        }
        Next::Event {
            ticks,
            kind,
            code,
            next,
        } => {
            let clock = tick(clock, ticks);
            let time = clock.time;
            let r = event(
                d,
                devices,
                kind,
                code,
                time,
                table,
                bytes,
                device_rows,
                endpoint_rows,
                packets,
                events,
                transactions,
                groups,
                statebytes,
                states,
                items,
                links,
                requests,
            );
            let answer = r.answer;
            let decoder = r.decoder;
            let devices = r.devices;
            went(answer, next, clock, decoder, devices)
        }
        Next::Detail {
            address,
            number,
            direction,
            kind,
            max,
            next,
        } => {
            if !typed {
                return over(DETAIL_IN_BLOCK, at, clock, d, devices);
            }
            let r = detail(
                d,
                devices,
                address,
                number,
                direction,
                kind,
                max,
                table,
                bytes,
                device_rows,
                endpoint_rows,
                packets,
                events,
                transactions,
                groups,
                statebytes,
                states,
                items,
                links,
                requests,
            );
            let answer = r.answer;
            let decoder = r.decoder;
            let devices = r.devices;
            went(answer, next, clock, decoder, devices)
        }
        Next::Unknown | Next::Cut | Next::End => over(trace::answer(found), at, clock, d, devices),
    }
}
