// A file's bytes appended to a lent buffer from a place on; each function gives the next place.
ghost use Rattle.std.specs.Prelude.{◌≡◌, ◌+◌, ◌*◌, ◌/◌, ◌^◌, ◌<◌, ◌≤◌, false, length};
ghost use Rattle.text.specs.Append.{Room, Appended};
ghost use Rattle.pcap.specs.File.{four, head_bytes, heading, body_of};
ghost use Rattle.pcap.specs.Fits.{Fits};
ghost use Rattle.pcap.specs.Export.{lent, written_format, items_of};
ghost use Rattle.pcap.specs.Inner.{record_bytes, row_items, Within};

use crate::{HEAD, SECOND, logs};
use rows::width;

// Mark, version 2.4, zone, figures, snap length 4,096, link type 288.
pub fn write_head(out: &mut [u8], at: usize) -> usize
    requires { Room out.old at (head_bytes written_format) }
    ensures { Appended out.old at (head_bytes written_format) out.new result }
{
    let head =
        b"\x4D\x3C\xB2\xA1\x02\x00\x04\x00\x00\x00\x00\x00\x00\x00\x00\x00\x00\x10\x00\x00\x20\x01\x00\x00";
    rows::put(out, at, head);
    at + HEAD
}

// A number as four bytes, the lowest first.
fn write_four(out: &mut [u8], at: usize, n: u32) -> usize
    requires { Room out.old at (four false n) }
    ensures { Appended out.old at (four false n) out.new result }
{
    rows::put(out, at, &n.to_le_bytes());
    at + 4
}

// What stands before a packet: seconds, nanoseconds, and its length twice.
fn write_heading(out: &mut [u8], at: usize, seconds: u32, fraction: u32, size: u32) -> usize
    requires { Room out.old at (heading false seconds fraction size) }
    ensures { Appended out.old at (heading false seconds fraction size) out.new result }
{
    let next = write_four(out, at, seconds);
    let next = write_four(out, next, fraction);
    let next = write_four(out, next, size);
    write_four(out, next, size)
}

// A packet's record.
pub fn write_record(out: &mut [u8], at: usize, time: u64, packet: &[u8]) -> usize
    requires time_bound { time / 10 ^ 9 < 2 ^ 32 }
    requires packet_len_bound { length packet.now < 2 ^ 32 }
    requires room { Room out.old at (record_bytes time packet.now) }
    ensures { Appended out.old at (record_bytes time packet.now) out.new result }
{
    let seconds = (time / SECOND) as u32;
    let fraction = (time % SECOND) as u32;
    let next = write_heading(out, at, seconds, fraction, packet.len() as u32);
    rows::put(out, next, packet);
    next + packet.len()
}

// The record of packet row k; none where it is an event's.
fn write_row(
    out: &mut [u8],
    at: usize,
    event: bool,
    bytes: &[u8],
    n: usize,
    packets: &[u64],
    k: usize,
) -> usize
    requires n_in_bounds { n * 2 ≤ length packets.now }
    requires k_lt_n { k < n }
    requires fits { Fits written_format (row_items event bytes.now n packets.now k) }
    requires room { Room out.old at (body_of written_format (row_items event bytes.now n packets.now k)) }
    ensures { Appended out.old at (body_of written_format (row_items event bytes.now n packets.now k)) out.new result }
{
    if event {
        return at;
    }
    let end = bytes.len();
    let start = logs::start_of(packets, n, end, k);
    let stop = start + logs::size_of(packets, n, end, k);
    write_record(out, at, packets[k * width::PACKET + 1], &bytes[start..stop])
}

// The records of n packet rows, but for the events'.
pub fn write_rows(
    out: &mut [u8],
    at: usize,
    bytes: &[u8],
    n: usize,
    packets: &[u64],
    marks: usize,
    events: &[u64],
) -> usize
    requires within { Within (lent bytes.now n packets.now marks events.now) }
    requires fits { Fits written_format (items_of (lent bytes.now n packets.now marks events.now)) }
    requires room { Room out.old at (body_of written_format (items_of (lent bytes.now n packets.now marks events.now))) }
    ensures { Appended out.old at (body_of written_format (items_of (lent bytes.now n packets.now marks events.now))) out.new result }
{
    let mut next = at;
    let mut taken: usize = 0;
    for k in 0..n {
        let event = logs::is_event(events, marks, taken, k);
        next = write_row(out, next, event, bytes, n, packets, k);
        taken += usize::from(event);
    }
    next
}
