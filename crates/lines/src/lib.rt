// The whole listing (document 01, "Trace and listing"): a line for each row of the logs, kind by kind, in a lent buffer.
#![tactic(auto)]

pub mod state;

ghost use Rattle.std.specs.Prelude.{[], ◌≡◌, ◌*◌, ◌<◌, ◌≤◌, length};
ghost use Rattle.text.specs.Append.{Room, Appended};
ghost use Rattle.call.specs.State.{logs};
ghost use Rattle.lines.specs.Listing.{width_of, line_of, row, lines_of, listing, Counted};

use record::Counts;
use rows::width;

// The rows whose line is made of their own words; a state row's is made of state bytes.
#[derive(Clone, Copy, PartialEq, Eq)]
pub enum Kind {
    Device,
    Endpoint,
    Packet,
    Event,
    Transaction,
    Group,
    Item,
    Link,
    Request,
}

// The words of a row.
pub fn width_of(kind: Kind) -> usize
    ensures { result ≡ width_of kind }
{
    match kind {
        Kind::Device => 1,
        Kind::Endpoint => width::ENDPOINT,
        Kind::Packet => width::PACKET,
        Kind::Event => width::EVENT,
        Kind::Transaction => width::TRANSACTION,
        Kind::Group => width::GROUP,
        Kind::Item => 1,
        Kind::Link => width::LINK,
        Kind::Request => width::REQUEST,
    }
}

// The line of row number `row`.
fn row_line(out: &mut [u8], at: usize, kind: Kind, row: u64, w: &[u64]) -> usize
    requires w_len { length w.now ≡ width_of kind }
    requires room { Room out.old at (line_of kind row w.now) }
    ensures { Appended out.old at (line_of kind row w.now) out.new result }
{
    match kind {
        Kind::Device => text::device_line(out, at, row, w[0]),
        Kind::Endpoint => text::endpoint_line(out, at, row, w[0], w[1], w[2]),
        Kind::Packet => text::packet_line(out, at, row, w[0], w[1]),
        Kind::Event => text::event_line(out, at, row, w[0], w[1]),
        Kind::Transaction => text::transaction_line(out, at, row, w[0], w[1]),
        Kind::Group => text::group_line(out, at, row, w[0], w[1], w[2], w[3], w[4]),
        Kind::Item => text::item_line(out, at, row, w[0]),
        Kind::Link => text::link_line(out, at, w[0], w[1], w[2], w[3]),
        Kind::Request => text::request_line(out, at, row, w[0], w[1], w[2], w[3]),
    }
}

// The line of row i, of a log that has n rows.
pub fn row_at(out: &mut [u8], at: usize, kind: Kind, i: usize, n: usize, log: &[u64]) -> usize
    requires i_lt_n { i < n }
    requires kind_in_bounds { n * width_of kind ≤ length log.now }
    requires room { Room out.old at (line_of kind i (row (width_of kind) log.now i)) }
    ensures { Appended out.old at (line_of kind i (row (width_of kind) log.now i)) out.new result }
{
    let width = width_of(kind);
    let from = i * width;
    let to = from + width;
    row_line(out, at, kind, i as u64, &log[from..to])
}

// The lines of the first n rows of a log.
fn lines(out: &mut [u8], at: usize, kind: Kind, n: usize, log: &[u64]) -> usize
    requires kind_in_bounds { n * width_of kind ≤ length log.now }
    requires room { Room out.old at (lines_of kind n log.now) }
    ensures { Appended out.old at (lines_of kind n log.now) out.new result }
{
    let mut next = at;
    for i in 0..n {
        next = row_at(out, next, kind, i, n, log);
    }
    next
}

// The listing of the rows that are counted; gives its length. Packet bytes have no line.
pub fn list(
    n: Counts,
    device_rows: &[u64],
    endpoint_rows: &[u64],
    packets: &[u64],
    events: &[u64],
    transactions: &[u64],
    groups: &[u64],
    statebytes: &[u8],
    states: &[u64],
    items: &[u64],
    links: &[u64],
    requests: &[u64],
    out: &mut [u8],
) -> usize
    requires counted { Counted n (logs [] device_rows.now endpoint_rows.now packets.now events.now transactions.now groups.now statebytes.now states.now items.now links.now requests.now) }
    requires room { Room out.old 0 (listing n (logs [] device_rows.now endpoint_rows.now packets.now events.now transactions.now groups.now statebytes.now states.now items.now links.now requests.now)) }
    ensures { Appended out.old 0 (listing n (logs [] device_rows.now endpoint_rows.now packets.now events.now transactions.now groups.now statebytes.now states.now items.now links.now requests.now)) out.new result }
{
    let next = text::title_line(out, 0);
    let next = lines(out, next, Kind::Device, n.devices, device_rows);
    let next = lines(out, next, Kind::Endpoint, n.endpoints, endpoint_rows);
    let next = lines(out, next, Kind::Packet, n.packets, packets);
    let next = lines(out, next, Kind::Event, n.events, events);
    let next = lines(out, next, Kind::Transaction, n.transactions, transactions);
    let next = lines(out, next, Kind::Group, n.groups, groups);
    let next = state::state_lines(out, next, n.states, states, n.statebytes, statebytes);
    let next = lines(out, next, Kind::Item, n.items, items);
    let next = lines(out, next, Kind::Link, n.links, links);
    lines(out, next, Kind::Request, n.requests, requests)
}
