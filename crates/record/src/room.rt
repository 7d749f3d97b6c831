// Counts against the room of the lent logs. `&` and `|` take both sides, so that no test is a branch.
// A row's number and its place are two things: counts number the rows, and a log holds those from its first number on.
ghost use Rattle.std.specs.Prelude.{◌≡◌, ◌-◌, ◌<◌, ◌≤◌};
ghost use Rattle.record.specs.Room.{fitting, long, held_of, begun, numbered, roomy};
ghost use Rattle.endpoints.specs.Table.{first_at};
ghost use Rattle.record.specs.RoomLaws.{Begun};

use crate::Counts;
use endpoints::Table;
use endpoints::word::FIRSTS;
use rows::number;

// How many rows a log may have, and how many bytes the packet and the state log.
const MOST_ROWS: usize = 16777216;

const MOST_BYTES: usize = 1073741824;

// The greatest number of a next row.
pub const MOST_NUMBER: usize = usize::MAX;

// How many devices and endpoints there may be, whatever the room.
const MOST_DEVICES: usize = 64;

const MOST_ENDPOINTS: usize = 128;

// Whether each count is within its log.
pub fn fits(counts: Counts, room: Counts) -> bool
    ensures { result ≡ fitting counts room }
{
    (counts.bytes <= room.bytes)
        & (counts.devices <= room.devices)
        & (counts.devices <= MOST_DEVICES)
        & (counts.endpoints <= room.endpoints)
        & (counts.endpoints <= MOST_ENDPOINTS)
        & (counts.packets <= room.packets)
        & (counts.events <= room.events)
        & (counts.transactions <= room.transactions)
        & (counts.groups <= room.groups)
        & (counts.statebytes <= room.statebytes)
        & (counts.states <= room.states)
        & (counts.items <= room.items)
        & (counts.links <= room.links)
        & (counts.requests <= room.requests)
}

// Whether a lent log is too long.
pub fn too_long(room: Counts) -> bool
    ensures { result ≡ long room }
{
    (MOST_BYTES < room.bytes)
        | (MOST_ROWS < room.devices)
        | (MOST_ROWS < room.endpoints)
        | (MOST_ROWS < room.packets)
        | (MOST_ROWS < room.events)
        | (MOST_ROWS < room.transactions)
        | (MOST_ROWS < room.groups)
        | (MOST_BYTES < room.statebytes)
        | (MOST_ROWS < room.states)
        | (MOST_ROWS < room.items)
        | (MOST_ROWS < room.links)
        | (MOST_ROWS < room.requests)
}

// The first number of log k.
pub fn first(table: &Table, k: usize) -> usize
    requires { k < 12 }
    ensures { result ≡ first_at k table.now }
{
    table[FIRSTS + k] as usize
}

// Whether no log's first number passes the number of its next row.
fn is_begun(n: Counts, table: &Table) -> bool
    ensures { result ≡ begun table.now n }
{
    (first(table, number::BYTES) <= n.bytes)
        & (first(table, number::PACKETS) <= n.packets)
        & (first(table, number::EVENTS) <= n.events)
        & (first(table, number::TRANSACTIONS) <= n.transactions)
        & (first(table, number::GROUPS) <= n.groups)
        & (first(table, number::STATEBYTES) <= n.statebytes)
        & (first(table, number::STATES) <= n.states)
        & (first(table, number::ITEMS) <= n.items)
        & (first(table, number::LINKS) <= n.links)
}

// Whether no number passes the greatest.
pub fn is_numbered(n: Counts) -> bool
    ensures { result ≡ numbered n }
{
    (n.bytes <= MOST_NUMBER)
        & (n.packets <= MOST_NUMBER)
        & (n.events <= MOST_NUMBER)
        & (n.transactions <= MOST_NUMBER)
        & (n.groups <= MOST_NUMBER)
        & (n.statebytes <= MOST_NUMBER)
        & (n.states <= MOST_NUMBER)
        & (n.items <= MOST_NUMBER)
        & (n.links <= MOST_NUMBER)
}

// Of n rows of log k, those from its first number on.
fn held(n: usize, table: &Table, k: usize) -> usize
    requires k_bound { k < 12 }
    requires table_bound { first_at k table.now ≤ n }
    ensures { result ≡ n - first_at k table.now }
{
    n - first(table, k)
}

// The rows that the logs still hold, where n are numbered.
pub fn held_of(n: Counts, table: &Table) -> Counts
    requires { Begun table.now n }
    ensures { result ≡ held_of table.now n }
{
    Counts {
        bytes: held(n.bytes, table, number::BYTES),
        devices: n.devices,
        endpoints: n.endpoints,
        packets: held(n.packets, table, number::PACKETS),
        events: held(n.events, table, number::EVENTS),
        transactions: held(n.transactions, table, number::TRANSACTIONS),
        groups: held(n.groups, table, number::GROUPS),
        statebytes: held(n.statebytes, table, number::STATEBYTES),
        states: held(n.states, table, number::STATES),
        items: held(n.items, table, number::ITEMS),
        links: held(n.links, table, number::LINKS),
        requests: n.requests,
    }
}

// Whether there is room for rows up to the numbers n, in logs that hold so many.
pub fn has_room(n: Counts, table: &Table, room: Counts) -> bool
    ensures { result ≡ roomy table.now n room }
{
    is_begun(n, table) && (fits(held_of(n, table), room) & is_numbered(n))
}
