// The lent logs: where a packet row has its bytes, which rows are events', and what all of them come to as a file, found before anything is written.
ghost use Rattle.std.specs.Prelude.{◌≡◌, ◌*◌, ◌<◌, ◌≤◌, length};
ghost use Rattle.reading.specs.Packets.{start_of};
ghost use Rattle.reading.specs.Size.{size_at};
ghost use Rattle.pcap.specs.Export.{counted, lent, is_event};
ghost use Rattle.pcap.specs.Inner.{extent_of, seen, Small, Within, survey_of};

use crate::{Extent, HEAD, RECORD, SECOND, Survey};
use rows::width;

// The largest logs (01, "Sizes").
const BYTES: usize = 1073741824;

const ROWS: usize = 16777216;

// The last second that fits 32 bits.
const LAST: u64 = 4294967295;

// How many there are to go by: of n, at most `most` and at most as many as are there.
fn count_of(most: usize, n: usize, there: usize) -> usize
    ensures { result ≡ counted most n there }
{
    n.min(most).min(there)
}

// How much there is to go by, of logs with these many bytes and words.
pub fn extent_of(m: usize, held: usize, n: usize, packets: usize, e: usize, events: usize) -> Extent
    ensures { result ≡ extent_of m held n packets e events }
{
    Extent {
        bytes: count_of(BYTES, m, held),
        rows: count_of(ROWS, n, packets / width::PACKET),
        marks: count_of(ROWS, e, events / width::EVENT),
    }
}

// Where packet row k of n starts, of `end` bytes.
pub fn start_of(packets: &[u64], n: usize, end: usize, k: usize) -> usize
    requires { n * 2 ≤ length packets.now }
    ensures { result ≡ start_of k n packets.now end }
{
    if k < n {
        (packets[k * width::PACKET] as usize).min(end)
    } else {
        end
    }
}

// How many bytes it has: up to the start of the next row, none where that stands before it.
pub fn size_of(packets: &[u64], n: usize, end: usize, k: usize) -> usize
    requires n_in_bounds { n * 2 ≤ length packets.now }
    requires k_lt_n { k < n }
    ensures { result ≡ size_at k n packets.now end }
{
    let start = start_of(packets, n, end, k);
    let next = start_of(packets, n, end, k + 1);
    next.saturating_sub(start)
}

// Whether packet row k is that of event row t, the next of `marks` event rows.
pub fn is_event(events: &[u64], marks: usize, t: usize, k: usize) -> bool
    requires { marks * 2 ≤ length events.now }
    ensures { result ≡ is_event marks events.now t k }
{
    t < marks && events[t * width::EVENT] == k as u64
}

// A row more.
fn add_row(s: Survey, event: bool, time: u64, size: usize) -> Survey
    requires small { Small 16777216 s }
    requires size_bound { size ≤ 1073741824 }
    ensures { result ≡ seen event time size s }
{
    if event {
        return Survey {
            events: s.events + 1,
            ..s
        };
    }
    Survey {
        late: s.late || LAST < time / SECOND,
        length: s.length + (RECORD + size),
        packets: s.packets + 1,
        ..s
    }
}

// Over n packet rows.
pub fn survey_rows(bytes: &[u8], n: usize, packets: &[u64], marks: usize, events: &[u64]) -> Survey
    requires { Within (lent bytes.now n packets.now marks events.now) }
    ensures { result ≡ survey_of (lent bytes.now n packets.now marks events.now) }
{
    let end = bytes.len();
    let mut s = Survey {
        late: false,
        length: HEAD,
        packets: 0,
        events: 0,
    };
    for k in 0..n {
        let event = is_event(events, marks, s.events, k);
        let size = size_of(packets, n, end, k);
        s = add_row(s, event, packets[k * width::PACKET + 1], size);
    }
    s
}
