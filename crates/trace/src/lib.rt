// The UTL trace (document 01, "Trace and listing"): its header, its records taken one at a time, and their times.
#![tactic(auto)]

pub mod clock;
pub mod details;
pub mod reader;

ghost use Rattle.std.specs.Prelude.{◌≡◌, ◌+◌, ◌<◌, ◌≤◌, length};
ghost use Rattle.trace.specs.Trace.{little_endian, header_of, header_answer, header_place, packet_at, event_at, detail_at, next_at, answer_of};

// Which part of the header is wrong or missing.
#[derive(Clone, Copy, PartialEq, Eq)]
pub enum HeaderError {
    Mark,
    Version,
}

// A place in the trace, where a record starts.
#[derive(Clone, Copy)]
pub struct Cursor {
    pub at: usize,
}

// What stands at a cursor. A packet's bytes are the part of the trace from `start` up to `end`; `next` is behind the record.
#[derive(Clone, Copy)]
pub enum Next {
    Packet {
        ticks: u32,
        start: usize,
        end: usize,
        next: Cursor,
    },
    Event {
        ticks: u32,
        kind: u8,
        code: u8,
        next: Cursor,
    },
    Detail {
        address: u8,
        number: u8,
        direction: u8,
        kind: u8,
        max: u16,
        next: Cursor,
    },
    Unknown,
    Cut,
    End,
}

const HEADER: usize = 5;

// A tag and six bytes: a whole record, but for a packet's bytes.
const HEAD: usize = 7;

pub fn check_header(trace: &[u8]) -> Result<(), HeaderError>
    ensures { result ≡ header_of trace.now }
{
    if !trace.starts_with(b"UTL") {
        return Err(HeaderError::Mark);
    }
    if !trace[3..].starts_with(&[1, 0]) {
        return Err(HeaderError::Version);
    }
    Ok(())
}

pub fn header_answer(h: Result<(), HeaderError>) -> u8
    ensures { result ≡ header_answer h }
{
    match h {
        Ok(()) => 0,
        Err(HeaderError::Mark) => 10,
        Err(HeaderError::Version) => 11,
    }
}

// The first record's place, or that of what is wrong.
pub fn header_place(h: Result<(), HeaderError>) -> usize
    ensures { result ≡ header_place h }
{
    match h {
        Ok(()) => HEADER,
        Err(HeaderError::Mark) => 0,
        Err(HeaderError::Version) => 3,
    }
}

// Behind the header.
pub fn first() -> Cursor
    ensures { result.at ≡ 5 }
{
    Cursor { at: HEADER }
}

fn u16_at(trace: &[u8], at: usize) -> u16
    requires { at + 2 ≤ length trace.now }
    ensures { result ≡ little_endian 2 at trace.now }
{
    u16::from_le_bytes([trace[at], trace[at + 1]])
}

fn u32_at(trace: &[u8], at: usize) -> u32
    requires { at + 4 ≤ length trace.now }
    ensures { result ≡ little_endian 4 at trace.now }
{
    u32::from_le_bytes([trace[at], trace[at + 1], trace[at + 2], trace[at + 3]])
}

fn packet_at(trace: &[u8], at: usize) -> Next
    requires { at < length trace.now }
    ensures { result ≡ packet_at trace.now at }
{
    let left = trace.len() - at;
    if left < HEAD {
        return Next::Cut;
    }
    let start = at + HEAD;
    let count = u16_at(trace, at + 5) as usize;
    if left - HEAD < count {
        return Next::Cut;
    }
    let ticks = u32_at(trace, at + 1);
    let end = start + count;
    let next = Cursor { at: end };
    Next::Packet {
        ticks,
        start,
        end,
        next,
    }
}

fn event_at(trace: &[u8], at: usize) -> Next
    requires { at < length trace.now }
    ensures { result ≡ event_at trace.now at }
{
    if trace.len() - at < HEAD {
        return Next::Cut;
    }
    let ticks = u32_at(trace, at + 1);
    let next = Cursor { at: at + HEAD };
    Next::Event {
        ticks,
        kind: trace[at + 5],
        code: trace[at + 6],
        next,
    }
}

fn detail_at(trace: &[u8], at: usize) -> Next
    requires { at < length trace.now }
    ensures { result ≡ detail_at trace.now at }
{
    if trace.len() - at < HEAD {
        return Next::Cut;
    }
    let max = u16_at(trace, at + 5);
    let next = Cursor { at: at + HEAD };
    Next::Detail {
        address: trace[at + 1],
        number: trace[at + 2],
        direction: trace[at + 3],
        kind: trace[at + 4],
        max,
        next,
    }
}

// The record at a cursor; a cursor past the end is at the end.
pub fn next_record(trace: &[u8], c: Cursor) -> Next
    ensures { result ≡ next_at trace.now c.at }
{
    let at = c.at;
    match trace.get(at) {
        Some(0) => packet_at(trace, at),
        Some(1) => event_at(trace, at),
        Some(2) => detail_at(trace, at),
        Some(_) => Next::Unknown,
        None => Next::End,
    }
}

pub fn answer(n: Next) -> u8
    ensures { result ≡ answer_of n }
{
    match n {
        Next::Unknown => 12,
        Next::Cut => 13,
        Next::Packet { .. } | Next::Event { .. } | Next::Detail { .. } | Next::End => 0,
    }
}
