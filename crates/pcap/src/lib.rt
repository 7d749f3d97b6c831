// A classic pcap file of USB packets (link type 288): its head, and its records taken one at a time, in both byte orders, and with times in
// microseconds or nanoseconds; and such a file written from the packet log.
#![tactic(auto)]

mod logs;
mod write;

ghost use Rattle.std.specs.Prelude.{◌≡◌, ◌+◌, ◌*◌, ◌%◌, ◌^◌, ◌<◌, ◌≤◌, length};
ghost use Rattle.pcap.specs.Numbers.{number_at};
ghost use Rattle.pcap.specs.Pcap.{unit_of, linked, head_of, head_answer, head_place, body_at, next_at, answer_of, time_of};
ghost use Rattle.pcap.specs.Export.{source_of, size_of, Exports, refusal, lent};
ghost use Rattle.pcap.specs.Inner.{accepted_by, Within};

// The byte order of every number of the file, and the nanoseconds in one unit of a record's fraction.
#[derive(Clone, Copy)]
pub struct Format {
    pub big: bool,
    pub unit: u32,
}

// Which part of the head is wrong or missing.
#[derive(Clone, Copy, PartialEq, Eq)]
pub enum HeadError {
    Mark,
    Link,
}

// What stands at a place of the file. A packet's bytes are the part of the file from `start` up to `end`, where the next record starts.
#[derive(Clone, Copy)]
pub enum Next {
    Packet {
        seconds: u32,
        fraction: u32,
        start: usize,
        end: usize,
    },
    Cut,
    Fraction,
    End,
}

// What an export gives: the answer, the file's length, the packets in it and the events that it left behind; refused, nothing but the answer.
// Stays: a number for the answer, as the C entries give it on; `refusal` says what stands beside it.
#[derive(Clone, Copy)]
pub struct Exported {
    pub answer: u8,
    pub length: usize,
    pub packets: usize,
    pub events: usize,
}

// How much of the lent logs an export goes by: packet bytes, packet rows, event rows.
#[derive(Clone, Copy)]
pub struct Extent {
    pub bytes: usize,
    pub rows: usize,
    pub marks: usize,
}

// What a file would have: whether seconds do not fit it, its length, and how many packets and events were met.
#[derive(Clone, Copy)]
pub struct Survey {
    pub late: bool,
    pub length: usize,
    pub packets: usize,
    pub events: usize,
}

// Answers: no room, and seconds that do not fit.
const FULL: u8 = 7;

const LATE: u8 = 18;

// Bytes of the head, and of a record before the packet.
const HEAD: usize = 24;

const RECORD: usize = 16;

// The marks: times in microseconds, in nanoseconds.
const MICRO: u32 = 0xA1B2C3D4;

const NANO: u32 = 0xA1B23C4D;

// The link type of USB 2.0 packets.
const USB: u32 = 288;

// In nanoseconds.
const SECOND: u64 = 1000000000;

// The number at a place of the file.
fn number_at(file: &[u8], at: usize, big: bool) -> u32
    requires { at + 4 ≤ length file.now }
    ensures { result ≡ number_at big at file.now }
{
    let bytes = [file[at], file[at + 1], file[at + 2], file[at + 3]];
    if big {
        u32::from_be_bytes(bytes)
    } else {
        u32::from_le_bytes(bytes)
    }
}

// The nanoseconds in one unit of a fraction, by the mark; none for what is no mark.
fn unit_of(mark: u32) -> Option<u32>
    ensures { result ≡ unit_of mark }
{
    match mark {
        MICRO => Some(1000),
        NANO => Some(1),
        _ => None,
    }
}

// A head whose mark was found: its link type.
fn link(file: &[u8], f: Format) -> Result<Format, HeadError>
    requires { 24 ≤ length file.now }
    ensures { result ≡ linked file.now f }
{
    if number_at(file, 20, f.big) == USB {
        Ok(f)
    } else {
        Err(HeadError::Link)
    }
}

pub fn check_head(file: &[u8]) -> Result<Format, HeadError>
    ensures { result ≡ head_of file.now }
{
    if file.len() < HEAD {
        return Err(HeadError::Mark);
    }
    if let Some(unit) = unit_of(number_at(file, 0, false)) {
        return link(file, Format { big: false, unit });
    }
    if let Some(unit) = unit_of(number_at(file, 0, true)) {
        return link(file, Format { big: true, unit });
    }
    Err(HeadError::Mark)
}

pub fn head_answer(h: Result<Format, HeadError>) -> u8
    ensures { result ≡ head_answer h }
{
    match h {
        Ok(_) => 0,
        Err(HeadError::Mark) => 14,
        Err(HeadError::Link) => 15,
    }
}

// The first record's place, or that of what is wrong.
pub fn head_place(h: Result<Format, HeadError>) -> usize
    ensures { result ≡ head_place h }
{
    match h {
        Ok(_) => HEAD,
        Err(HeadError::Mark) => 0,
        Err(HeadError::Link) => 20,
    }
}

// A record that does not start at the end of the file.
fn body_at(file: &[u8], at: usize, f: Format) -> Next
    requires { at < length file.now }
    ensures { result ≡ body_at f file.now at }
{
    let left = file.len() - at;
    if left < RECORD {
        return Next::Cut;
    }
    let Format { big, unit } = f;
    let start = at + RECORD;
    let captured = number_at(file, at + 8, big);
    let count = captured as usize;
    if left - RECORD < count {
        return Next::Cut;
    }
    let original = number_at(file, at + 12, big);
    if original != captured {
        return Next::Cut;
    }
    let fraction = number_at(file, at + 4, big);
    if SECOND <= fraction as u64 * unit as u64 {
        return Next::Fraction;
    }
    let seconds = number_at(file, at, big);
    let end = start + count;
    Next::Packet {
        seconds,
        fraction,
        start,
        end,
    }
}

// The record at a place; a place past the end is at the end.
pub fn next_record(file: &[u8], at: usize, f: Format) -> Next
    ensures { result ≡ next_at f file.now at }
{
    if file.len() <= at {
        return Next::End;
    }
    body_at(file, at, f)
}

pub fn answer(n: Next) -> u8
    ensures { result ≡ answer_of n }
{
    match n {
        Next::Cut => 16,
        Next::Fraction => 17,
        Next::Packet { .. } | Next::End => 0,
    }
}

// A packet's time in nanoseconds. Of a packet that `next_record` gave it is far below 2^64; of any other numbers it is told modulo that.
pub fn time(f: Format, seconds: u32, fraction: u32) -> u64
    ensures { result ≡ time_of f seconds fraction % 2 ^ 64 }
{
    let whole = seconds as u64 * SECOND;
    let part = fraction as u64 * f.unit as u64;
    whole.wrapping_add(part)
}

fn refuse(answer: u8) -> Exported
    ensures { result ≡ refusal answer }
{
    Exported {
        answer,
        length: 0,
        packets: 0,
        events: 0,
    }
}

fn accept(s: Survey) -> Exported
    ensures { result ≡ accepted_by s }
{
    Exported {
        answer: 0,
        length: s.length,
        packets: s.packets,
        events: s.events,
    }
}

// By counts that the logs have.
fn size_rows(bytes: &[u8], n: usize, packets: &[u64], marks: usize, events: &[u64]) -> Exported
    requires { Within (lent bytes.now n packets.now marks events.now) }
    ensures { result ≡ size_of (lent bytes.now n packets.now marks events.now) }
{
    let s = logs::survey_rows(bytes, n, packets, marks, events);
    if s.late {
        return refuse(LATE);
    }
    accept(s)
}

// How long a file `export` would write: of the first m packet bytes, n packet rows and e event rows.
pub fn export_size(
    m: usize,
    bytes: &[u8],
    n: usize,
    packets: &[u64],
    e: usize,
    events: &[u64],
) -> Exported
    ensures { result ≡ size_of (source_of m bytes.now n packets.now e events.now) }
{
    let x = logs::extent_of(m, bytes.len(), n, packets.len(), e, events.len());
    size_rows(&bytes[..x.bytes], x.rows, packets, x.marks, events)
}

// By counts that the logs have. Nothing is written before it is known that all of it fits.
fn export_rows(
    bytes: &[u8],
    n: usize,
    packets: &[u64],
    marks: usize,
    events: &[u64],
    out: &mut [u8],
) -> Exported
    requires { Within (lent bytes.now n packets.now marks events.now) }
    ensures { Exports (lent bytes.now n packets.now marks events.now) out.old out.new result }
{
    let s = logs::survey_rows(bytes, n, packets, marks, events);
    if s.late {
        return refuse(LATE);
    }
    if out.len() < s.length {
        return refuse(FULL);
    }
    let next = write::write_head(out, 0);
    write::write_rows(out, next, bytes, n, packets, marks, events);
    accept(s)
}

// The packet log as a file, from the start of a lent buffer: of the first m packet bytes, n packet rows and e event rows.
pub fn export(
    m: usize,
    bytes: &[u8],
    n: usize,
    packets: &[u64],
    e: usize,
    events: &[u64],
    out: &mut [u8],
) -> Exported
    ensures { Exports (source_of m bytes.now n packets.now e events.now) out.old out.new result }
{
    let x = logs::extent_of(m, bytes.len(), n, packets.len(), e, events.len());
    export_rows(&bytes[..x.bytes], x.rows, packets, x.marks, events, out)
}
