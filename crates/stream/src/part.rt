// Which records the loop takes by the inner call: packets that may be called, on a record that is known to be sound. Two readers find them, that of a trace and that of
// a pcap file.
ghost use Rattle.std.specs.Prelude.{◌≡◌};
ghost use Rattle.stream.specs.Part.{is_short, no_part, trace_part, pcap_part, part_at, SecondsAt};
ghost use Rattle.stream.specs.Piece.{Short};

use crate::piece::piece_of;
use pcap::Format;
use trace::Next;
use trace::clock::{Clock, tick};
use trace::reader::record_at;

// The longest packet (01, Sizes).
const MOST: usize = 4096;

// Whose records they are: a trace's, or those of a pcap file of this format.
#[derive(Clone, Copy)]
pub enum Reader {
    Trace,
    Pcap(Format),
}

// A packet, from `start` up to `end`, with its ticks, its time and the place of the next record; where `taken` is false, the rest is not read.
#[derive(Clone, Copy)]
pub struct Part {
    pub taken: bool,
    pub ticks: u32,
    pub time: u64,
    pub start: usize,
    pub end: usize,
    pub next: usize,
}

fn is_short(start: usize, end: usize) -> bool
    ensures { result ≡ is_short start end }
{
    if end < start {
        return false;
    }
    end - start <= MOST
}

fn no_part() -> Part
    ensures { result ≡ no_part }
{
    Part {
        taken: false,
        ticks: 0,
        time: 0,
        start: 0,
        end: 0,
        next: 0,
    }
}

// Of a trace. Where `ready` says so, what was found, if it is a packet that is not too long.
fn trace_part(ready: bool, clock: Clock, found: Next) -> Part
    ensures { result ≡ trace_part ready clock found }
{
    match found {
        Next::Packet {
            ticks,
            start,
            end,
            next,
        } => {
            let ticked = tick(clock, ticks);
            Part {
                taken: ready & is_short(start, end),
                ticks,
                time: ticked.time,
                start,
                end,
                next: next.at,
            }
        }
        Next::Event { .. } | Next::Detail { .. } | Next::Unknown | Next::Cut | Next::End => {
            no_part()
        }
    }
}

// Of a pcap file, whose packets have their times themselves and no ticks, and are the ends of their records.
fn pcap_part(ready: bool, f: Format, found: pcap::Next) -> Part
    ensures value { result ≡ pcap_part ready f found }
    ensures short { Short found }
{
    match piece_of(f, found) {
        Ok(p) => Part {
            taken: ready & is_short(p.start, p.end),
            ticks: 0,
            time: p.time,
            start: p.start,
            end: p.end,
            next: p.end,
        },
        Err(_) => no_part(),
    }
}

// What the reader finds at a place.
pub fn part_at(reader: Reader, ready: bool, clock: Clock, records: &[u8], at: usize) -> Part
    ensures value { result ≡ part_at reader ready clock records.now at }
    ensures seconds_at { SecondsAt reader records.now at }
{
    match reader {
        Reader::Trace => trace_part(ready, clock, record_at(records, at)),
        Reader::Pcap(f) => pcap_part(ready, f, pcap::next_record(records, at, f)),
    }
}
