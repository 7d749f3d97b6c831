// What stands at a place of a pcap file, with the time that its packet is called with.
ghost use Rattle.std.specs.Prelude.{◌≡◌};
ghost use Rattle.stream.specs.Piece.{piece_of, Short};

use pcap::{Format, Next};

// A record's packet, from `start` up to `end`, with its time.
#[derive(Clone, Copy)]
pub struct Piece {
    pub time: u64,
    pub start: usize,
    pub end: usize,
}

// The packet that was found; where there is none, the answer to that.
pub fn piece_of(f: Format, found: Next) -> Result<Piece, u8>
    ensures value { result ≡ piece_of f found }
    ensures short { Short found }
{
    match found {
        Next::Packet {
            seconds,
            fraction,
            start,
            end,
        } => Ok(Piece {
            time: pcap::time(f, seconds, fraction),
            start,
            end,
        }),
        Next::Cut | Next::Fraction | Next::End => Err(pcap::answer(found)),
    }
}
