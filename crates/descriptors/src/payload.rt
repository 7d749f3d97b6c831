// The payload of a read, laid by packet after packet, since a packet is no longer at hand when the request completes.
ghost use Rattle.std.specs.Prelude.{◌≡◌, ◌+◌, ◌≤◌, length};
ghost use Rattle.usb.specs.Packet.{payload_of};
ghost use Rattle.descriptors.specs.Laid.{is_laid, laid};

use crate::request::Kind;

// Bytes that a device keeps of a payload.
pub const MOST: usize = 4096;

// Whether the payload of a request is laid by: that of the two reads.
pub fn is_laid(kind: Kind) -> bool
    ensures { result ≡ is_laid kind }
{
    matches!(kind, Kind::DeviceRead | Kind::ConfigurationRead)
}

// The payload of a data packet, behind the `count` bytes of the part of the shelf that begins at `start`, as far as the part goes.
pub fn lay(shelf: &mut [u8], start: usize, count: usize, packet: &[u8])
    requires in_bounds { 3 ≤ length packet.now }
    requires start_in_bounds { start + 8192 ≤ length shelf.old }
    ensures { shelf.new ≡ laid start count (payload_of packet.now) shelf.old }
{
    if MOST <= count {
        return;
    }
    let room = MOST - count;
    let at = start + count;
    let end = packet.len() - 2;
    if room < end - 1 {
        rows::put(shelf, at, &packet[1..room + 1]);
        return;
    }
    rows::put(shelf, at, &packet[1..end]);
}
