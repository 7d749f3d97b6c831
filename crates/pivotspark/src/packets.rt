// What C and Rust programs call: the packet check and the CRC16, under names that begin with the project's.
ghost use Rattle.std.specs.Prelude.{◌≡◌};
ghost use Rattle.crc.specs.Crc.{crc16_of};
ghost use Rattle.usb.specs.Packet.{checked_of};
ghost use Rattle.pivotspark.specs.Answer.{answer_of};

// The PID byte of a valid packet, and 256 times the reason of a malformed one.
#[unsafe(no_mangle)]
pub extern "C" fn pivotspark_check(packet: &[u8]) -> u16
    ensures { result ≡ answer_of (checked_of packet.now) }
{
    match usb::check(packet) {
        Ok(pid) => pid as u16,
        Err(reason) => 256 * reason as u16,
    }
}

// The CRC16 of a data packet's payload.
#[unsafe(no_mangle)]
pub extern "C" fn pivotspark_crc16(payload: &[u8]) -> u16
    ensures { result ≡ crc16_of payload.now }
{
    crc::crc16(payload)
}
