// Why bytes are no packet (02, change request 1), in the order of the tests.
ghost use Rattle.std.specs.Prelude.{◌≡◌};
ghost use Rattle.usb.specs.Packet.{number_of};

#[derive(Clone, Copy, PartialEq, Eq)]
pub enum Reason {
    Empty = 1,
    Pid,
    Length,
    Crc,
}

// The number that stands for no reason, in the row of a transaction.
pub const NONE: u8 = 0;

// The number of what a check found.
pub fn number(checked: Result<u8, Reason>) -> u8
    ensures { result ≡ number_of checked }
{
    match checked {
        Ok(_) => NONE,
        Err(reason) => reason as u8,
    }
}
