// The kinds of endpoint beyond the four types of USB 2.0 (usb::types): the type that is not known, and the special three.
// Stays: numbers, as the types that they stand beside (01), and as any byte may stand in a lent record (handle: `decoder_in`).
pub const UNKNOWN: u8 = 4;

pub const FRAMING: u8 = 5;

pub const INVALID: u8 = 6;

pub const EVENT: u8 = 7;
