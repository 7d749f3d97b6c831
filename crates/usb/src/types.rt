// The codes of a SPLIT packet: the endpoint types and SC (USB 2.0, 8.4.2).
// Stays: numbers, since 01 asks for type and SC as local numbers with a match over each (transaction, split.rt).
pub const CONTROL: u8 = 0;

pub const ISOCHRONOUS: u8 = 1;

pub const BULK: u8 = 2;

pub const INTERRUPT: u8 = 3;

pub const START: u8 = 0;

pub const COMPLETE: u8 = 1;
