// What one record of a block leaves, and whether the block goes on behind it. What a block of records gives is in specs/Block.antt.
#![tactic(auto)]

ghost use Rattle.std.specs.Prelude.{◌≡◌, eqb};
ghost use Rattle.rows.specs.One.{one};
ghost use Rattle.call.specs.Outcome.{accepts};
ghost use Rattle.step.specs.Step.{went_with, over_with};

use details::Device;
use record::Decoder;
use trace::Cursor;
use trace::clock::Clock;

// What one record leaves: whether the block goes on, from where and with which clock; and the answer.
#[derive(Clone, Copy)]
pub struct Stepped {
    pub going: bool,
    pub answer: u8,
    pub next: usize,
    pub clock: Clock,
    pub decoder: Decoder,
    pub devices: [Device; 64],
}

// 0 and 8 let the block go on.
pub fn goes_on(answer: u8) -> bool
    ensures { result ≡ accepts answer }
{
    (answer == 0) | (answer == 8)
}

// One more 8, or none.
pub fn eight(answer: u8) -> usize
    ensures { result ≡ one (eqb answer 8) }
{
    usize::from(answer == 8)
}

// A record that was called.
pub fn went(answer: u8, next: Cursor, clock: Clock, d: Decoder, devices: [Device; 64]) -> Stepped
    ensures { result ≡ went_with answer next.at clock d devices }
{
    Stepped {
        going: goes_on(answer),
        answer,
        next: next.at,
        clock,
        decoder: d,
        devices,
    }
}

// 02, 13: a detail record in a block.
pub const DETAIL_IN_BLOCK: u8 = 20;

// The block is over.
pub fn over(answer: u8, at: usize, clock: Clock, d: Decoder, devices: [Device; 64]) -> Stepped
    ensures { result ≡ over_with answer at clock d devices }
{
    Stepped {
        going: false,
        answer,
        next: at,
        clock,
        decoder: d,
        devices,
    }
}
