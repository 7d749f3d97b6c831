// What an entry stores of what its call left: all of it, or nothing where the call was refused.
ghost use Rattle.std.specs.Prelude.{[], ◌∷◌, ◌≡◌, ltb};
ghost use Rattle.std.proofs.lemmas.List.Edits.{sets};
ghost use Rattle.call.specs.Outcome.{accepts};
ghost use Rattle.calls.specs.Block.{clock_in, clock_words};
ghost use Rattle.calls.specs.Keeps.{Keeps, KeepsClock};

use crate::blocks::{Ticks, Told};
use block::Taken;
use call::Called;
use handle::{Record, store_record};
use step::goes_on;
use trace::clock::Clock;

// Where the top byte of a word begins: there stands an answer, below it a place.
pub const TOP: u64 = 1 << 56;

// A single call.
pub fn keep(words: &mut Record, r: Called)
    ensures { Keeps (accepts r.answer) words.old r.decoder r.devices words.new }
{
    let decoder = r.decoder;
    let devices = r.devices;
    if goes_on(r.answer) {
        store_record(words, decoder, devices);
    }
}

pub fn load_ticks(ticks: &Ticks) -> Clock
    ensures { result ≡ clock_in ticks.now }
{
    let [started, last, time] = *ticks;
    Clock {
        started: started != 0,
        last: (last % 4294967296) as u32,
        time,
    }
}

fn store_ticks(ticks: &mut Ticks, c: Clock)
    ensures ticks_after { ticks.new ≡ sets ticks.old 0 (clock_words c) }
    ensures ticks_after_2 { clock_in ticks.new ≡ c }
{
    *ticks = [u64::from(c.started), c.last as u64, c.time];
}

pub fn put_told(told: &mut Told, taken: usize, eights: usize, place: usize)
    ensures { told.new ≡ sets told.old 0 (taken ∷ eights ∷ place ∷ []) }
{
    *told = [taken as u64, eights as u64, place as u64];
}

// A block: where no record was taken the record and the clock are as they were.
pub fn keep_block(words: &mut Record, ticks: &mut Ticks, told: &mut Told, r: Taken)
    ensures keeps { Keeps (ltb 0 r.taken) words.old r.decoder r.devices words.new }
    ensures keeps_clock { KeepsClock (ltb 0 r.taken) ticks.old r.clock ticks.new }
    ensures told_after { told.new ≡ sets told.old 0 (r.taken ∷ r.eights ∷ r.place ∷ []) }
{
    let decoder = r.decoder;
    let devices = r.devices;
    put_told(told, r.taken, r.eights, r.place);
    if 0 < r.taken {
        store_record(words, decoder, devices);
        store_ticks(ticks, r.clock);
    }
}
