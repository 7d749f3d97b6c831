// What C and Rust programs call to read a record's counts.
ghost use Rattle.std.specs.Prelude.{◌≡◌};
ghost use Rattle.std.proofs.lemmas.List.Edits.{sets};
ghost use Rattle.handle.specs.Words.{decoder_in, count_words};

use handle::Record;
use handle::decoder::load_decoder;

// The numbers of the next rows, in the order of the logs.
#[unsafe(no_mangle)]
pub extern "C" fn pivotspark_counts(record: &Record, counts: &mut [u64; 12])
    ensures { counts.new ≡ sets counts.old 0 (count_words (decoder_in «record».now).counts) }
{
    let n = load_decoder(record).counts;
    *counts = [
        n.bytes as u64,
        n.devices as u64,
        n.endpoints as u64,
        n.packets as u64,
        n.events as u64,
        n.transactions as u64,
        n.groups as u64,
        n.statebytes as u64,
        n.states as u64,
        n.items as u64,
        n.links as u64,
        n.requests as u64,
    ];
}
