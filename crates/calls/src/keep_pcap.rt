// What an entry for pcap files stores: the record where packets of a file were taken, and what is told of a file that is written.
ghost use Rattle.std.specs.Prelude.{[], ◌∷◌, ◌≡◌, ltb};
ghost use Rattle.std.proofs.lemmas.List.Edits.{sets};
ghost use Rattle.calls.specs.Keeps.{Keeps};
ghost use Rattle.calls.specs.Pcap.{told_of};

use crate::blocks::Told;
use crate::keep::put_told;
use handle::{Record, store_record};
use import::Imported;
use pcap::Exported;

// The records of a pcap file: where none was taken the record is as it was.
pub fn keep_import(words: &mut Record, told: &mut Told, r: Imported)
    ensures keeps { Keeps (ltb 0 r.taken) words.old r.decoder r.devices words.new }
    ensures told_after { told.new ≡ sets told.old 0 (r.taken ∷ r.eights ∷ r.place ∷ []) }
{
    let decoder = r.decoder;
    let devices = r.devices;
    put_told(told, r.taken, r.eights, r.place);
    if 0 < r.taken {
        store_record(words, decoder, devices);
    }
}

// The length of a file, its packets, and the events that it leaves behind.
pub fn tell_export(told: &mut Told, r: Exported)
    ensures { told.new ≡ told_of r told.old }
{
    if r.answer == 0 {
        put_told(told, r.length, r.packets, r.events);
    }
}
