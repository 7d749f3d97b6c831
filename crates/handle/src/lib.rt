// A record, with its devices, in words that a caller lends: what they stand for, and how they are made. Any content stands for some record.
#![tactic(auto)]

pub mod decoder;
mod device;
pub mod place;
mod variant;

ghost use Rattle.std.specs.Prelude.{◌≡◌};
ghost use Rattle.handle.specs.Words.{decoder_in, devices_in, stored};

use details::Device;
use record::Decoder;

// A record, as it is lent.
pub type Record = [u64; place::WORDS];

// What the words stand for.
#[derive(Clone, Copy)]
pub struct Loaded {
    pub decoder: Decoder,
    pub devices: [Device; 64],
}

pub fn load_record(words: &Record) -> Loaded
    ensures decoder_value { result.decoder ≡ decoder_in words.now }
    ensures devices_value { result.devices ≡ devices_in words.now }
{
    let decoder = decoder::load_decoder(words);
    let devices = device::load_devices(words);
    Loaded { decoder, devices }
}

// The words then stand for what was stored; those that belong to no field are as they were.
pub fn store_record(words: &mut Record, d: Decoder, devices: [Device; 64])
    ensures words_after { words.new ≡ stored words.old d devices }
    ensures words_after_2 { decoder_in words.new ≡ d }
    ensures words_after_3 { devices_in words.new ≡ devices }
{
    decoder::store_decoder(words, d);
    device::store_devices(words, devices);
}
