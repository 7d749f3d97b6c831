// The rows of the devices: a row's words, and the loops over the details of a device and over the devices.
ghost use Rattle.std.specs.Prelude.{map, ◌≡◌, ◌+◌, ◌<◌, ◌≤◌, length};
ghost use Rattle.std.proofs.lemmas.List.Edits.{sets};
ghost use Rattle.handle.specs.Fits.{DetailFits, DetailsFit, DeviceFits, DevicesFit};
ghost use Rattle.handle.specs.Words.{from, word_in, detail_of, detail_word, device_at, devices_in, row_stored, rows_stored};
ghost use Rattle.handle.specs.Size as size;

use crate::{Record, place};
use details::{Detail, Device, fresh_device};

fn detail_of(word: u64) -> Detail
    ensures { result ≡ detail_of word }
{
    Detail {
        kind: (word % 256) as u8,
        given: word / 256 % 256 != 0,
        max: (word / 65536 % 65536) as u16,
    }
}

fn detail_word(detail: Detail) -> u64
    ensures value { result ≡ detail_word detail }
    ensures detail_fits { DetailFits detail }
{
    detail.kind as u64 + 256 * u64::from(detail.given) + 65536 * detail.max as u64
}

// The details of the 32 words from `at` on.
fn load_details(words: &Record, at: usize) -> [Detail; 32]
    requires { at + 32 ≤ size.words }
    ensures { result ≡ from (λ k. detail_of (word_in words.now k)) at 32 }
{
    let mut details = [detail_of(0); 32];
    for i in 0..32 {
        details[i] = detail_of(words[at + i]);
    }
    details
}

fn load_device(words: &Record, i: usize) -> Device
    requires { i < 64 }
    ensures { result ≡ device_at words.now i }
{
    let at = place::ROWS + i * place::WIDTH;
    Device {
        address: (words[at + place::ADDRESS] % 256) as u8,
        chosen: (words[at + place::CHOSEN] % 65536) as u16,
        kept: (words[at + place::KEPT] % 65536) as u16,
        details: load_details(words, at + place::DETAILS),
    }
}

pub fn load_devices(words: &Record) -> [Device; 64]
    ensures { result ≡ devices_in words.now }
{
    let mut devices = [fresh_device(0); 64];
    for i in 0..64 {
        devices[i] = load_device(words, i);
    }
    devices
}

fn store_details(words: &mut Record, at: usize, details: [Detail; 32])
    requires { at + 32 ≤ size.words }
    ensures words_after { words.new ≡ sets words.old at (map detail_word details) }
    ensures details_fit { DetailsFit details }
{
    for i in 0..32 {
        words[at + i] = detail_word(details[i]);
    }
}

fn store_device(words: &mut Record, i: usize, device: Device)
    requires { i < 64 }
    ensures words_after { words.new ≡ row_stored words.old i device }
    ensures device_fits { DeviceFits device }
{
    let at = place::ROWS + i * place::WIDTH;
    words[at + place::ADDRESS] = device.address as u64;
    words[at + place::CHOSEN] = device.chosen as u64;
    words[at + place::KEPT] = device.kept as u64;
    store_details(words, at + place::DETAILS, device.details);
}

pub fn store_devices(words: &mut Record, devices: [Device; 64])
    ensures words_after { words.new ≡ rows_stored words.old 0 devices }
    ensures devices_len { length devices ≡ 64 }
    ensures devices_fit { DevicesFit devices }
{
    for i in 0..64 {
        store_device(words, i, devices[i]);
    }
}
