// What C and Rust programs call to look at a pcap file before they take its records (02, change request 4).
ghost use Rattle.std.specs.Prelude.{◌≡◌};
ghost use Rattle.std.proofs.lemmas.List.Edits.{sets};
ghost use Rattle.calls.specs.Pcap.{format_in, format_words, format_after, HeadTold};

use crate::keep::TOP;
use pcap::{Format, HeadError, check_head, head_answer, head_place};

// The format of a file: whether the highest byte of a number comes first, and the nanoseconds in one unit of a record's fraction.
pub type PcapFormat = [u64; 2];

pub fn load_format(words: &PcapFormat) -> Format
    ensures { result ≡ format_in words.now }
{
    let [big, unit] = *words;
    Format {
        big: big != 0,
        unit: (unit % 4294967296) as u32,
    }
}

fn store_format(words: &mut PcapFormat, f: Format)
    ensures { words.new ≡ sets words.old 0 (format_words f) }
{
    *words = [u64::from(f.big), f.unit as u64];
}

// The format that a head gives; refused, the words are as they were.
fn put_format(words: &mut PcapFormat, h: Result<Format, HeadError>)
    ensures { words.new ≡ format_after h words.old }
{
    if let Ok(f) = h {
        store_format(words, f);
    }
}

// The answer to the head in the top byte, and the place below it: where the records begin, or what is wrong. Where it is accepted `format` gets the file's format.
#[unsafe(no_mangle)]
pub extern "C" fn pivotspark_pcap_head(file: &[u8], format: &mut PcapFormat) -> u64
    ensures { HeadTold file.now format.old result format.new }
{
    let h = check_head(file);
    put_format(format, h);
    let answer = head_answer(h) as u64;
    let place = head_place(h) as u64;
    TOP * answer + place
}
