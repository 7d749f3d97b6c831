// The words of Decoder: the counts, the transaction and the rest, each word at its place.
ghost use Rattle.std.specs.Prelude.{◌≡◌};
ghost use Rattle.std.proofs.lemmas.List.Edits.{sets};
ghost use Rattle.handle.specs.Fits.{TransactionFits};
ghost use Rattle.handle.specs.Words.{counts_of, count_words, transaction_of, transaction_words, rest_words, decoder_in, decoder_stored, word_in};
ghost use Rattle.handle.specs.Place as place;

use crate::variant::{event_of, event_word, slot_of, slot_word, style_of, style_words};
use crate::{Record, place};
use record::{Counts, Decoder};
use transaction::Transaction;

fn load_counts(words: &Record) -> Counts
    ensures { result ≡ counts_of (word_in words.now) }
{
    Counts {
        bytes: words[place::BYTES] as usize,
        devices: words[place::DEVICES] as usize,
        endpoints: words[place::ENDPOINTS] as usize,
        packets: words[place::PACKETS] as usize,
        events: words[place::EVENTS] as usize,
        transactions: words[place::TRANSACTIONS] as usize,
        groups: words[place::GROUPS] as usize,
        statebytes: words[place::STATEBYTES] as usize,
        states: words[place::STATES] as usize,
        items: words[place::ITEMS] as usize,
        links: words[place::LINKS] as usize,
        requests: words[place::REQUESTS] as usize,
    }
}

fn load_transaction(words: &Record) -> Transaction
    ensures { result ≡ transaction_of (word_in words.now) }
{
    Transaction {
        style: style_of(
            words[place::STYLE],
            (words[place::SC] % 256) as u8,
            (words[place::SPLITKIND] % 256) as u8,
            (words[place::PID] % 256) as u8,
        ),
        last: (words[place::LASTPID] % 256) as u8,
        id: words[place::ID],
        endpoint: words[place::ENDPOINT] as usize,
        kind: (words[place::KIND] % 256) as u8,
        linked: words[place::LINKED] != 0,
        ready: words[place::READY] != 0,
        filled: words[place::FILLED] != 0,
        link: words[place::LINK],
        setup: words[place::SETUP],
        payload: words[place::PAYLOAD],
    }
}

pub fn load_decoder(words: &Record) -> Decoder
    ensures { result ≡ decoder_in words.now }
{
    Decoder {
        counts: load_counts(words),
        transaction: load_transaction(words),
        last: words[place::LASTITEM] as usize,
        waiting: words[place::WAITING] as usize,
        time: words[place::TIME],
        slot: slot_of(words[place::SLOT]),
        event: event_of(words[place::EVENT]),
        keepalive: words[place::KEEPALIVE] != 0,
        finished: words[place::FINISHED] != 0,
        high: words[place::HIGH] != 0,
    }
}

fn store_counts(words: &mut Record, n: Counts)
    ensures { words.new ≡ sets words.old place.bytes (count_words n) }
{
    words[place::BYTES] = n.bytes as u64;
    words[place::DEVICES] = n.devices as u64;
    words[place::ENDPOINTS] = n.endpoints as u64;
    words[place::PACKETS] = n.packets as u64;
    words[place::EVENTS] = n.events as u64;
    words[place::TRANSACTIONS] = n.transactions as u64;
    words[place::GROUPS] = n.groups as u64;
    words[place::STATEBYTES] = n.statebytes as u64;
    words[place::STATES] = n.states as u64;
    words[place::ITEMS] = n.items as u64;
    words[place::LINKS] = n.links as u64;
    words[place::REQUESTS] = n.requests as u64;
}

fn store_transaction(words: &mut Record, t: Transaction)
    ensures words_after { words.new ≡ sets words.old place.style (transaction_words t) }
    ensures transaction_fits { TransactionFits t }
{
    let numbers = style_words(t.style);
    words[place::STYLE] = numbers.style;
    words[place::SC] = numbers.sc as u64;
    words[place::SPLITKIND] = numbers.kind as u64;
    words[place::PID] = numbers.pid as u64;
    words[place::LASTPID] = t.last as u64;
    words[place::ID] = t.id;
    words[place::ENDPOINT] = t.endpoint as u64;
    words[place::KIND] = t.kind as u64;
    words[place::LINKED] = u64::from(t.linked);
    words[place::READY] = u64::from(t.ready);
    words[place::FILLED] = u64::from(t.filled);
    words[place::LINK] = t.link;
    words[place::SETUP] = t.setup;
    words[place::PAYLOAD] = t.payload;
}

fn store_rest(words: &mut Record, d: Decoder)
    ensures { words.new ≡ sets words.old place.lastitem (rest_words d) }
{
    words[place::LASTITEM] = d.last as u64;
    words[place::WAITING] = d.waiting as u64;
    words[place::TIME] = d.time;
    words[place::SLOT] = slot_word(d.slot);
    words[place::EVENT] = event_word(d.event);
    words[place::KEEPALIVE] = u64::from(d.keepalive);
    words[place::FINISHED] = u64::from(d.finished);
    words[place::HIGH] = u64::from(d.high);
}

pub fn store_decoder(words: &mut Record, d: Decoder)
    ensures words_after { words.new ≡ decoder_stored words.old d }
    ensures transaction_fits { TransactionFits d.transaction }
{
    store_counts(words, d.counts);
    store_transaction(words, d.transaction);
    store_rest(words, d);
}
