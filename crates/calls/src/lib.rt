// What C and Rust programs call with a record in lent words, under names that begin with the project's: single calls, blocks of records, a trace's header, pcap
// files, and the counts.
#![tactic(auto)]

pub mod blocks;
pub mod counts;
pub mod event_entry;
pub mod finish_entry;
pub mod fresh_entry;
mod keep;
mod keep_pcap;
pub mod packet_entry;
pub mod pcap_export;
pub mod pcap_head;
pub mod pcap_records;
pub mod pcap_size;
pub mod traces;
