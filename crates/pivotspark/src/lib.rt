// What C and Rust programs call, under names that begin with the project's: the packet check and the CRC16, group_status in words, whole traces, the listing in parts.
#![tactic(auto)]

pub mod groups;
pub mod list;
pub mod packets;
pub mod traces;
