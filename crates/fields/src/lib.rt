// Fields: what a line says. One module for each Rust file whose line tests it ports, and `runs` for what they share.
#![tactic(auto)]

pub mod common;
pub mod imap;
pub mod pop3;
pub mod runs;
pub mod smtp;
