// Interrupts forwarded by messages: which messages a domain sends, and the log.
#![tactic(auto)]

mod sources;

pub use sources::send;
