// The registers of one domain's region: what a read does, and what a write does before anything is sent. A
// sourcecfg is written elsewhere: that concerns both domains.
#![tactic(auto)]

mod access;

pub use access::{read, write};
