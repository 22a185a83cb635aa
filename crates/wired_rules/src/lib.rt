// The state rules of the wired controller. One pass over the sources of a domain gathers what their words
// break and which are active (domain_slots); what their bits break is then tested for all of them at once
// (source_bits). No test leaves early.
#![tactic(auto)]

mod domains;
mod structures;

pub use domains::sound;
