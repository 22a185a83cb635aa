// One interrupt source of a domain, as a value: what happens to its pending and enable bits and its target.
#![tactic(auto)]

mod pending;

#[derive(Clone, Copy)]
pub struct Source {
    pub mode: u32,
    pub target: u32,
    pub pending: bool,
    pub enabled: bool,
}

// What a write to a family of registers does to a source that it names.
#[derive(Clone, Copy)]
pub enum Change {
    Pend,
    Clear,
    Enable,
    Disable,
}
