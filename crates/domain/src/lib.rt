// One domain of the wired controller, in its own 144 words of the block: sources and delivery structures.
#![tactic(auto)]

mod domain_words;
mod slot;
mod structure;

pub use domain_words::{
    by_messages, domaincfg, enable_word, enabled, genmsi, pending_word, put_domaincfg, put_genmsi,
    standing,
};
pub use slot::{load, put_enabled, put_pending, put_target, store};
pub use structure::{load_structure, store_structure};

// IE and DM of domaincfg.
pub const IE_BIT: u32 = 8;

pub const DM_BIT: u32 = 2;
