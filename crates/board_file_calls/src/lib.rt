// The calls on one message file: its page, its registers, its top.
#![tactic(auto)]

mod accesses;
mod block_file;
mod page_reads;
mod page_writes;
mod tops;

pub use accesses::register;
pub use block_file::{load_file, store_file};
pub use page_reads::page_read;
pub use page_writes::page_write;
pub use tops::{claim, top};
