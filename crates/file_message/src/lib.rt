// A message as a word of the log: made of hart, file and identity, and taken apart again.
#![tactic(auto)]

ghost use Rattle.std.specs.Prelude.{◌≡◌, ◌<◌};
ghost use Rattle.sizes.specs.Sizes.{hart_count};
ghost use Rattle.file_message.specs.Message.{log_word, hart_in, file_in, identity_in};

// Where a log word has its hart and its file; its identity stands below them.
const HART_AT: u32 = 11;

const FILE_AT: u32 = 8;

#[tactic(auto, using(crate::proofs::MessageLaws::fields), unfolding(crate::specs::Message::log_word))]
pub fn log_word(hart: u32, file: u32, identity: u32) -> u32
    requires { (hart < hart_count) × (file < 8) × (identity < 256) }
    ensures { result ≡ log_word hart file identity }
{
    words::packed32(hart, HART_AT, words::packed32(file, FILE_AT, identity))
}

// The parts of a log word.
#[tactic(auto, using(crate::proofs::MessageLaws::fields), unfolding(crate::specs::Message::hart_in))]
pub fn hart_in(word: u32) -> u32
    ensures { (result ≡ hart_in word) × (result < 4) }
{
    words::field32(word, HART_AT, 2)
}

#[tactic(auto, using(crate::proofs::MessageLaws::fields), unfolding(crate::specs::Message::file_in))]
pub fn file_in(word: u32) -> u32
    ensures { (result ≡ file_in word) × (result < 8) }
{
    words::field32(word, FILE_AT, 3)
}

#[tactic(auto, using(crate::proofs::MessageLaws::fields), unfolding(crate::specs::Message::identity_in))]
pub fn identity_in(word: u32) -> u32
    ensures { (result ≡ identity_in word) × (result < 256) }
{
    words::field32(word, 0, 8)
}
