// An address of a domain's region, taken apart into the register that it names. 01, "The wired controller".
#![tactic(auto)]

ghost use Rattle.std.specs.Prelude.{◌≡◌, ◌+◌, ◌*◌, ◌%◌, ◌≤◌, ◌<◌};
ghost use Rattle.sizes.specs.Sizes.{source_set_size};
ghost use Rattle.domain_region.specs.Region.{address_legal, word_at};

mod role;

pub use role::{Role, role_of};

#[derive(Clone, Copy)]
pub enum Word {
    Domaincfg,
    // of the source 1 to 63
    Sourcecfg(u64),
    // word 0 or 1 of the bits, one for each source; so are the other three
    Setip(u64),
    Setipnum,
    InClrip(u64),
    Clripnum,
    Setie(u64),
    Setienum,
    Clrie(u64),
    Clrienum,
    SetipnumLe,
    SetipnumBe,
    Genmsi,
    // of the source 1 to 63
    Target(u64),
    // of the hart 0 to 3; so are the other four
    Idelivery(u64),
    Iforce(u64),
    Ithreshold(u64),
    Topi(u64),
    Claimi(u64),
    // reads 0 and ignores writes
    Unused,
}

#[tactic(auto, unfolding(crate::specs::Region::address_legal))]
pub fn address_legal(address: u64) -> bool
    ensures { result ≡ address_legal address }
{
    address % 4 == 0 && address < 0x5000
}

pub fn word_at(address: u64) -> Word
    ensures { result ≡ word_at address }
{
    if address % 4 != 0 {
        return Word::Unused;
    }
    if address < 0x1000 {
        return config_word(address);
    }
    if address < 0x2000 {
        return bits_word(address);
    }
    if address < 0x3000 {
        return number_word(address);
    }
    if address < 0x4000 {
        return target_word(address);
    }
    structure_word(address)
}

// 0x0000 to 0x0FFF
fn config_word(address: u64) -> Word
    requires { (address % 4 ≡ 0) × (address < 0x1000) }
    ensures { result ≡ word_at address }
{
    if address == 0 {
        return Word::Domaincfg;
    }
    if address < 0x100 {
        return Word::Sourcecfg(address / 4);
    }
    Word::Unused
}

// 0x1000 to 0x1FFF: four blocks of 0x100 from 0x1C00 on, each with two words of bits and a number register
fn bits_word(address: u64) -> Word
    requires { (address % 4 ≡ 0) × (0x1000 ≤ address) × (address < 0x2000) }
    ensures { result ≡ word_at address }
{
    if address < 0x1C00 {
        return Word::Unused;
    }
    let block = (address - 0x1C00) / 0x100;
    let offset = address % 0x100;
    if offset < 8 {
        return bits_of(block, offset / 4);
    }
    if offset == 0xDC {
        return number_of(block);
    }
    Word::Unused
}

fn bits_of(block: u64, k: u64) -> Word
    requires { (block < 4) × (k < source_set_size) }
    ensures { result ≡ word_at (0x1C00 + 0x100 * block + 4 * k) }
{
    match block {
        0 => Word::Setip(k),
        1 => Word::InClrip(k),
        2 => Word::Setie(k),
        _ => Word::Clrie(k),
    }
}

fn number_of(block: u64) -> Word
    requires { block < 4 }
    ensures { result ≡ word_at (0x1CDC + 0x100 * block) }
{
    match block {
        0 => Word::Setipnum,
        1 => Word::Clripnum,
        2 => Word::Setienum,
        _ => Word::Clrienum,
    }
}

// 0x2000 to 0x2FFF
fn number_word(address: u64) -> Word
    requires { (address % 4 ≡ 0) × (0x2000 ≤ address) × (address < 0x3000) }
    ensures { result ≡ word_at address }
{
    if address == 0x2000 {
        return Word::SetipnumLe;
    }
    if address == 0x2004 {
        return Word::SetipnumBe;
    }
    Word::Unused
}

// 0x3000 to 0x3FFF
fn target_word(address: u64) -> Word
    requires { (address % 4 ≡ 0) × (0x3000 ≤ address) × (address < 0x4000) }
    ensures { result ≡ word_at address }
{
    if address == 0x3000 {
        return Word::Genmsi;
    }
    if address < 0x3100 {
        let source = (address - 0x3000) / 4;
        return Word::Target(source);
    }
    Word::Unused
}

// from 0x4000 on: the delivery structures, 32 bytes for each hart
fn structure_word(address: u64) -> Word
    requires { (address % 4 ≡ 0) × (0x4000 ≤ address) }
    ensures { result ≡ word_at address }
{
    if 0x4080 <= address {
        return Word::Unused;
    }
    let hart = (address - 0x4000) / 32;
    match address % 32 {
        0x00 => Word::Idelivery(hart),
        0x04 => Word::Iforce(hart),
        0x08 => Word::Ithreshold(hart),
        0x18 => Word::Topi(hart),
        0x1C => Word::Claimi(hart),
        _ => Word::Unused,
    }
}
