// A read with what it does, and a write with what it does before anything is sent.
ghost use Rattle.std.specs.Prelude.{◌≡◌, ◌<◌};
ghost use Rattle.domain_values.specs.Values.{domaincfg_mark};
ghost use Rattle.domain_region.specs.Region.{Within};
ghost use Rattle.domain.specs.Domain.{domain_of, domaincfg_of};
ghost use Rattle.domain_registers.specs.Read.{register_value, claimed_by};
ghost use Rattle.domain_registers.specs.Write.{register_written};

use domain_direct::{Setting, claim, put_setting};
use domain_domaincfg::write_domaincfg;
use domain_genmsi::write_genmsi;
use domain_region::{Role, Word, role_of};
use domain_values::value_of;
use domain_writes::{change_number, change_word, write_target};
use sizes::{DOMAIN_SIZE, SOURCE_SET_SIZE};
use source::Change;
use words::reversed32;

// A read, with what it does.
#[tactic(auto, using(crate::proofs::ReadLaws::claims))]
pub fn read(part: &mut [u32; DOMAIN_SIZE], wires: [u32; SOURCE_SET_SIZE], word: Word) -> u32
    requires { (domaincfg_of (domain_of part.old) < domaincfg_mark) × Within word }
    ensures { (result ≡ register_value (domain_of part.old) wires word)
        × (domain_of part.new ≡ claimed_by (domain_of part.old) word) }
{
    match role_of(word) {
        Role::Claims(h) => claim(part, h as usize),
        _ => value_of(part, wires, word),
    }
}

#[tactic(auto, unfolding(crate::specs::Write::register_written))]
pub fn write(
    part: &mut [u32; DOMAIN_SIZE],
    child: bool,
    wires: [u32; SOURCE_SET_SIZE],
    word: Word,
    value: u32,
)
    requires { Within word }
    ensures { domain_of part.new
        ≡ register_written child (domain_of part.old) wires word value }
{
    match word {
        Word::Domaincfg => write_domaincfg(part, wires, value),
        Word::Setip(k) => change_word(part, wires, Change::Pend, k as usize, value),
        Word::InClrip(k) => change_word(part, wires, Change::Clear, k as usize, value),
        Word::Setie(k) => change_word(part, wires, Change::Enable, k as usize, value),
        Word::Clrie(k) => change_word(part, wires, Change::Disable, k as usize, value),
        Word::Setipnum | Word::SetipnumLe => change_number(part, wires, Change::Pend, value),
        Word::SetipnumBe => change_number(part, wires, Change::Pend, reversed32(value)),
        Word::Clripnum => change_number(part, wires, Change::Clear, value),
        Word::Setienum => change_number(part, wires, Change::Enable, value),
        Word::Clrienum => change_number(part, wires, Change::Disable, value),
        Word::Genmsi => write_genmsi(part, value),
        Word::Target(i) => write_target(part, child, i as usize, value),
        Word::Idelivery(h) => put_setting(part, h as usize, Setting::Idelivery, value),
        Word::Iforce(h) => put_setting(part, h as usize, Setting::Iforce, value),
        Word::Ithreshold(h) => put_setting(part, h as usize, Setting::Ithreshold, value),
        // a sourcecfg is written elsewhere; the others ignore writes
        Word::Sourcecfg(_) | Word::Topi(_) | Word::Claimi(_) | Word::Unused => {}
    }
}
