// What a read of a register of one domain gives. What a read does besides is not here.
#![tactic(auto)]

ghost use Rattle.std.specs.Prelude.{◌≡◌, ◌<◌};
ghost use Rattle.domain_region.specs.Region.{Within};
ghost use Rattle.domain.specs.Domain.{domain_of, domaincfg_of};
ghost use Rattle.domain_values.specs.Values.{domaincfg_mark, register_value};

use domain_direct::{Setting, setting_of};
use domain_region::Word;
use sizes::{DOMAIN_SIZE, SOURCE_SET_SIZE};

const DOMAINCFG_MARK: u32 = 0x80000000;

#[tactic(auto, unfolding(crate::specs::Values::register_value))]
pub fn value_of(part: &[u32; DOMAIN_SIZE], wires: [u32; SOURCE_SET_SIZE], word: Word) -> u32
    requires { (domaincfg_of (domain_of part.now) < domaincfg_mark) × Within word }
    ensures { result ≡ register_value (domain_of part.now) wires word }
{
    match word {
        Word::Domaincfg => DOMAINCFG_MARK + domain::domaincfg(part),
        Word::Sourcecfg(i) => domain::load(part, i as usize).mode,
        Word::Setip(k) => domain::pending_word(part, k as usize),
        Word::InClrip(k) => domain_inputs::input_word(part, wires, k as usize),
        Word::Setie(k) => domain::enable_word(part, k as usize),
        Word::Genmsi => domain_genmsi::read_genmsi(part),
        Word::Target(i) => domain::load(part, i as usize).target,
        Word::Idelivery(h) => setting_of(part, h as usize, Setting::Idelivery),
        Word::Iforce(h) => setting_of(part, h as usize, Setting::Iforce),
        Word::Ithreshold(h) => setting_of(part, h as usize, Setting::Ithreshold),
        Word::Topi(h) | Word::Claimi(h) => domain_topi::topi(part, h as usize),
        Word::Setipnum
        | Word::Clripnum
        | Word::Setienum
        | Word::Clrie(_)
        | Word::Clrienum
        | Word::SetipnumLe
        | Word::SetipnumBe
        | Word::Unused => 0,
    }
}
