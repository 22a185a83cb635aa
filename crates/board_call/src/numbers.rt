// Which numbers name something, and the refusals of those that do not.
ghost use Rattle.std.specs.Prelude.{◌≡◌, cond, ltb, Ok, Err};
ghost use Rattle.board_call.specs.Numbers.{is_wire, is_file, is_guest_file, is_move, is_page_address};
ghost use Rattle.board_call.specs.Answer.{Refuses};
ghost use Rattle.board_call.specs.Calls.{numbered};
ghost use Rattle.board_call.specs.Change.{kind_of};
ghost use Rattle.board_call.specs.Refusal.{name_refusal_by};
ghost use Rattle.board_call.specs.declared.Refusal.TheVariants.{NoSuch};
ghost use Rattle.board_block.specs.Block.{Board};

use super::Refusal;
use board_move_steps::ACCESSES;
use file::Access;
use sizes::{FIRST_GUEST, HART_COUNT, HART_FILES, SOURCE_COUNT};

#[tactic(auto, unfolding(crate::specs::Numbers::is_wire))]
pub fn is_wire(wire: u64, level: u64) -> bool
    ensures { result ≡ is_wire wire level }
{
    (1 <= wire) & (wire <= SOURCE_COUNT as u64) & (level <= 1)
}

#[tactic(auto, unfolding(crate::specs::Numbers::is_file))]
pub fn is_file(hart: u64, file: u64) -> bool
    ensures { result ≡ is_file hart file }
{
    (hart < HART_COUNT as u64) & (file < HART_FILES as u64)
}

// Files 2 to 4 are the guests'.
#[tactic(auto, unfolding(crate::specs::Numbers::is_guest_file))]
fn is_guest_file(hart: u64, file: u64) -> bool
    ensures { result ≡ is_guest_file hart file }
{
    (hart < HART_COUNT as u64) & (FIRST_GUEST as u64 <= file) & (file < HART_FILES as u64)
}

// Two different guest files, and one of the 89 accesses.
#[tactic(auto, unfolding(crate::specs::Numbers::is_move))]
pub fn is_move(oldhart: u64, oldfile: u64, newhart: u64, newfile: u64, access: u64) -> bool
    ensures { result ≡ is_move oldhart oldfile newhart newfile access }
{
    is_guest_file(oldhart, oldfile)
        & is_guest_file(newhart, newfile)
        & !((oldhart == newhart) & (oldfile == newfile))
        & (1 <= access)
        & (access <= ACCESSES)
}

// A file's page has 4,096 bytes.
#[tactic(auto, unfolding(crate::specs::Numbers::is_page_address))]
pub fn is_page_address(address: u64) -> bool
    ensures { result ≡ is_page_address address }
{
    (address % 4 == 0) & (address < 4096)
}

// Reading is 0, writing 1, setting bits 2; of the kinds that there are the last, 3, clears them.
#[tactic(auto, unfolding(crate::specs::Change::kind_of))]
pub fn kind_of(kind: u64) -> Access
    ensures { result ≡ kind_of kind }
{
    match kind {
        0 => Access::Read,
        1 => Access::Write,
        2 => Access::Set,
        _ => Access::Clear,
    }
}

// The same, where there is such a kind.
pub fn known_kind(kind: u64) -> Result<Access, Refusal>
    ensures { result ≡ cond (ltb kind 4) (Ok (kind_of kind)) (Err NoSuch) }
{
    if kind < 4 {
        Ok(kind_of(kind))
    } else {
        Err(Refusal::NoSuch)
    }
}

// Refusal 4, 5 or 6: of what a call names, of its address, of its select number.
pub fn check_numbers(names: bool, address: bool, select: bool) -> Result<(), Refusal>
    ensures { (b : Board) → Refuses result (name_refusal_by (numbered names address select) b) }
{
    if !names {
        return Err(Refusal::NoSuch);
    }
    if !address {
        return Err(Refusal::BadAddress);
    }
    if !select {
        return Err(Refusal::IllegalSelect);
    }
    Ok(())
}
