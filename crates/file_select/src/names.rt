// Select numbers: which are legal, and which register each names.
ghost use Rattle.std.specs.Prelude.{◌≡◌};
ghost use Rattle.file_select.specs.Select.{select_legal, register_of};
ghost use Rattle.sizes.specs.Sizes.{identities};

use super::{EIDELIVERY, EIE0, EIP0, EITHRESHOLD, Register};

#[tactic(auto, unfolding(crate::specs::Select::select_legal))]
pub fn select_legal(select: u64) -> bool
    ensures { result ≡ select_legal select }
{
    match select {
        ..EIDELIVERY | 0x100.. => false,
        ..EIP0 => true,
        _ => select % 2 != 1,
    }
}

#[tactic(auto, unfolding(crate::specs::Select::register_of, crate::specs::Select::registers_from))]
pub fn register_of(select: u64) -> Register
    ensures { result ≡ register_of identities select }
{
    match select {
        EIDELIVERY => Register::Delivery,
        EITHRESHOLD => Register::Threshold,
        EIP0..0x88 => Register::Pending((select - EIP0) / 2),
        EIE0..0xC8 => Register::Enable((select - EIE0) / 2),
        _ => Register::Unused,
    }
}
