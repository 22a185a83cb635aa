// The file that a target of the child domain names.
ghost use Rattle.std.specs.Prelude.{◌≡◌, ◌≤◌, ◌<◌};
ghost use Rattle.sizes.specs.Sizes.{hart_count, hart_files};
ghost use Rattle.board_move_steps.specs.Names.{names_file, renamed};

use source_target::{GUEST_AT, HART_AT};

#[tactic(auto, unfolding(crate::specs::Names::names_file))]
pub fn names_file(target: u32, hart: u64, file: u64) -> bool
    ensures { result ≡ names_file target hart file }
{
    (source_target::hart_of(target) as u64 == hart)
        & (source_target::guest_of(target) as u64 + 1 == file)
}

// The same identity, at file `file` of hart `hart`.
pub fn renamed(target: u32, hart: u64, file: u64) -> u32
    requires { (hart < hart_count) × (1 ≤ file) × (file < hart_files) }
    ensures { result ≡ renamed target hart file }
{
    words::packed32(
        hart as u32,
        HART_AT,
        words::packed32(
            (file - 1) as u32,
            GUEST_AT,
            source_target::number_of(target),
        ),
    )
}
