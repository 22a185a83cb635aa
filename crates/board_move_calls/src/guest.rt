// A guest's file, one of the two of a move.
ghost use Rattle.std.specs.Prelude.{◌≡◌, true};
ghost use Rattle.board_call.specs.Numbers.{is_guest_file};

// By its hart, and its number among the files of the hart.
#[derive(Clone, Copy)]
pub struct Guest {
    pub hart: u64,
    pub file: u64,
    ghost is_there: { is_guest_file hart file ≡ true },
}
