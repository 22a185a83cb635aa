// What a monitor in C is answered: three numbers for the answer of the board's calls.
#![tactic(auto)]

ghost use Rattle.std.specs.Prelude.{◌≡◌};
ghost use Rattle.monitor_answer.specs.Told.{Numbers};

use board_call::{Answer, Refusal};

// What C is answered, in two registers. The refusal is 0 if the call is done.
// [01 B16]
#[repr(C)]
#[derive(Clone, Copy)]
pub struct VskAnswer {
    pub value: u64,
    // the number of messages
    pub count: u32,
    pub refusal: u32,
}

fn refused(number: u32) -> VskAnswer
    ensures { result ≡ record { value = 0; count = 0; refusal = number } }
{
    VskAnswer {
        value: 0,
        count: 0,
        refusal: number,
    }
}

pub fn numbers(answer: Answer) -> VskAnswer
    ensures { Numbers result answer }
{
    match answer {
        Ok(done) => VskAnswer {
            value: done.value,
            count: done.count,
            refusal: 0,
        },
        Err(Refusal::StateLength) => refused(1),
        Err(Refusal::LogLength) => refused(2),
        Err(Refusal::BrokenRule) => refused(3),
        Err(Refusal::NoSuch) => refused(4),
        Err(Refusal::BadAddress) => refused(5),
        Err(Refusal::IllegalSelect) => refused(6),
    }
}
