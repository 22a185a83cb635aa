// Why a run stops before its record ends.
use std::fmt;

#[derive(Clone, Copy)]
pub(crate) enum Fault {
    Input,
    Output,
}

impl fmt::Display for Fault {
    fn fmt<W: fmt::Write>(&self, f: &mut fmt::Formatter<W>) -> fmt::Result {
        f.write_str(match self {
            Fault::Input => "input cannot be read",
            Fault::Output => "output cannot be written",
        })
    }
}
