// A file's registers by their select numbers: one is read or written, or bits of it are set or cleared.
ghost use Rattle.std.specs.Prelude.{◌≡◌};
ghost use Rattle.file.specs.Register.{held, written, accessed};
ghost use Rattle.sizes.specs.Sizes.{identities};

use super::File;
use file_select::{
    Register, delivery_legal, doubleword, put_doubleword, register_of, select_legal,
};

#[derive(Clone, Copy)]
pub enum Access {
    Read,
    Write,
    Set,
    Clear,
}

// No answer: the select number is illegal.
#[derive(Clone, Copy)]
pub struct Accessed {
    pub answer: Option<u64>,
    pub file: File,
}

impl File {
    #[tactic(auto, unfolding(crate::specs::Register::held))]
    fn held(self, register: Register) -> u64
        ensures { result ≡ held self register }
    {
        match register {
            Register::Delivery => self.delivery as u64,
            Register::Threshold => self.threshold as u64,
            Register::Pending(j) => doubleword(self.pending, j),
            Register::Enable(j) => doubleword(self.enable, j),
            Register::Unused => 0,
        }
    }

    #[tactic(auto, unfolding(crate::specs::Register::written))]
    fn written(mut self, guest: bool, register: Register, value: u64) -> File
        ensures { result ≡ written identities guest self register value }
    {
        match register {
            Register::Delivery => {
                if delivery_legal(guest, value) {
                    self.delivery = value as u32;
                }
                self
            }
            Register::Threshold => {
                self.threshold = (value % 256) as u32;
                self
            }
            Register::Pending(j) => {
                self.pending = put_doubleword(self.pending, j, value);
                self
            }
            Register::Enable(j) => {
                self.enable = put_doubleword(self.enable, j, value);
                self
            }
            Register::Unused => self,
        }
    }

    #[tactic(auto, unfolding(crate::specs::Register::accessed, crate::specs::Register::accessed_at))]
    pub fn access(self, guest: bool, kind: Access, select: u64, value: u64) -> Accessed
        ensures { result ≡ accessed identities guest self kind select value }
    {
        if !select_legal(select) {
            return Accessed {
                answer: None,
                file: self,
            };
        }
        let register = register_of(select);
        let old = self.held(register);
        match kind {
            Access::Read => Accessed {
                answer: Some(old),
                file: self,
            },
            Access::Write => Accessed {
                answer: Some(0),
                file: self.written(guest, register, value),
            },
            Access::Set => Accessed {
                answer: Some(old),
                file: self.written(guest, register, words::union64(old, value)),
            },
            Access::Clear => Accessed {
                answer: Some(old),
                file: self.written(guest, register, words::without64(old, value)),
            },
        }
    }
}
