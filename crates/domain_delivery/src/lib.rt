// The three settable numbers of a hart's delivery structure: a value that each method takes and hands back.
// 01, "Direct delivery and signals".
#![tactic(auto)]

ghost use Rattle.std.specs.Prelude.{◌≡◌};
ghost use Rattle.domain_delivery.specs.Delivery.{switch_of, with_idelivery, with_iforce, with_ithreshold};
ghost use Rattle.domain_delivery.specs.Delivery.{without_force, delivery_sound, lets, structure_signals};

// [01 S5]
#[derive(Clone, Copy)]
pub struct Delivery {
    pub idelivery: u32,
    pub iforce: u32,
    pub ithreshold: u32,
}

// What a register that stores only 0 and 1 holds after `value` was written.
#[tactic(auto, unfolding(crate::specs::Delivery::switch_of))]
fn switch_of(old: u32, value: u32) -> u32
    ensures { result ≡ switch_of old value }
{
    if value < 2 { value } else { old }
}

impl Delivery {
    #[tactic(auto, unfolding(crate::specs::Delivery::with_idelivery))]
    pub fn with_idelivery(self, value: u32) -> Delivery
        ensures { result ≡ with_idelivery self value }
    {
        Delivery {
            idelivery: switch_of(self.idelivery, value),
            ..self
        }
    }

    #[tactic(auto, unfolding(crate::specs::Delivery::with_iforce))]
    pub fn with_iforce(self, value: u32) -> Delivery
        ensures { result ≡ with_iforce self value }
    {
        Delivery {
            iforce: switch_of(self.iforce, value),
            ..self
        }
    }

    #[tactic(auto, unfolding(crate::specs::Delivery::with_ithreshold))]
    pub fn with_ithreshold(self, value: u32) -> Delivery
        ensures { result ≡ with_ithreshold self value }
    {
        Delivery {
            ithreshold: value % 256,
            ..self
        }
    }

    // What a claim that finds nothing does.
    #[tactic(auto, unfolding(crate::specs::Delivery::without_force))]
    pub fn without_force(self) -> Delivery
        ensures { result ≡ without_force self }
    {
        Delivery { iforce: 0, ..self }
    }

    #[tactic(auto, unfolding(crate::specs::Delivery::delivery_sound))]
    pub fn sound(self) -> bool
        ensures { result ≡ delivery_sound self }
    {
        self.idelivery <= 1 && self.iforce <= 1 && self.ithreshold < 256
    }

    // The threshold lets an interrupt of this priority through.
    #[tactic(auto, unfolding(crate::specs::Delivery::lets))]
    pub fn lets(self, priority: u32) -> bool
        ensures { result ≡ lets self priority }
    {
        words::passes(self.ithreshold, priority)
    }

    // The signal to the hart of a domain in direct mode: `enabled` is its IE, `top` the structure's topi.
    #[tactic(auto, unfolding(crate::specs::Delivery::structure_signals))]
    pub fn signals(self, enabled: bool, top: u32) -> bool
        ensures { result ≡ structure_signals self enabled top }
    {
        enabled && self.idelivery == 1 && (self.iforce != 0 || top != 0)
    }
}
