// The three settable numbers of a hart's delivery structure as a record that is lent and changed in place.
// Each function takes the record out, has the method of that number make the new one, and puts it back.
// 01, "Direct delivery and signals".
#![tactic(auto)]

ghost use Rattle.std.specs.Prelude.{◌≡◌};
ghost use Rattle.domain_delivery.specs.Delivery.{with_idelivery, with_iforce, with_ithreshold};

use domain_delivery::Delivery;

pub fn set_idelivery(lent: &mut Delivery, value: u32)
    ensures { lent.new ≡ with_idelivery lent.old value }
{
    *lent = lent.with_idelivery(value);
}

pub fn set_iforce(lent: &mut Delivery, value: u32)
    ensures { lent.new ≡ with_iforce lent.old value }
{
    *lent = lent.with_iforce(value);
}

pub fn set_ithreshold(lent: &mut Delivery, value: u32)
    ensures { lent.new ≡ with_ithreshold lent.old value }
{
    *lent = lent.with_ithreshold(value);
}
