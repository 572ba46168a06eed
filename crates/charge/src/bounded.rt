// A pool's sums within their limits. What computes with them takes this type, so that none of it asks anew whether
// anything overflows.
ghost use Rattle.charge.specs.SumLimits.{SumLimits};

use crate::Sums;

// Seven sums that keep the limits under which nothing overflows.
#[derive(Clone, Copy)]
pub struct BoundedSums {
    pub sums: Sums,
    pub ghost within: { SumLimits sums },
}
