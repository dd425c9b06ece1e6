//! Break points of walls, in parts of 2^-60.

ghost use Rattle.std.specs.Prelude.{◌≡◌, ◌⊎◌, ◌*◌, unsigned_abs, ◌<◌, ◌≤◌, ◌-◌};
ghost use Rattle.thermograph.specs.Breaks.{wall_at, toward};
ghost use Rattle.thermograph.specs.inner.Breaks.{IsLevel, IsInRange};
ghost use Rattle.thermograph.specs.inner.Scaffolds.{IsClear};

use dyadic_num::LIMIT;

/// A point of a wall at which its slope changes, or an end of it.
#[derive(Clone, Copy)]
pub(crate) struct Break {
    pub(crate) at: u128,
    pub(crate) value: i128,
}

impl Break {
    /// The value at this point.
    fn height(self) -> i128
        ensures { result ≡ self.value }
    {
        self.value
    }

    /// The value at `t` on the way to the next point.
    fn height_toward(self, next: Break, t: u128) -> i128
        requires t { t ≤ 2 * unsigned_abs LIMIT }
        requires level { IsInRange (toward self.value next.value (t - self.at)) }
        ensures { result ≡ toward self.value next.value (t - self.at) }
    {
        let step = t.saturating_sub(self.at) as i128;
        if self.value < next.value {
            return self.value + step;
        }
        if next.value < self.value {
            return self.value - step;
        }
        self.value
    }

    /// The place of this point, if it is between the two, or the second.
    fn nearest(self, after: u128, next: u128) -> u128
        requires { after < next }
        ensures after { after < result }
        ensures within { result ≤ next }
        ensures outside { (self.at ≤ after) ⊎ (result ≤ self.at) }
    {
        if after < self.at && self.at < next {
            return self.at;
        }
        next
    }
}

/// The value of a wall at `t`.
pub(crate) fn value(breaks: &[Break], t: u128) -> i128
    requires level { IsLevel breaks.now }
    requires t { t ≤ 2 * unsigned_abs LIMIT }
    ensures { result ≡ wall_at breaks.now t }
{
    if breaks.is_empty() {
        return 0;
    }
    let mut i = 0;
    while i + 1 < breaks.len() && breaks[i + 1].at <= t {
        i += 1;
    }
    if i + 1 == breaks.len() {
        return breaks[i].height();
    }
    breaks[i].height_toward(breaks[i + 1], t)
}

/// The place of a wall's first break point after `start`, or `end` where there is none before it.
pub(crate) fn break_after(breaks: &[Break], start: u128, end: u128) -> u128
    requires { start < end }
    ensures after { start < result }
    ensures within { result ≤ end }
    ensures clear { IsClear start result breaks.now }
{
    let mut next = end;
    for point in breaks {
        next = point.nearest(start, next);
    }
    next
}
