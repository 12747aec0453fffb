//! Where things stand on a picture.

ghost use Rattle.std.specs.Prelude.{◌≡◌, ◌≤◌, ◌<◌, ◌+◌, ◌*◌, ◌^◌};
ghost use Rattle.race_picture.specs.Sheet as spec;

/// What the sizes and places of a picture depend on: the clock, how many lanes, rows and commands there are, and
/// whether the record is a large one, which is drawn close together and without names.
#[derive(Clone, Copy, Debug, PartialEq, Eq)]
pub struct Sheet {
    pub clock: u64,
    pub lanes: u32,
    pub rows: u32,
    pub commands: u32,
    pub large: bool,
}

impl Sheet {
    /// How wide the clock is.
    pub fn plot(&self) -> u64
        ensures value { result ≡ spec.plot self.now }
        ensures bound { result ≤ 9600 }
    {
        8 * self.clock.min(1200).max(90)
    }

    /// Where a number of the clock stands.
    #[tactic(auto, unfolding(crate::specs::Sheet::x_of))]
    pub fn x_of(&self, n: u64) -> u64
        ensures value { result ≡ spec.x_of self.now n }
        ensures bound { result ≤ 9750 }
    {
        let across = u128::from(n.min(self.clock)) * u128::from(self.plot());
        150 + (across / u128::from(self.clock.max(1))) as u64
    }

    /// How wide it is from one number to another.
    pub fn across(&self, begin: u64, end: u64) -> u64
        ensures value { result ≡ spec.across self.now begin end }
        ensures bound { result ≤ 9750 }
    {
        self.x_of(end).saturating_sub(self.x_of(begin))
    }

    pub fn lane_height(&self) -> u64
        ensures value { result ≡ spec.lane_height self.now }
        ensures bound { result ≤ 28 }
    {
        if self.large { 4 } else { 28 }
    }

    pub fn bar_height(&self) -> u64
        ensures { result ≡ spec.bar_height self.now }
    {
        if self.large { 3 } else { 12 }
    }

    pub fn bar_drop(&self) -> u64
        ensures { result ≡ spec.bar_drop self.now }
    {
        if self.large { 0 } else { 14 }
    }

    pub fn row_height(&self) -> u64
        ensures value { result ≡ spec.row_height self.now }
        ensures bound { result ≤ 18 }
    {
        if self.large { 4 } else { 18 }
    }

    pub fn mark_height(&self) -> u64
        ensures { result ≡ spec.mark_height self.now }
    {
        if self.large { 3 } else { 10 }
    }

    pub fn mark_drop(&self) -> u64
        ensures { result ≡ spec.mark_drop self.now }
    {
        if self.large { 0 } else { 4 }
    }

    pub fn lane_top(&self, lane: u32) -> u64
        ensures value { result ≡ spec.lane_top self.now lane }
        ensures bound { result < 2 ^ 40 }
    {
        96 + u64::from(lane) * self.lane_height()
    }

    pub fn row_top(&self, row: u32) -> u64
        ensures value { result ≡ spec.row_top self.now row }
        ensures bound { result < 2 ^ 41 }
    {
        self.lane_top(self.lanes) + 30 + u64::from(row) * self.row_height()
    }

    pub fn bottom(&self) -> u64
        ensures value { result ≡ spec.bottom self.now }
        ensures bound { result < 2 ^ 41 }
    {
        self.row_top(self.rows)
    }

    pub fn side(&self) -> u64
        ensures value { result ≡ spec.side self.now }
        ensures bound { result ≤ 9950 }
    {
        150 + self.plot() + 200
    }

    pub fn width(&self) -> u64
        ensures { result ≡ spec.width self.now }
    {
        if self.large {
            150 + self.plot() + 40
        } else {
            self.side() + 340
        }
    }

    pub fn height(&self) -> u64
        ensures { result ≡ spec.height self.now }
    {
        let beside = if self.large {
            0
        } else {
            side_line(u64::from(self.commands) + 3)
        };
        (self.bottom() + 70).max(beside)
    }
}

/// Where the line of a record stands beside the lanes.
pub fn side_line(n: u64) -> u64
    ensures value { result ≡ spec.side_line n }
    ensures bound { result ≤ 6096 }
{
    96 + 15 * n.min(400)
}
