// Counts of the two clocks, apart by type: a count of φ clocks cannot stand where internal clocks are meant.
ghost use Rattle.std.specs.Prelude.{◌≡◌, ◌*◌, ◌≤◌};
ghost use Rattle.timing.specs.Counts.{q, in_phi};

/// A number of φ clocks.
#[derive(Clone, Copy, Debug, PartialEq, Eq)]
pub struct PhiCount(pub u64);

/// A number of internal clocks of one end.
#[derive(Clone, Copy, Debug, PartialEq, Eq)]
pub struct InternalCount(pub u32);

/// How an end divides φ: it has an internal clock at every third or at every fourth φ clock.
#[derive(Clone, Copy, Debug, PartialEq, Eq)]
pub enum Divider {
    By3 = 3,
    By4 = 4,
}

impl Divider {
    /// The φ clocks of one internal clock.
    pub fn q(self) -> u32
        ensures value { result ≡ q self }
        ensures bound { result ≤ 4 }
    {
        self as u32
    }

    /// The φ clocks of a number of internal clocks. Nothing else turns one kind of count into the other.
    pub fn in_phi(self, internal: InternalCount) -> PhiCount
        ensures { result ≡ in_phi self internal }
    {
        PhiCount(self.q() as u64 * internal.0 as u64)
    }
}
