//! Regions of a memory, as sets of octets.

ghost use Rattle.std.specs.Prelude.{◌↔◌, IsTrue};
ghost use Rattle.qw_map.specs.Region.{IsIn, AreDisjoint, IsInside};

/// Consecutive octets: the address of the first one, and how many there are. It may reach past the greatest `u64`.
#[derive(Clone, Copy, Debug, PartialEq, Eq)]
pub struct Region {
    pub start: u64,
    pub len: u64,
}

impl Region {
    /// Whether the octet at an address lies in the region.
    pub fn contains(self, address: u64) -> bool
        ensures { IsTrue result ↔ IsIn self address }
    {
        self.start <= address && address - self.start < self.len
    }
}

/// Whether no octet lies in both regions. An empty region has none.
pub fn disjoint(a: Region, b: Region) -> bool
    ensures { IsTrue result ↔ AreDisjoint a b }
{
    a.len == 0 || b.len == 0 || !a.contains(b.start) && !b.contains(a.start)
}

/// Whether each octet of `a` lies in `b`. An empty region lies in every other.
pub fn inside(a: Region, b: Region) -> bool
    ensures { IsTrue result ↔ IsInside a b }
{
    a.len == 0 || b.contains(a.start) && a.len <= b.len - (a.start - b.start)
}
