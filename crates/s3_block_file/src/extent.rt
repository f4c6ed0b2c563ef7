//! Where a body lies.
ghost use Rattle.std.specs.Prelude.{◌≡◌, ◌↔◌, IsTrue, ◌≤◌, ◌^◌};
ghost use Rattle.s3_block_file.specs.Extent.{granules_for, offset_of, IsAddressable, IsInside, EndsWithin};

/// Space is given out by pieces of so many bytes.
pub const GRANULE: usize = 4096;

/// No extent begins past this granule.
pub const MAX_GRANULE: usize = 1 << 40;

/// No extent has more bytes.
pub const MAX_SIZE: usize = 1 << 50;

/// Where a body lies in a file: from the start of a granule on, with nothing else in its granules.
#[derive(Clone, Copy, PartialEq, Eq)]
pub struct Extent {
    /// Its first granule. The first one of the file is 0.
    pub first: usize,
    /// How many bytes it has.
    pub size: usize,
}

impl Extent {
    /// How many granules it takes.
    pub fn granules(&self) -> usize
        ensures { result ≡ granules_for self.now.size }
    {
        granule_count(self.size)
    }

    /// Whether its place and its size are within the limits.
    pub fn is_addressable(&self) -> bool
        ensures { IsTrue result ↔ IsAddressable self.now }
    {
        self.first <= MAX_GRANULE && self.size <= MAX_SIZE
    }

    /// Where its first byte lies in the file.
    pub fn offset(&self) -> usize
        requires { self.now.first ≤ 2 ^ 40 }
        ensures { result ≡ offset_of self.now }
    {
        self.first * GRANULE
    }

    /// Whether it ends within so many bytes.
    pub(crate) fn ends_within(&self, size: usize) -> bool
        requires { IsAddressable self.now }
        ensures { IsTrue result ↔ EndsWithin size self.now }
    {
        self.offset() + self.size <= size
    }

    /// Whether so many bytes from this one on are all in the extent, and it is within the limits.
    pub fn is_inside(&self, from: usize, count: usize) -> bool
        ensures { IsTrue result ↔ IsInside self.now from count }
    {
        self.is_addressable() && count <= self.size && from <= self.size - count
    }
}

/// How many granules so many bytes take.
pub(crate) fn granule_count(size: usize) -> usize
    ensures { result ≡ granules_for size }
{
    size.div_ceil(GRANULE)
}
