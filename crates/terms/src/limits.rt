/// The retailers of an area, numbered from 1.
pub const RETAILERS: u32 = 16;

/// The largest metered energy of a reading, in MJ. The smallest is 0: a negative one is a refusal of its own.
pub const LARGEST_ENERGY: i64 = 10_000_000;

/// The greatest figure of a point on a day that is estimated, in MJ.
pub const GREATEST_FIGURE: u64 = 1_000_000;
