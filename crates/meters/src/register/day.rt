// A day of a register: the kWh read so far, and a bit for each hour that was read, the lowest for hour 0. Bits, so that
// their count says how many are read, and a register of 366 days is small.
#[derive(Clone, Copy)]
pub struct Day {
    pub(crate) total: u32,
    pub(crate) marks: u32,
}
