// Neighbouring days with one quota and one percent, and the kWh billed for them.
#[derive(Clone, Copy, PartialEq, Debug)]
pub struct Part {
    pub first: u16,
    pub last: u16,
    pub quota: u32,
    pub percent: u8,
    pub kwh: u32,
    pub charged: u32,
}

// At most four parts, in the order of their days; entries behind the count are not looked at.
// An array and a count: records are copied into storage that the caller lends, and an `ArrayVec` is no `Copy`. No
// invariant keeps the count, since that would ask more of who lends storage.
#[derive(Clone, Copy)]
pub struct Parts {
    pub count: u8,
    pub list: [Part; 4],
}
