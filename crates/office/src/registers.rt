use meters::Register;

// The hourly registers that are kept, each in the place of its ID, for so many IDs from 0 on. A table of fixed size: no
// heap.
#[derive(Drop)]
pub struct Registers<const IDS: usize> {
    pub(crate) list: [Option<Register>; IDS],
}
