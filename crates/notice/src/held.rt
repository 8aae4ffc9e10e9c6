use super::tables::{Place, Tables};

// A text that tells figures, read: what it states, or where it is faulty.
#[derive(Drop)]
pub struct Notice {
    pub(crate) found: Result<Tables, Place>,
}
