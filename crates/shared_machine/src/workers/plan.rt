//! What is asked of workers.

use cil_model::stops::StopAt;

/// How many workers there are, when their run ends, and whether their gate holds nobody.
#[derive(Clone, Copy)]
pub(crate) struct Plan {
    pub workers: u8,
    pub stop_at: StopAt,
    pub is_open: bool,
}
