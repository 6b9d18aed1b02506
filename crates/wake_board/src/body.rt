//! What a shared task takes along from thread to thread.

/// What the run of a shared task needs: its row, and how often it was taken.
#[derive(Clone, Copy, Debug, PartialEq, Eq)]
pub struct Body {
    pub row: u32,
    pub takes: u64,
}
