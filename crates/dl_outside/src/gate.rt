//! When a worker may go on.

/// What each worker passes before each of its calls. A program's gate is open; a test may hold a worker for a while.
pub trait Gate {
    /// Lets the worker with this number, from 1, make this call of its own, from 1.
    fn pass(&self, writer: u8, call: u64);
}
