//! What two programs come to beside each other.

use cob_base::Text;

/// What two programs come to beside each other.
#[derive(Drop)]
pub enum Compared {
    /// They ended in the same way, with the same events, so many.
    Same(u128),
    /// They differ at the event of that number, from 1.
    Differ(u128),
    /// One of them still ran after its last step, and they were the same up to there.
    Budget,
    /// The device of that name failed, on the bench of the first program.
    FirstFault(Text),
    /// The device of that name failed, on the bench of the second program.
    SecondFault(Text),
    NoMemory,
}
