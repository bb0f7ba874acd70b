//! The outcome of a command.
use zh_returns::Reason;

/// The outcome of a command that was submitted.
#[derive(Clone, Copy)]
pub enum Outcome {
    /// It is on the disk and counted. The number is that of all accepted commands, including this one.
    Stored(u64),
    /// The count already has what it says.
    Same,
    /// The count refuses it, for this reason.
    Refused(Reason),
    /// It would be accepted but cannot be stored: 2^64 - 1 commands are already accepted; or the journal has too few pages left
    /// for it, and the generation of the snapshot is 2^64 - 1; or the slot in use has format One, in which nothing is written
    /// any more.
    Spent,
    /// It is accepted, but the device failed: the disk may or may not hold it, and it is not counted.
    Device,
    /// The device has failed before. Nothing is judged until the disk is opened again.
    Broken,
}
