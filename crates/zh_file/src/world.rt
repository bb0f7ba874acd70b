//! Everything outside the program.

/// What became of a remark, which a task makes in addition to its answer.
#[derive(Clone, Copy)]
pub enum Remark {
    /// It was written, or there was none.
    Whole,
    /// The writer failed while it was written.
    Broken,
}

/// The streams and the files that a task is given.
///
/// The type has no bounds, so that clauses can read it as a plain record.
#[derive(Drop)]
pub struct World<I, O, E, F> {
    /// The lines to be answered.
    pub input: I,
    /// The answers.
    pub output: O,
    /// The reports of faults, and remarks.
    pub faults: E,
    /// What became of the last remark to `faults`. It does not change the status.
    pub remark: Remark,
    /// The texts and the disks by their paths.
    pub files: F,
}

/// How a task ended, and the disk that it used, if it opened one.
#[derive(Drop)]
pub struct Ended<T, D> {
    pub result: T,
    /// The disk, with the record of its calls. It is handed over whatever the result.
    pub used: Option<D>,
}
