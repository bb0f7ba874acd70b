//! Disks that fail: one passes a number of calls and then fails for good, the other fails in a single call.
ghost use Rattle.std.specs.Prelude.{◌≡◌, ◌+◌, ◌≤◌, true, false, length, is_err, Some};
ghost use Rattle.zh_disk.specs.Disk.{Reads, Writes, Syncs};
ghost use Rattle.zh_disk.specs.Failing.{one_fewer, fails_once};
ghost use Rattle.zh_disk.specs.History.{Call, Counts, failures_after};
ghost use Rattle.zh_disk.specs.declared.disk.TheConstants.{DISK_LENGTH};

use crate::disk::{DISK_LENGTH, Disk, DiskFault};

/// How many calls still pass after one more call. `None` once the first call that fails by design has come.
fn one_fewer(left: Option<u64>) -> Option<u64>
    ensures { result ≡ one_fewer left }
{
    left?.checked_sub(1)
}

/// A disk that passes a number of calls to the disk inside and then fails for good. Inside an [`OnceDisk`] only one call fails.
#[derive(Drop)]
pub struct FailingDisk<D: Disk + Drop> {
    inner: D,
    // how many calls still pass; `None` once the first call that fails by design has come
    left: Option<u64>,
    // whether only one call fails by design
    fails_once: bool,
    failures: u64,
}

impl<D: Disk + Drop> FailingDisk<D> {
    ghost use Rattle.zh_disk.specs.Failing.{IsFailing, inside, calls_left, fails_once, failures_met};

    /// A failing disk that passes this many calls. The next call fails, but if it is a write it still
    /// reaches the disk inside. Every later call fails and does nothing.
    pub fn new(inner: D, calls: u64) -> Self
        ensures { IsFailing inner calls false result }
    {
        FailingDisk {
            inner,
            left: Some(calls),
            fails_once: false,
            failures: 0,
        }
    }

    /// A failing disk that passes all calls except the one after this many. That call fails, but if it
    /// is a write it still reaches the disk inside.
    pub(crate) fn once(inner: D, calls: u64) -> Self
        ensures { IsFailing inner calls true result }
    {
        let mut failing = FailingDisk::new(inner, calls);
        failing.fails_once = true;
        failing
    }

    /// The disk inside.
    pub fn into_inner(self) -> D
        ensures { result ≡ inside self }
    {
        self.inner
    }

    /// Counts a failure if the call failed. Returns the result of the call.
    fn counted(&mut self, done: Result<(), DiskFault>) -> Result<(), DiskFault>
        ensures answer { result ≡ done }
        ensures inner { inside self.new ≡ inside self.old }
        ensures left { calls_left self.new ≡ calls_left self.old }
        ensures once { fails_once self.new ≡ fails_once self.old }
        ensures counts { Counts (is_err result) (failures_met self.old) (failures_met self.new) }
        ensures rises { failures_met self.new ≡ failures_after (failures_met self.old) result }
    {
        if done.is_err() {
            self.failures = self.failures.saturating_add(1);
        }
        done
    }
}

impl<D: Disk + Drop> Disk for FailingDisk<D> {
    ghost use Rattle.zh_disk.specs.Failing.{inside, failing_history, FailsAfter, IsSame, ReachesWrite};

    ghost history = { failing_history D.history };

    ghost leaves = { λ d. D.leaves (inside d) };

    ghost leaves_images = { λ d h. D.leaves_images (inside d) h };

    ghost size = { λ d h. D.size (inside d) h };

    fn read_at(&mut self, at: u64, into: &mut [u8]) -> Result<(), DiskFault>
        requires { at + length into.old ≤ DISK_LENGTH }
        ensures call { Call is_err (Reads at (length into.old) into.new)
            (failing_history D.history self.old) (failing_history D.history self.new) result }
        ensures failing { FailsAfter D.history IsSame self.old self.new result }
    {
        let left = self.left;
        self.left = one_fewer(left);
        match left {
            Some(0) => self.counted(Err(DiskFault::Device)),
            None if !self.fails_once => self.counted(Err(DiskFault::Device)),
            _ => {
                let done = self.inner.read_at(at, into);
                self.counted(done)
            }
        }
    }

    fn write_at(&mut self, at: u64, from: &[u8]) -> Result<(), DiskFault>
        requires { at + length from.now ≤ DISK_LENGTH }
        ensures call { Call is_err (Writes at from.now)
            (failing_history D.history self.old) (failing_history D.history self.new) result }
        ensures failing { FailsAfter D.history (ReachesWrite D.history at from.now)
            self.old self.new result }
    {
        let left = self.left;
        self.left = one_fewer(left);
        match left {
            Some(0) => {
                let _reached = self.inner.write_at(at, from);
                self.counted(Err(DiskFault::Device))
            }
            None if !self.fails_once => self.counted(Err(DiskFault::Device)),
            _ => {
                let done = self.inner.write_at(at, from);
                self.counted(done)
            }
        }
    }

    fn sync(&mut self) -> Result<(), DiskFault>
        ensures call { Call is_err Syncs
            (failing_history D.history self.old) (failing_history D.history self.new) result }
        ensures failing { FailsAfter D.history IsSame self.old self.new result }
    {
        let left = self.left;
        self.left = one_fewer(left);
        match left {
            Some(0) => self.counted(Err(DiskFault::Device)),
            None if !self.fails_once => self.counted(Err(DiskFault::Device)),
            _ => {
                let done = self.inner.sync();
                self.counted(done)
            }
        }
    }
}

/// A disk that passes each call to the disk inside, except for one call, which fails.
#[derive(Drop)]
pub struct OnceDisk<D: Disk + Drop> {
    failing: FailingDisk<D>,
    ghost once: { fails_once failing ≡ true },
}

impl<D: Disk + Drop> OnceDisk<D> {
    ghost use Rattle.zh_disk.specs.Once.{disk_inside, calls_before, once_failures};

    /// A disk that fails only the call after this many. If that call is a write it still reaches the
    /// disk inside, so its range can be pending.
    pub fn new(inner: D, calls: u64) -> Self
        ensures inner { disk_inside result ≡ inner }
        ensures before { calls_before result ≡ Some calls }
        ensures failures { once_failures result ≡ 0 }
    {
        OnceDisk {
            failing: FailingDisk::once(inner, calls),
        }
    }

    /// The disk inside.
    pub fn into_inner(self) -> D
        ensures { result ≡ disk_inside self }
    {
        self.failing.into_inner()
    }
}

impl<D: Disk + Drop> Disk for OnceDisk<D> {
    ghost use Rattle.zh_disk.specs.Failing.{IsSame, ReachesWrite};
    ghost use Rattle.zh_disk.specs.Once.{disk_inside, once_history, FailsOnce};

    ghost history = { once_history };

    ghost leaves = { λ d. D.leaves (disk_inside d) };

    ghost leaves_images = { λ d h. D.leaves_images (disk_inside d) h };

    ghost size = { λ d h. D.size (disk_inside d) h };

    fn read_at(&mut self, at: u64, into: &mut [u8]) -> Result<(), DiskFault>
        requires { at + length into.old ≤ DISK_LENGTH }
        ensures call { Call is_err (Reads at (length into.old) into.new)
            (once_history self.old) (once_history self.new) result }
        ensures once { FailsOnce IsSame self.old self.new result }
    {
        self.failing.read_at(at, into)
    }

    fn write_at(&mut self, at: u64, from: &[u8]) -> Result<(), DiskFault>
        requires { at + length from.now ≤ DISK_LENGTH }
        ensures call { Call is_err (Writes at from.now) (once_history self.old) (once_history self.new) result }
        ensures once { FailsOnce (ReachesWrite D.history at from.now) self.old self.new result }
    {
        self.failing.write_at(at, from)
    }

    fn sync(&mut self) -> Result<(), DiskFault>
        ensures call { Call is_err Syncs (once_history self.old) (once_history self.new) result }
        ensures once { FailsOnce IsSame self.old self.new result }
    {
        self.failing.sync()
    }
}
