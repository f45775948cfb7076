//! A file that is only read.

ghost use Rattle.std.specs.Prelude.{◌≡◌, ◌+◌, false, IsErr};
ghost use Rattle.sqlite_disk.specs.Disk.{CountsFault};
ghost use Rattle.sqlite_disk.specs.Refusal.{finds_no_room};
ghost use Rattle.bike_read_only.specs.Held.{HoldsOnly};

use sqlite_disk::{Disk, Start, Tally};
use std::io;
use std::marker::PhantomData;

/// The database file that held what `S` says, as a disk that can't be written: each write and each change of its length
/// fails, and is a fault. So the file holds what it held, whatever is done over this value.
#[derive(Drop)]
pub struct ReadOnly<D: Disk, S: Start> {
    file: D,
    refused: u64,
    start: PhantomData<S>,
    ghost holds: { HoldsOnly D.Disk S.Start.db file },
}

impl<D: Disk, S: Start> ReadOnly<D, S> {
    /// Puts the file behind a disk that only reads it.
    pub fn new(file: D) -> ReadOnly<D, S>
        requires { HoldsOnly D.Disk S.Start.db file }
        ensures file { result.file ≡ file }
        ensures none { result.refused ≡ 0 }
    {
        ReadOnly {
            file,
            refused: 0,
            start: PhantomData,
        }
    }

    /// Refuses to change the file, and counts that as a fault.
    fn refuse(&mut self) -> io::Result<()>
        ensures refused { IsErr result }
        ensures room { finds_no_room result ≡ false }
        ensures faults { CountsFault result self.old.refused self.new.refused }
        ensures file { self.new.file ≡ self.old.file }
    {
        self.refused = self.refused.saturating_add(1);
        Err(io::ErrorKind::PermissionDenied.into())
    }
}

impl<D: Disk, S: Start> Disk for ReadOnly<D, S> {
    ghost seen = { λ f. D.Disk.seen f.file };

    ghost may_leave = { λ f. D.Disk.may_leave f.file };

    ghost is_usable = { λ f. D.Disk.is_usable f.file };

    ghost faults = { λ f. D.Disk.faults f.file + f.refused };

    ghost tally_of = { λ f. D.Disk.tally_of f.file };

    ghost is_clean = { λ f. D.Disk.is_clean f.file };

    ghost key_of = { λ f. D.Disk.key_of f.file };

    ghost is_fair = { λ f. D.Disk.is_fair f.file };

    ghost is_rotten = { λ f. D.Disk.is_rotten f.file };

    ghost is_mixing = { λ f. D.Disk.is_mixing f.file };

    ghost fair_if_clean = { λ f. D.Disk.fair_if_clean f.file };

    ghost seen_may_stay = { λ f. D.Disk.seen_may_stay f.file };

    fn mixes(&self) -> bool {
        self.file.mixes()
    }

    fn key(&self) -> u64 {
        self.file.key()
    }

    fn tally(&self) -> Tally {
        self.file.tally()
    }

    fn may_be_used(&self) -> bool {
        self.file.may_be_used()
    }

    fn len(&mut self) -> io::Result<usize> {
        self.file.len()
    }

    fn read_at(&mut self, at: usize, buf: &mut [u8]) -> io::Result<()> {
        self.file.read_at(at, buf)
    }

    fn read_checked(&mut self, key: u64, want: u64, at: usize, buf: &mut [u8]) -> io::Result<()> {
        self.file.read_checked(key, want, at, buf)
    }

    fn write_at(&mut self, _at: usize, _bytes: &[u8]) -> io::Result<()> {
        self.refuse()
    }

    fn set_len(&mut self, _len: usize) -> io::Result<()> {
        self.refuse()
    }

    fn sync(&mut self) -> io::Result<()> {
        self.file.sync()
    }
}
