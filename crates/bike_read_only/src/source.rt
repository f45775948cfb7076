//! Either of two disks.

ghost use Rattle.std.specs.Prelude.{◌≡◌};
ghost use Rattle.bike_read_only.specs.Either.{from_either, fair_either, stays_either};

use sqlite_disk::{Disk, Tally};
use std::io;

/// Where the bytes of one of a database's two files come from.
#[derive(Drop)]
pub enum Source<A: Disk, B: Disk> {
    /// From the file itself.
    File(A),
    /// From a copy of it.
    Copy(B),
}

impl<A: Disk, B: Disk> Disk for Source<A, B> {
    ghost seen = { from_either A.Disk.seen B.Disk.seen };

    ghost may_leave = { from_either A.Disk.may_leave B.Disk.may_leave };

    ghost is_usable = { from_either A.Disk.is_usable B.Disk.is_usable };

    ghost faults = { from_either A.Disk.faults B.Disk.faults };

    ghost tally_of = { from_either A.Disk.tally_of B.Disk.tally_of };

    ghost is_clean = { from_either A.Disk.is_clean B.Disk.is_clean };

    ghost key_of = { from_either A.Disk.key_of B.Disk.key_of };

    ghost is_fair = { from_either A.Disk.is_fair B.Disk.is_fair };

    ghost is_rotten = { from_either A.Disk.is_rotten B.Disk.is_rotten };

    ghost is_mixing = { from_either A.Disk.is_mixing B.Disk.is_mixing };

    ghost fair_if_clean = { fair_either A.Disk.fair_if_clean B.Disk.fair_if_clean };

    ghost seen_may_stay = { stays_either A.Disk.may_leave B.Disk.may_leave A.Disk.seen_may_stay B.Disk.seen_may_stay };

    fn mixes(&self) -> bool {
        match self {
            Source::File(file) => file.mixes(),
            Source::Copy(copy) => copy.mixes(),
        }
    }

    fn key(&self) -> u64 {
        match self {
            Source::File(file) => file.key(),
            Source::Copy(copy) => copy.key(),
        }
    }

    fn tally(&self) -> Tally {
        match self {
            Source::File(file) => file.tally(),
            Source::Copy(copy) => copy.tally(),
        }
    }

    fn may_be_used(&self) -> bool {
        match self {
            Source::File(file) => file.may_be_used(),
            Source::Copy(copy) => copy.may_be_used(),
        }
    }

    fn len(&mut self) -> io::Result<usize> {
        match self {
            Source::File(file) => file.len(),
            Source::Copy(copy) => copy.len(),
        }
    }

    fn read_at(&mut self, at: usize, buf: &mut [u8]) -> io::Result<()> {
        match self {
            Source::File(file) => file.read_at(at, buf),
            Source::Copy(copy) => copy.read_at(at, buf),
        }
    }

    fn read_checked(&mut self, key: u64, want: u64, at: usize, buf: &mut [u8]) -> io::Result<()> {
        match self {
            Source::File(file) => file.read_checked(key, want, at, buf),
            Source::Copy(copy) => copy.read_checked(key, want, at, buf),
        }
    }

    fn write_at(&mut self, at: usize, bytes: &[u8]) -> io::Result<()> {
        match self {
            Source::File(file) => file.write_at(at, bytes),
            Source::Copy(copy) => copy.write_at(at, bytes),
        }
    }

    fn set_len(&mut self, len: usize) -> io::Result<()> {
        match self {
            Source::File(file) => file.set_len(len),
            Source::Copy(copy) => copy.set_len(len),
        }
    }

    fn sync(&mut self) -> io::Result<()> {
        match self {
            Source::File(file) => file.sync(),
            Source::Copy(copy) => copy.sync(),
        }
    }
}
