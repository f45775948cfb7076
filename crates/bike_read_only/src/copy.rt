//! A copy of a file in memory.

ghost use Rattle.std.specs.Prelude.{◌≡◌, ◌≤◌, IsTrue, IfOk};
ghost use Rattle.sqlite_disk.specs.Disk.{MoreFaults};
ghost use Rattle.sqlite_disk.specs.Memory.{memory_bytes, memory_is_usable};
ghost use Rattle.sqlite_wal.specs.Reads.{IsClean, OnlyReads};
ghost use Rattle.bike_read_only.specs.declared.copy.CopyFault.TheVariants.{Unread};

use sqlite_disk::{Disk, Memory};
use std::alloc::Global;

/// Why a file isn't copied.
#[derive(Clone, Copy, Debug, PartialEq, Eq)]
pub enum CopyFault {
    /// Memory was refused.
    OutOfMemory,
    /// The file couldn't be read.
    Unread,
}

/// These bytes as a file in memory.
fn memory_of(alloc: Global, bytes: &[u8]) -> Result<Memory, CopyFault>
    ensures same { IfOk result (λ copy. memory_bytes copy ≡ bytes.now) }
    ensures usable { IfOk result (λ copy. IsTrue (memory_is_usable copy)) }
    ensures kind { result ≡ Err Unread → ⊥ }
{
    let mut copy = Memory::new(alloc);
    match copy.write_at(0, bytes) {
        Ok(()) => Ok(copy),
        Err(_) => Err(CopyFault::OutOfMemory),
    }
}

/// Copies a file into memory. It is only read. `OutOfMemory` where memory is refused, and `Unread` where the disk
/// fails.
pub fn copy_of<D: Disk>(alloc: Global, file: &mut D) -> Result<Memory, CopyFault>
    requires { IsTrue (D.Disk.is_usable file.old) }
    // A copy has the bytes of the file, if the disk is clean, and can be used.
    ensures same { IfOk result (λ copy. IsClean D.Disk file.new → memory_bytes copy ≡ D.Disk.seen file.old) }
    ensures usable { IfOk result (λ copy. IsTrue (memory_is_usable copy)) }
    // `Unread` comes of a further fault of the disk, and no fault is forgotten.
    ensures failed { result ≡ Err Unread → IsClean D.Disk file.new
        → MoreFaults (D.Disk.faults file.old) (D.Disk.faults file.new) }
    ensures counts { D.Disk.faults file.old ≤ D.Disk.faults file.new }
    // The file is only read.
    ensures read { OnlyReads D.Disk file.old file.new }
{
    let Ok(length) = file.len() else {
        return Err(CopyFault::Unread);
    };
    let Ok(mut bytes) = vec![in alloc; 0; length] else {
        return Err(CopyFault::OutOfMemory);
    };
    if file.read_at(0, &mut bytes).is_err() {
        return Err(CopyFault::Unread);
    }
    memory_of(alloc, &bytes)
}
