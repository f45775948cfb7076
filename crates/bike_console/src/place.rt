//! What stands at the path of a database file before it is opened.

ghost use Rattle.std.specs.Prelude.{IfErr};
ghost use Rattle.bike_console.specs.Files.{IsOpeningFault};

use crate::blank::{drop_first_name, make_file};
use crate::closing::Remains;
use crate::end::Fault;
use crate::link::has_log_of_a_link;
use crate::log::may_hold_commit;
use sqlite_disk::Disk;
use std::fs;
use std::io::ErrorKind;

/// Whether the path is that of a file: no database in memory, and no URI.
pub(crate) fn is_plain(path: &str) -> bool {
    path != ":memory:" && !path.starts_with("file:")
}

/// Whether there is nothing of that name, and no link either.
fn is_missing(rt: &HostRuntime, path: &str) -> bool {
    match fs::symlink_metadata(rt, path) {
        Ok(_) => false,
        Err(error) => error.kind() == ErrorKind::NotFound,
    }
}

/// Whether a log that may hold commits stands beside a path at which there is no file.
fn has_lone_log(rt: &HostRuntime, path: &str) -> Result<bool, Fault>
    ensures { IfErr result IsOpeningFault }
{
    let log = format!(in rt.alloc(); "{path}-wal")?;
    match fs::symlink_metadata(rt, log.as_str()) {
        Ok(found) => Ok(may_hold_commit(found.len() as usize)),
        Err(_) => Ok(false),
    }
}

/// Whether the database file at a path has at most one byte, so that nothing was made in it.
fn is_blank(rt: &HostRuntime, path: &str) -> bool {
    match fs::metadata(rt, path) {
        Ok(found) => found.len() <= 1,
        Err(_) => false,
    }
}

/// What a task wants to find at the path of a database file.
#[derive(Clone, Copy, Debug, PartialEq, Eq)]
pub enum Wanted {
    /// Any file, which is made where there is none.
    AnyFile,
    /// A file.
    FileThere,
    /// A file in which something was made.
    FileInUse,
}

/// Sees to a path before its database file is opened. A file that is missing is made, if any file is wanted; what is
/// wanted and isn't found is `StoreFailed`, and nothing is made. So is a log that may hold commits and has no file:
/// what it goes on from is gone, and a new file would take its place. So is one at the name of a link to the file,
/// where the engine doesn't read it.
pub fn prepare_file(rt: &HostRuntime, path: &str, wanted: Wanted) -> Result<(), Fault>
    ensures { IfErr result IsOpeningFault }
{
    if !is_plain(path) {
        return Ok(());
    }
    let is_found = match wanted {
        Wanted::AnyFile => !is_missing(rt, path) || !has_lone_log(rt, path)?,
        Wanted::FileThere => !is_missing(rt, path),
        Wanted::FileInUse => !is_missing(rt, path) && !is_blank(rt, path),
    };
    if !is_found || has_log_of_a_link(rt, path)? {
        return Err(Fault::StoreFailed);
    }
    match wanted {
        Wanted::AnyFile => make_file(rt, path),
        Wanted::FileThere | Wanted::FileInUse => drop_first_name(rt, path),
    }
    Ok(())
}

/// The name of the log of the database file at a path; none where memory is refused.
pub(crate) fn log_name(rt: &HostRuntime, path: &str) -> Option<String> {
    let name = match fs::canonicalize(rt, path) {
        Ok(real) => format!(in rt.alloc(); "{}-wal", real.as_str()),
        Err(_) => format!(in rt.alloc(); "{path}-wal"),
    };
    match name {
        Ok(name) => Some(name),
        Err(_) => None,
    }
}

/// The name of the log of a database file that has none yet.
#[derive(Drop)]
pub struct NewLog {
    name: Option<String>,
}

impl NewLog {
    /// No log.
    pub(crate) fn none() -> NewLog {
        NewLog { name: None }
    }

    /// The log that an opening of this path would make; none where there is one, or where its name can't be told.
    pub fn beside(rt: &HostRuntime, path: &str) -> NewLog {
        match log_name(rt, path) {
            Some(name) if is_missing(rt, name.as_str()) => NewLog { name: Some(name) },
            _ => NewLog::none(),
        }
    }

    /// The log that an opening of this path would make, where a database stands there already. A file whose making was
    /// stopped is known by its log, so that log stays.
    pub(crate) fn beside_database(rt: &HostRuntime, path: &str) -> NewLog {
        match fs::metadata(rt, path) {
            Ok(found) if found.len() > 1 => NewLog::beside(rt, path),
            _ => NewLog::none(),
        }
    }

    /// Takes that log away, unless it is so long that it may hold commits. The caller holds the lock of the database
    /// file, so that no other program has opened it.
    pub fn remove(self, rt: &HostRuntime) {
        let Some(name) = self.name else {
            return;
        };
        match fs::symlink_metadata(rt, name.as_str()) {
            Ok(found) if !may_hold_commit(found.len() as usize) => {
                // Where this fails an empty log stays, which does no harm.
                let _ = fs::remove_file(rt, name.as_str());
            }
            _ => {}
        }
    }

    /// Takes that log away, as `remove` does, where the connection is still open, and with it the lock of the database
    /// file.
    pub fn remove_where_open<D: Disk>(self, rt: &HostRuntime, remains: &Remains<D>) {
        match remains {
            Remains::Open(_) => self.remove(rt),
            Remains::Settled(_) | Remains::Unsettled(_) => {}
        }
    }
}
