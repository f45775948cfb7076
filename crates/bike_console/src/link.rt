//! Logs at the names of links to a database file. The engine reads the log beside the file itself, and none of those.

ghost use Rattle.std.specs.Prelude.{◌↔◌, IfErr, IsTrue};
ghost use Rattle.bike_console.specs.Files.{IsOpeningFault};
ghost use Rattle.bike_console.specs.Links.{IsRead, IsPassedOver};

use crate::end::Fault;
use crate::found::FoundFile;
use crate::log::may_hold_commit;
use crate::place::log_name;
use std::fs;
use std::path::PathBuf;

/// How many links lead to a file at most: the system follows no more.
const MOST_LINKS: usize = 40;

/// Whether a log is the one that the engine reads.
fn is_read(log: FoundFile, read: Option<FoundFile>) -> bool
    ensures { IsTrue result ↔ IsRead log read }
{
    match read {
        Some(read) => log.is_one(read),
        None => false,
    }
}

/// Whether a log that stands at a link's name may hold commits, and the engine reads another one or none.
fn is_passed_over(log: FoundFile, read: Option<FoundFile>) -> bool
    ensures { IsTrue result ↔ IsPassedOver log read }
{
    may_hold_commit(log.length) && !is_read(log, read)
}

/// The log that the engine reads for a path; none where there is none.
fn log_that_is_read(rt: &HostRuntime, path: &str) -> Option<FoundFile> {
    match log_name(rt, path) {
        Some(name) => FoundFile::at(rt, name.as_str()),
        None => None,
    }
}

/// Whether the path, or a link that it leads to, is the name of a link beside which a log stands that is passed over.
/// Each link is followed by itself. `StoreFailed` where one can't be followed, or where they don't end.
pub(crate) fn has_log_of_a_link(rt: &HostRuntime, path: &str) -> Result<bool, Fault>
    ensures { IfErr result IsOpeningFault }
{
    let mut name = PathBuf::from_str(rt.alloc(), path)?;
    for _ in 0..MOST_LINKS {
        if !name.is_symlink(rt) {
            return Ok(false);
        }
        let beside = format!(in rt.alloc(); "{}-wal", name.as_str())?;
        if let Some(log) = FoundFile::at(rt, beside.as_str()) {
            if is_passed_over(log, log_that_is_read(rt, path)) {
                return Ok(true);
            }
        }
        let Ok(target) = fs::read_link(rt, name.as_str()) else {
            return Err(Fault::StoreFailed);
        };
        name.pop();
        name.push(target.as_str())?;
    }
    Err(Fault::StoreFailed)
}
