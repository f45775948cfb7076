//! A database file that isn't there yet.

use std::fs::OpenOptions;
use std::io::{ErrorKind, Write};
use std::os::unix::fs::{MetadataExt, OpenOptionsExt};
use std::{fs, io};

/// How long a page of a new file is, in bytes. A commit writes each page that it touches and takes a digest of it, so
/// that pages of half the engine's own length make a request a fifth cheaper.
const PAGE: usize = 2_048;

/// Who may read and write a new file: its owner, and others only read. So the engine makes one too.
const MODE: u32 = 0o644;

/// An empty database: its one page, with the fields of a file's header that aren't 0
/// (<https://www.sqlite.org/fileformat2.html>).
fn blank_page() -> [u8; PAGE] {
    let mut page = [0; PAGE];
    page[..16].copy_from_slice(b"SQLite format 3\0");
    page[16..18].copy_from_slice(&[8, 0]); // a page's length
    page[18..20].copy_from_slice(&[2, 2]); // written and read by a log
    page[21..24].copy_from_slice(&[64, 32, 32]); // the shares of a page that a row may take
    page[27] = 1; // changes made
    page[31] = 1; // pages
    page[47] = 4; // the format of the schema
    page[59] = 1; // texts are UTF-8
    page[95] = 1; // the change at which the number of pages was told
    page[100] = 13; // a leaf of a table, that of the schema
    page[105..107].copy_from_slice(&[8, 0]); // where its rows begin: behind the page
    page
}

/// Whether both names are there and are those of one file.
fn is_one_file(rt: &HostRuntime, first: &str, second: &str) -> bool {
    match (
        fs::symlink_metadata(rt, first),
        fs::symlink_metadata(rt, second),
    ) {
        (Ok(first), Ok(second)) => first.dev() == second.dev() && first.ino() == second.ino(),
        _ => false,
    }
}

/// Writes an empty database at a path where there is no file.
fn write_blank(rt: &HostRuntime, path: &str) -> io::Result<()> {
    let mut file = OpenOptions::new()
        .write(true)
        .create_new(true)
        .mode(MODE)
        .open(rt, path)?;
    file.write_all(&blank_page())?;
    file.sync_all()
}

/// Takes the first name of the file at a path away, where an earlier process stopped before it did so, and tells
/// whether it stood there.
fn take_first_name(rt: &HostRuntime, path: &str) -> io::Result<bool> {
    let made = format!(in rt.alloc(); "{path}-new")?;
    if !is_one_file(rt, made.as_str(), path) {
        return Ok(false);
    }
    fs::remove_file(rt, made.as_str())?;
    Ok(true)
}

/// Makes an empty database file where the path has none, and no log. It is written beside it, under the name with
/// `-new` behind it, and takes its own name once it is whole, so that a stop leaves no part of it there.
fn make_whole(rt: &HostRuntime, path: &str) -> io::Result<()> {
    if take_first_name(rt, path)? {
        return Ok(());
    }
    let made = format!(in rt.alloc(); "{path}-new")?;
    let log = format!(in rt.alloc(); "{path}-wal")?;
    for name in [path, log.as_str()] {
        if fs::symlink_metadata(rt, name).is_ok() {
            return Ok(());
        }
    }
    if let Err(error) = write_blank(rt, made.as_str()) {
        // A part of it may stand there, unless it is another process's.
        if error.kind() != ErrorKind::AlreadyExists {
            let _ = fs::remove_file(rt, made.as_str());
        }
        return Err(error);
    }
    // A file that another process has made meanwhile stays.
    let linked = fs::hard_link(rt, made.as_str(), path);
    fs::remove_file(rt, made.as_str())?;
    linked
}

/// Makes the database file at a path, empty, where there is none: its pages are of 2,048 bytes, which costs a request
/// less than the 4,096 of a file that the engine makes. Where this fails nothing is told, since the engine then makes
/// the file, or tells why it can't.
pub(crate) fn make_file(rt: &HostRuntime, path: &str) {
    let _ = make_whole(rt, path);
}

/// Takes the first name of the file at a path away, where a stop left it, and makes nothing. Where this fails nothing
/// is told: the engine opens no file with two names.
pub(crate) fn drop_first_name(rt: &HostRuntime, path: &str) {
    let _ = take_first_name(rt, path);
}
