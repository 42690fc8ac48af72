//! The log that SQLite keeps beside a file while that is open, and after a crash.

use std::{fs, io};

/// The bytes of the shortest log that holds a page: its header, and the head of a page with 512 bytes.
pub(crate) const SHORTEST_LOG: u64 = 32 + 24 + 512;

/// The path of the log beside a file. It lies where a link to the file leads.
fn log_path(rt: &HostRuntime, path: &str) -> io::Result<String> {
    let real = fs::canonicalize(rt, path)?;
    Ok(format!(in rt.alloc(); "{}-wal", real.as_str())?)
}

/// The bytes of a file, if there is one.
fn length_of(rt: &HostRuntime, path: &str) -> Option<u64> {
    match fs::metadata(rt, path) {
        Ok(found) => Some(found.len()),
        Err(_) => None,
    }
}

/// Whether a file has one byte and no log. SQLite's first byte is written beside a log, so it is somebody else's file,
/// which an opening would take for a database that is half made.
pub(crate) fn is_stray_byte(rt: &HostRuntime, path: &str) -> bool {
    match log_path(rt, path) {
        Ok(log) => length_of(rt, path) == Some(1) && length_of(rt, log.as_str()).is_none(),
        Err(_) => false,
    }
}

/// Removes the log beside a file if it has fewer bytes than this. The file has to be open meanwhile, so that nobody else
/// makes use of its log.
pub(crate) fn remove_log_below(rt: &HostRuntime, path: &str, bytes: u64) -> io::Result<()> {
    let log = log_path(rt, path)?;
    if fs::symlink_metadata(rt, log.as_str())?.len() < bytes {
        fs::remove_file(rt, log.as_str())?;
    }
    Ok(())
}
