//! The system's words for errors of files.

use std::io;

/// Returns the system's words for an error, as `No space left on device`, if it is one that files have.
pub(crate) fn system_words(error: &io::Error) -> Option<&'static str> {
    match error.raw_os_error()? {
        1 => Some("Operation not permitted"),
        2 => Some("No such file or directory"),
        5 => Some("Input/output error"),
        6 => Some("No such device or address"),
        13 => Some("Permission denied"),
        16 => Some("Device or resource busy"),
        17 => Some("File exists"),
        20 => Some("Not a directory"),
        21 => Some("Is a directory"),
        22 => Some("Invalid argument"),
        23 => Some("Too many open files in system"),
        24 => Some("Too many open files"),
        26 => Some("Text file busy"),
        27 => Some("File too large"),
        28 => Some("No space left on device"),
        30 => Some("Read-only file system"),
        36 => Some("File name too long"),
        40 => Some("Too many levels of symbolic links"),
        75 => Some("Value too large for defined data type"),
        95 => Some("Operation not supported"),
        116 => Some("Stale file handle"),
        122 => Some("Disk quota exceeded"),
        _ => None,
    }
}
