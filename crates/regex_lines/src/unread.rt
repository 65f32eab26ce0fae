//! Inputs that are not read.

use crate::words::system_words;
use std::io::{self, ErrorKind, Write};

/// An input that is not read, or not to its end.
#[derive(Clone, Copy)]
pub struct Unread<'a> {
    /// Its name.
    pub name: &'a str,
    /// Why it is not read.
    pub reason: Reason,
}

/// A path that is not read: a directory, or a file in one.
#[derive(Drop)]
pub struct UnreadPath {
    /// Its name. A byte of it that is not UTF-8 is U+FFFD.
    pub name: String,
    /// Why it is not read.
    pub reason: Reason,
}

impl UnreadPath {
    ghost use Rattle.std.specs.Prelude.{◌≡◌};
    ghost use Rattle.regex_lines.specs.Unread.{unread_of, unread_path};

    /// Returns the path as an input that is not read.
    pub(crate) fn unread(&self) -> Unread<'_>
        ensures { unread_of result ≡ unread_path self.now }
    {
        Unread {
            name: &self.name,
            reason: self.reason,
        }
    }
}

/// Why an input is not read.
#[derive(Clone, Copy)]
pub enum Reason {
    /// There is no such file.
    NotFound,
    /// The file may not be read.
    Denied,
    /// It is a directory.
    Directory,
    /// Its name is not UTF-8.
    NotUtf8,
    /// This line is not UTF-8 from this byte offset on.
    LineNotUtf8 {
        /// The number of the line, which counts from 1.
        number: u64,
        /// The offset in the line.
        offset: usize,
    },
    /// It is to be rewritten, and is no regular file.
    NotRegular,
    /// It can't be rewritten.
    Unwritten,
    /// It can't be rewritten, for which the system has these words.
    UnwrittenSince(&'static str),
    /// It can't be read, for which the system has these words.
    UnreadSince(&'static str),
    /// Another error.
    Other,
}

/// Returns the reason for an error.
pub(crate) fn reason_of(kind: ErrorKind) -> Reason {
    match kind {
        ErrorKind::NotFound => Reason::NotFound,
        ErrorKind::PermissionDenied => Reason::Denied,
        ErrorKind::IsADirectory => Reason::Directory,
        _ => Reason::Other,
    }
}

/// Returns the reason for an error, in the system's words if it is none of the common ones.
pub(crate) fn reason_for(error: &io::Error) -> Reason {
    match (reason_of(error.kind()), system_words(error)) {
        (Reason::Other, Some(words)) => Reason::UnreadSince(words),
        (reason, _) => reason,
    }
}

/// Writes what a message says of a reason.
pub(crate) fn write_reason<E: Write>(reason: Reason, to: &mut E) -> io::Result<()> {
    match reason {
        Reason::NotFound => to.write_all(b"No such file or directory"),
        Reason::Denied => to.write_all(b"Permission denied"),
        Reason::Directory => to.write_all(b"Is a directory"),
        Reason::NotUtf8 => to.write_all(b"the name is not UTF-8"),
        Reason::LineNotUtf8 { number, offset } => {
            write!(to, "line {number} is not UTF-8, at byte offset {offset}")
        }
        Reason::NotRegular => to.write_all(b"not a regular file"),
        Reason::Unwritten => to.write_all(b"can't be rewritten"),
        Reason::UnwrittenSince(words) => write!(to, "can't be rewritten: {words}"),
        Reason::UnreadSince(words) => write!(to, "can't be read: {words}"),
        Reason::Other => to.write_all(b"can't be read"),
    }
}
