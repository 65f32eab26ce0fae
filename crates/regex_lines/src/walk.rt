//! The files that are searched: those that are named, and those below directories.
ghost use Rattle.std.specs.Prelude.{◌≡◌, ◌++◌, ℕ, List, None, [], All, IfOk, OnOk, chars, false, map, string_bytes, true};
ghost use Rattle.regex_options.specs.Plain.{file_list, name_glob};
ghost use Rattle.regex_lines.specs.Searched.{is_standard};
ghost use Rattle.regex_lines.specs.Walk.{AreDefault, IfEntry, IsEntry, IsFound, IsNamed, IsSelectedBelow, decided, filter, filter_of, found_of, joined, selects, selects_by_default, separator};

use crate::place::{STANDARD_INPUT, is_standard};
use crate::unread::{Reason, UnreadPath, reason_for};
use memchr::memchr;
use regex_glob::Glob;
use regex_options::{FileList, NameGlob};
use regress_base::util::code_points;
use std::alloc::{AllocError, Global};
use std::fs::{Files, Metadata, metadata, symlink_metadata};
use std::io::{self, ErrorKind, Read};

/// The bytes of names that are read at once from a directory. A name has at most 255.
const NAMES_AT_ONCE: usize = 65536;

/// The files that are found for a list of names.
#[derive(Drop)]
pub struct Found {
    /// The names of the files, where `-` is standard input.
    pub files: Vec<String>,
    /// Whether names are in front of lines by default.
    pub several: bool,
    /// What cannot be read below directories.
    pub unread: Vec<UnreadPath>,
}

/// A glob, and whether files that it matches are searched, or are not.
#[derive(Drop)]
pub(crate) struct Filter {
    pub(crate) glob: Glob,
    pub(crate) includes: bool,
}

/// A directory to visit, or a file to search.
#[derive(Drop)]
pub(crate) struct Entry {
    pub(crate) path: String,
    pub(crate) is_directory: bool,
}

/// What is found for a name in a directory.
#[derive(Drop)]
enum Visited {
    /// A directory, or a file that is searched.
    Entry(Entry),
    /// It is not known, or cannot be opened by a name in UTF-8.
    Unread(UnreadPath),
    /// Nothing that is searched.
    Other,
}

/// Returns the files that are searched: those that are named, and with `recursive` in place of a directory the regular
/// files below it. Symbolic links below it are not followed. In a directory names are in the order of their bytes.
///
/// # Errors
/// Returns an error if an allocation fails.
pub fn find_files<R: Files + AllocGlobal>(rt: &R, list: FileList<'_>) -> Result<Found, AllocError>
    ensures { IfOk result (λ found. IsFound (file_list list.entry) (found_of found)) }
{
    let filters = filters_of(rt.alloc(), list.globs)?;
    if list.names.is_empty() {
        return find_by_default(rt, list.recursive, &filters);
    }
    let mut found = Found {
        files: Vec::new(rt.alloc()),
        several: list.names.len() > 1,
        unread: Vec::new(rt.alloc()),
    };
    for name in list.names {
        if list.recursive && is_directory(rt, name.as_str()) {
            found.several = true;
            add_below(rt, name.as_str(), &filters, &mut found)?;
        } else {
            add_named(rt, name.as_str(), &filters, &mut found.files)?;
        }
    }
    Ok(found)
}

/// Returns the files that are searched where none is named: standard input, or those below the current directory.
fn find_by_default<R: Files + AllocGlobal>(
    rt: &R,
    recursive: bool,
    filters: &[Filter],
) -> Result<Found, AllocError>
    ensures files { IfOk result (λ found. AreDefault recursive (map filter filters.now) (map string_bytes found.files.items)) }
    ensures several { IfOk result (λ found. found.several ≡ recursive) }
    ensures read { recursive ≡ false → IfOk result (λ found. found.unread.items ≡ []) }
{
    let mut found = Found {
        files: Vec::new(rt.alloc()),
        several: recursive,
        unread: Vec::new(rt.alloc()),
    };
    if recursive {
        add_below(rt, "", filters, &mut found)?;
    } else {
        found
            .files
            .push(String::from_str(rt.alloc(), STANDARD_INPUT)?)?;
    }
    Ok(found)
}

/// Parses globs.
fn filters_of(alloc: Global, globs: &[NameGlob<'_>]) -> Result<Vec<Filter>, AllocError>
    ensures { IfOk result (λ filters. map filter filters.items ≡ map filter_of (map name_glob globs.now)) }
{
    let mut filters = Vec::new(alloc);
    for glob in globs {
        filters.push(Filter {
            glob: Glob::new(alloc, glob.text)?,
            includes: glob.includes,
        })?;
    }
    Ok(filters)
}

/// Returns whether a name is that of a directory, and not of standard input. A symbolic link is followed.
fn is_directory<R: Files>(rt: &R, name: &str) -> bool
    ensures { is_standard name.now ≡ true → result ≡ false }
{
    match metadata_of(rt, name) {
        Some(found) => found.is_dir(),
        None => false,
    }
}

/// Returns whether a name is that of something but a directory, and not of standard input.
fn is_file<R: Files>(rt: &R, name: &str) -> bool
    ensures { is_standard name.now ≡ true → result ≡ false }
{
    match metadata_of(rt, name) {
        Some(found) => !found.is_dir(),
        None => false,
    }
}

/// Returns what is known of the file with a name, which is not standard input. A symbolic link is followed.
fn metadata_of<R: Files>(rt: &R, name: &str) -> Option<Metadata>
    ensures { is_standard name.now ≡ true → result ≡ None }
{
    if is_standard(name) {
        return None;
    }
    metadata(rt, name).ok()
}

/// Adds a file that is named, unless it is one that is not selected.
fn add_named<R: Files + AllocGlobal>(
    rt: &R,
    name: &str,
    filters: &[Filter],
    to: &mut Vec<String>,
) -> Result<(), AllocError>
    ensures { OnOk result ((files : List (List ℕ)) × IsNamed (map filter filters.now) name.now files
        × (map string_bytes to.new.items ≡ map string_bytes to.old.items ++ files)) }
{
    if !filters.is_empty() && is_file(rt, name) && !selects(rt.alloc(), filters, name)? {
        return Ok(());
    }
    to.push(String::from_str(rt.alloc(), name)?)?;
    Ok(())
}

/// Returns whether a file with this name is searched.
fn selects(alloc: Global, filters: &[Filter], name: &str) -> Result<bool, AllocError>
    ensures { IfOk result (λ is. is ≡ selects (map filter filters.now) (chars name.now)) }
{
    let points = code_points(alloc, name)?;
    let mut selected = selects_by_default(filters);
    for filter in filters {
        if filter.glob.matches_name(alloc, &points)? {
            selected = filter.includes;
        }
    }
    Ok(selected)
}

/// Returns whether a file is searched that no glob matches.
fn selects_by_default(filters: &[Filter]) -> bool
    ensures { result ≡ selects_by_default (map filter filters.now) }
{
    match filters {
        [first, ..] => !first.includes,
        [] => true,
    }
}

/// Adds the files below a directory. An empty path denotes the current one.
fn add_below<R: Files + AllocGlobal>(
    rt: &R,
    root: &str,
    filters: &[Filter],
    found: &mut Found,
) -> Result<(), AllocError>
    ensures files { OnOk result ((files : List (List ℕ)) × All (IsSelectedBelow (map filter filters.now) root.now) files
        × (map string_bytes found.new.files.items ≡ map string_bytes found.old.files.items ++ files)) }
    ensures several { OnOk result (found.new.several ≡ found.old.several) }
{
    let mut pending = Vec::new(rt.alloc());
    pending.push(Entry {
        path: String::from_str(rt.alloc(), root)?,
        is_directory: true,
    })?;
    for _ in 0..u64::MAX {
        let Some(entry) = pending.pop() else {
            return Ok(());
        };
        if entry.is_directory {
            let mut entries = entries_in(rt, entry.path.as_str(), filters, &mut found.unread)?;
            pending.append(&mut entries)?;
        } else {
            found.files.push(entry.path)?;
        }
    }
    Ok(())
}

/// Returns the directories in a directory and the files that are searched, from the last name to the first, and adds what
/// cannot be read.
fn entries_in<R: Files + AllocGlobal>(
    rt: &R,
    directory: &str,
    filters: &[Filter],
    unread: &mut Vec<UnreadPath>,
) -> Result<Vec<Entry>, AllocError>
    ensures { IfOk result (λ entries. All (IsEntry (map filter filters.now) directory.now) entries.items) }
{
    let bytes = names_in(rt, directory, unread)?;
    let names = sorted_names(rt.alloc(), &bytes)?;
    let mut entries = Vec::new(rt.alloc());
    for name in &names {
        match visit(rt, directory, name, filters)? {
            Visited::Entry(entry) => entries.push(entry)?,
            Visited::Unread(path) => unread.push(path)?,
            Visited::Other => {}
        }
    }
    entries.reverse();
    Ok(entries)
}

/// Returns the names in a directory, each with a zero byte after it. If it cannot be read, or not to its end, it is added
/// to what is not read.
fn names_in<R: Files + AllocGlobal>(
    rt: &R,
    directory: &str,
    unread: &mut Vec<UnreadPath>,
) -> Result<Vec<u8>, AllocError> {
    let mut bytes = Vec::new(rt.alloc());
    let path = if directory.is_empty() { "." } else { directory };
    // With a slash a symbolic link is followed, which is only named, and not found.
    let with_slash = joined(rt.alloc(), path, "")?;
    let read = match rt.open_dir(with_slash.as_str()) {
        Ok(mut opened) => read_names(rt.alloc(), &mut opened, &mut bytes)?,
        Err(error) => Err(error),
    };
    if let Err(error) = read {
        unread.push(UnreadPath {
            name: String::from_str(rt.alloc(), path)?,
            reason: reason_for(&error),
        })?;
    }
    Ok(bytes)
}

/// Adds the names in an open directory, each with a zero byte after it. Each read has room for many names, since one that
/// has no room for the next name fails.
fn read_names<D: Read>(
    alloc: Global,
    directory: &mut D,
    names: &mut Vec<u8>,
) -> Result<io::Result<()>, AllocError> {
    let mut buffer = vec![in alloc; 0u8; NAMES_AT_ONCE]?;
    for _ in 0..u64::MAX {
        match directory.read(buffer.as_mut_slice()) {
            Ok(0) => return Ok(Ok(())),
            Ok(count) => names.extend_from_slice(&buffer[..count])?,
            Err(error) if error.kind() == ErrorKind::Interrupted => {}
            Err(error) => return Ok(Err(error)),
        }
    }
    Ok(Ok(()))
}

/// Returns names, each with a zero byte after it, in the order of their bytes, but not `.` and `..`.
fn sorted_names(alloc: Global, bytes: &[u8]) -> Result<Vec<&[u8]>, AllocError> {
    let mut names = Vec::new(alloc);
    let mut rest = bytes;
    while let Some(end) = memchr(0, rest) {
        let name = &rest[..end];
        if !(name == b".".as_slice() || name == b"..".as_slice()) {
            names.push(name)?;
        }
        rest = &rest[end + 1..];
    }
    names.sort()?;
    Ok(names)
}

/// Returns what is found for a name in a directory.
fn visit<R: Files + AllocGlobal>(
    rt: &R,
    directory: &str,
    name: &[u8],
    filters: &[Filter],
) -> Result<Visited, AllocError>
    ensures { IfOk result (λ visited. IfEntry (IsEntry (map filter filters.now) directory.now) visited) }
{
    let text = String::from_utf8_lossy(rt.alloc(), name)?;
    let path = joined(rt.alloc(), directory, text.as_str())?;
    let reason = match kind_of(rt, path.as_str(), text.as_bytes() == name) {
        Kind::Directory => return Ok(Visited::Entry(Entry {
            path,
            is_directory: true,
        })),
        Kind::Other => return Ok(Visited::Other),
        Kind::File => None,
        Kind::Unknown(reason) => Some(reason),
    };
    if !selects(rt.alloc(), filters, text.as_str())? {
        return Ok(Visited::Other);
    }
    match reason {
        None => Ok(Visited::Entry(Entry {
            path,
            is_directory: false,
        })),
        Some(reason) => Ok(Visited::Unread(UnreadPath { name: path, reason })),
    }
}

/// What a path names.
#[derive(Clone, Copy)]
enum Kind {
    /// A directory.
    Directory,
    /// A regular file.
    File,
    /// Something else, as a symbolic link.
    Other,
    /// It is not known for this reason.
    Unknown(Reason),
}

/// Returns what a path names, which is known only if its bytes are UTF-8.
fn kind_of<R: Files>(rt: &R, path: &str, is_utf8: bool) -> Kind {
    if !is_utf8 {
        return Kind::Unknown(Reason::NotUtf8);
    }
    match symlink_metadata(rt, path) {
        Ok(found) if found.is_dir() => Kind::Directory,
        Ok(found) if found.is_file() => Kind::File,
        Ok(_) => Kind::Other,
        Err(error) => Kind::Unknown(reason_for(&error)),
    }
}

/// Returns the path of what has a name in a directory. That of the current directory is empty here.
fn joined(alloc: Global, directory: &str, name: &str) -> Result<String, AllocError>
    ensures { IfOk result (λ path. string_bytes path ≡ joined directory.now name.now) }
{
    let mut path = String::from_str(alloc, directory)?;
    path.push_str(separator(directory))?;
    path.push_str(name)?;
    Ok(path)
}

/// Returns what is between the path of a directory and a name in it.
fn separator(directory: &str) -> &'static str
    ensures { result.now ≡ separator directory.now }
{
    match directory.as_bytes().last() {
        Some(b'/') | None => "",
        Some(_) => "/",
    }
}
