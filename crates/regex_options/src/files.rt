//! Which files are searched.

/// A glob for the names of files.
#[derive(Clone, Copy)]
pub struct NameGlob<'a> {
    /// The glob.
    pub text: &'a str,
    /// Whether files that it matches are searched, or are not.
    pub includes: bool,
}

/// The files that are named, and which ones of these and of those below them are searched.
#[derive(Clone, Copy)]
pub struct FileList<'a> {
    /// The names.
    pub names: &'a [String],
    /// Whether the files below directories are searched.
    pub recursive: bool,
    /// The globs, of which the last one that matches a name decides.
    pub globs: &'a [NameGlob<'a>],
}
