//! Groups with modifiers, such as `(?i:a)`, which a tree does not have.

use regress_base::types::Flags;
use regress_parse::Span;
use std::alloc::{AllocError, Global};

/// A group with modifiers.
#[derive(Drop)]
pub struct Modifier {
    /// Its span, with its parentheses.
    pub span: Span,
    /// What it changes, in words.
    pub words: String,
}

/// What is known of a pattern from its text alone.
#[derive(Drop)]
pub struct Scan {
    /// The groups with modifiers, in the order of the pattern.
    pub modifiers: Vec<Modifier>,
    /// Whether the flag v is set.
    pub sets: bool,
    /// Whether the flag u or v is set.
    pub(crate) unicode: bool,
    /// For each index of the pattern, whether case is ignored there.
    icase: Vec<bool>,
}

impl Scan {
    /// Returns whether case is ignored at an index.
    pub fn ignores_case(&self, index: usize) -> bool {
        self.icase.get(index).copied().unwrap_or(false)
    }
}

/// A scan that is being made.
#[derive(Drop)]
struct Scanner<'a> {
    alloc: Global,
    pattern: &'a [u32],
    scan: Scan,
    icase: bool,
    /// How many brackets of classes are open.
    brackets: usize,
    /// The groups that are open: of each the index of its modifiers, and whether case is ignored after it.
    groups: Vec<(Option<usize>, bool)>,
    /// Whether the character before is a backslash that escapes this one.
    escaped: bool,
}

/// Returns what is known of a pattern from its text.
///
/// # Errors
/// Returns [`AllocError`] if an allocation fails.
///
/// # Complexity
/// Linear in the length of the pattern.
pub fn scanned(alloc: Global, pattern: &[u32], flags: Flags) -> Result<Scan, AllocError> {
    let mut scanner = Scanner {
        alloc,
        pattern,
        scan: Scan {
            modifiers: Vec::new(alloc),
            sets: flags.unicode_sets,
            unicode: flags.unicode || flags.unicode_sets,
            icase: Vec::new(alloc),
        },
        icase: flags.icase,
        brackets: 0,
        groups: Vec::new(alloc),
        escaped: false,
    };
    for (index, c) in pattern.iter().enumerate() {
        scanner.read(index, *c)?;
    }
    Ok(scanner.scan)
}

impl Scanner<'_> {
    fn read(&mut self, index: usize, c: u32) -> Result<(), AllocError> {
        self.scan.icase.push(self.icase)?;
        if self.escaped {
            self.escaped = false;
            return Ok(());
        }
        match c {
            0x5C => self.escaped = true,
            0x5B if self.brackets == 0 || self.scan.sets => {
                self.brackets = self.brackets.saturating_add(1);
            }
            0x5D => self.brackets = self.brackets.saturating_sub(1),
            0x28 if self.brackets == 0 => self.begin(index)?,
            0x29 if self.brackets == 0 => self.end(index),
            _ => {}
        }
        Ok(())
    }

    /// Reads the start of a group.
    fn begin(&mut self, index: usize) -> Result<(), AllocError> {
        let icase = self.icase;
        let Some(letters) = modifiers_at(self.pattern, index) else {
            self.groups.push((None, icase))?;
            return Ok(());
        };
        let number = self.scan.modifiers.len();
        self.scan.modifiers.push(Modifier {
            span: Span {
                start: index,
                end: self.pattern.len(),
            },
            words: modifier_words(self.alloc, letters)?,
        })?;
        self.groups.push((Some(number), icase))?;
        self.icase = changed(icase, letters);
        Ok(())
    }

    /// Reads the end of a group.
    fn end(&mut self, index: usize) {
        let Some((number, icase)) = self.groups.pop() else {
            return;
        };
        self.icase = icase;
        if let Some(modifier) = number.and_then(|number| self.scan.modifiers.get_mut(number)) {
            modifier.span.end = index.saturating_add(1);
        }
    }
}

/// Returns the letters of the modifiers of a group that begins at an index, with their hyphen; `None` if it has none.
fn modifiers_at(pattern: &[u32], index: usize) -> Option<&[u32]> {
    let start = index.checked_add(2)?;
    let rest = pattern.get(start..)?;
    if pattern.get(index.checked_add(1)?).copied() != Some(0x3F) {
        return None;
    }
    let length = rest
        .iter()
        .position(|c| !matches!(*c, 0x69 | 0x6D | 0x73 | 0x2D))?;
    match rest.get(length) {
        Some(0x3A) if length > 0 => rest.get(..length),
        _ => None,
    }
}

/// Returns whether case is ignored inside of modifiers.
fn changed(icase: bool, letters: &[u32]) -> bool {
    let mut on = true;
    let mut inside = icase;
    for letter in letters {
        match *letter {
            0x2D => on = false,
            0x69 => inside = on,
            _ => {}
        }
    }
    inside
}

/// Returns what modifiers change.
fn modifier_words(alloc: Global, letters: &[u32]) -> Result<String, AllocError> {
    let mut words = String::from_str(alloc, "from here to `)`")?;
    let mut on = true;
    let mut between = ": ";
    for letter in letters {
        let Some(change) = change(*letter, on) else {
            on = false;
            continue;
        };
        words.push_str(between)?;
        words.push_str(change)?;
        between = ", ";
    }
    Ok(words)
}

/// Returns what a letter changes; `None` for the hyphen.
fn change(letter: u32, on: bool) -> Option<&'static str> {
    Some(match (letter, on) {
        (0x69, true) => "ignoring case",
        (0x69, false) => "not ignoring case",
        (0x6D, true) => "^ and $ also match at the ends of lines",
        (0x6D, false) => "^ and $ match only at the ends of the text",
        (0x73, true) => ". also matches line ends",
        (0x73, false) => ". matches no line end",
        _ => return None,
    })
}
