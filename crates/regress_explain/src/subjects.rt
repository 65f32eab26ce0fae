//! What a pattern is about, as the names of its groups tell.

use crate::elements::Element;
use regress_labels::push_symbol;
use regress_words::name_of_character;
use std::alloc::{AllocError, Global};

/// The maximum number of groups that a sentence names.
const NAMED: usize = 8;

/// What has parts of these names, or of those that are not empty. The first that fits counts.
const KINDS: [(&str, [&str; 3]); 9] = [
    ("a date and time", ["year", "month", "hour"]),
    ("a date", ["year", "month", ""]),
    ("a time", ["hour", "minute", ""]),
    ("a version", ["major", "minor", ""]),
    ("a URL", ["scheme", "host", ""]),
    ("a URL", ["scheme", "domain", ""]),
    ("a URL", ["protocol", "host", ""]),
    ("a URL", ["protocol", "domain", ""]),
    ("a color", ["red", "green", "blue"]),
];

/// The named groups of a pattern that are in no other one, and what is between them.
#[derive(Drop)]
struct Named<'a> {
    names: Vec<&'a str>,
    /// How many named groups are open.
    depth: usize,
    /// What is between the last group and the next.
    between: Between,
    /// The separator of all groups so far, and how many there are.
    separator: Separator,
}

/// What is between two groups.
#[derive(Clone, Copy)]
enum Between {
    Nothing,
    One(u32),
    More,
}

/// What separates groups.
#[derive(Clone, Copy)]
enum Separator {
    Unknown,
    Same { c: u32, count: usize },
    Different,
}

/// Returns what a pattern with several named groups is about: `a date as year, month and day, with hyphens`. `None` if
/// there are not two to eight of them.
///
/// # Errors
/// Returns [`AllocError`] if an allocation fails.
pub(crate) fn subject(
    alloc: Global,
    elements: &[Element<'_>],
) -> Result<Option<String>, AllocError> {
    let mut named = Named {
        names: Vec::new(alloc),
        depth: 0,
        between: Between::Nothing,
        separator: Separator::Unknown,
    };
    for element in elements {
        named.add(*element)?;
    }
    if named.names.len() < 2 || named.names.len() > NAMED {
        return Ok(None);
    }
    let kind = named.kind();
    let list = list(alloc, &named.names)?;
    let separators = separator_words(alloc, named.separator)?;
    [kind, " as ", &list, &separators].concat(alloc).map(Some)
}

impl<'a> Named<'a> {
    fn add(&mut self, element: Element<'a>) -> Result<(), AllocError> {
        match element {
            Element::Begin(name) => {
                if self.depth == 0 {
                    self.begin(name)?;
                }
                self.depth = self.depth.saturating_add(1);
            }
            Element::End => {
                self.depth = self.depth.saturating_sub(1);
                self.between = Between::Nothing;
            }
            Element::Character { character, .. } => {
                self.between = match self.between {
                    Between::Nothing => Between::One(character.c),
                    _ => Between::More,
                };
            }
            Element::Other => self.between = Between::More,
            Element::Anchor { .. } | Element::Assertion(_) | Element::Position => {}
        }
        Ok(())
    }

    fn begin(&mut self, name: &'a str) -> Result<(), AllocError> {
        if !self.names.is_empty() {
            self.separator = self.separator.with(self.between);
        }
        if self.names.len() <= NAMED {
            self.names.push(name)?;
        }
        Ok(())
    }

    fn has(&self, name: &str) -> bool {
        self.names.iter().any(|other| *other == name)
    }

    fn has_all(&self, names: &[&str]) -> bool {
        for name in names {
            if !name.is_empty() && !self.has(name) {
                return false;
            }
        }
        true
    }

    /// Returns what has parts of these names.
    fn kind(&self) -> &'static str {
        for (kind, names) in &KINDS {
            if self.has_all(names) {
                return *kind;
            }
        }
        let is_at = matches!(self.separator, Separator::Same { c: 0x40, .. });
        if is_at && (self.has("host") || self.has("domain")) {
            "an e-mail address"
        } else {
            "a text"
        }
    }
}

impl Separator {
    /// Returns the separator of the groups with one more of these between them.
    fn with(self, between: Between) -> Separator {
        match (self, between) {
            (Separator::Unknown, Between::One(c)) => Separator::Same { c, count: 1 },
            (Separator::Same { c, count }, Between::One(other)) if c == other => {
                let count = count.saturating_add(1);
                Separator::Same { c, count }
            }
            _ => Separator::Different,
        }
    }
}

/// Returns names in a list.
fn list(alloc: Global, names: &[&str]) -> Result<String, AllocError> {
    let mut list = String::new(alloc);
    for (index, name) in names.iter().enumerate() {
        if index > 0 {
            let is_last = index.saturating_add(1) == names.len();
            list.push_str(if is_last { " and " } else { ", " })?;
        }
        for c in name.chars().take(20) {
            push_symbol(u32::from(c), alloc, &mut list)?;
        }
    }
    Ok(list)
}

fn separator_words(alloc: Global, separator: Separator) -> Result<String, AllocError> {
    let Separator::Same { c, count } = separator else {
        return Ok(String::new(alloc));
    };
    match name_of_character(c, count > 1) {
        Some(words) => [", with ", words].concat(alloc),
        None => Ok(String::new(alloc)),
    }
}
