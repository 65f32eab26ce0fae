//! Classes in words, from what is written.

use crate::characters::is_cased;
use crate::escape::character_at;
use crate::member::{Member, Operator, class_of};
use crate::texts::shown;
use regress_base::util::code_points;
use std::alloc::{AllocError, Global};

/// What a class matches.
#[derive(Drop)]
pub(crate) struct Class {
    pub(crate) words: String,
    /// Whether it has characters that may have another one in the other case.
    pub(crate) is_cased: bool,
}

/// A class that is being read.
#[derive(Drop)]
struct Open {
    inverted: bool,
    operator: Operator,
    members: Vec<Member>,
    /// The escapes among its members, a bit for each.
    escapes: u8,
}

/// A class and those around it that are being read.
#[derive(Drop)]
struct Reader<'a> {
    alloc: Global,
    text: &'a [u32],
    at: usize,
    open: Vec<Open>,
    is_cased: bool,
}

/// Returns what a class matches; `None` if the text is not one class, or has an escape that depends on the rest of the
/// pattern.
pub(crate) fn read_class(
    alloc: Global,
    text: &[u32],
    sets: bool,
) -> Result<Option<Class>, AllocError> {
    let mut reader = Reader {
        alloc,
        text,
        at: 0,
        open: Vec::new(alloc),
        is_cased: false,
    };
    for _member in 0..text.len() {
        match reader.next(sets)? {
            Step::More => {}
            Step::Unknown => return Ok(None),
            Step::Done(words) => {
                let is_cased = reader.is_cased;
                return Ok(if reader.at == text.len() {
                    Some(Class { words, is_cased })
                } else {
                    None
                });
            }
        }
    }
    Ok(None)
}

/// What follows a step of reading.
#[derive(Drop)]
enum Step {
    More,
    Done(String),
    Unknown,
}

impl Reader<'_> {
    fn peek(&self, ahead: usize) -> Option<u32> {
        self.text.get(self.at.checked_add(ahead)?).copied()
    }

    fn advance(&mut self, by: usize) {
        self.at = self.at.saturating_add(by);
    }

    /// Reads a bracket, an operator or a member.
    fn next(&mut self, sets: bool) -> Result<Step, AllocError> {
        match (self.peek(0), self.peek(1)) {
            (Some(0x5B), _) if sets || self.open.is_empty() => self.begin(),
            _ if self.open.is_empty() => Ok(Step::Unknown),
            (Some(0x5D), _) => self.end(),
            (Some(0x2D), Some(0x2D)) if sets => Ok(self.operator(Operator::Difference)),
            (Some(0x26), Some(0x26)) if sets => Ok(self.operator(Operator::Intersection)),
            (Some(0x5C), Some(letter)) => self.escape(letter, sets),
            (Some(_), _) => self.character(sets),
            (None, _) => Ok(Step::Unknown),
        }
    }

    fn begin(&mut self) -> Result<Step, AllocError> {
        let inverted = self.peek(1) == Some(0x5E);
        self.advance(if inverted { 2 } else { 1 });
        self.open.push(Open {
            inverted,
            operator: Operator::Union,
            members: Vec::new(self.alloc),
            escapes: 0,
        })?;
        Ok(Step::More)
    }

    fn end(&mut self) -> Result<Step, AllocError> {
        self.advance(1);
        let Some(open) = self.open.pop() else {
            return Ok(Step::Unknown);
        };
        let class = closed(self.alloc, open)?;
        if self.open.is_empty() {
            return Ok(Step::Done(class.alone));
        }
        self.add(class)
    }

    fn operator(&mut self, operator: Operator) -> Step {
        self.advance(2);
        if let Some(open) = self.open.last_mut() {
            open.operator = operator;
        }
        Step::More
    }

    fn add(&mut self, member: Member) -> Result<Step, AllocError> {
        if let Some(open) = self.open.last_mut() {
            open.members.push(member)?;
        }
        Ok(Step::More)
    }

    /// Reads what begins with a backslash.
    fn escape(&mut self, letter: u32, sets: bool) -> Result<Step, AllocError> {
        match letter {
            0x70 | 0x50 => self.property(letter == 0x50),
            0x71 if sets => self.strings(),
            0x62 => {
                self.advance(2);
                self.add(Member::character(self.alloc, 0x08)?)
            }
            _ => match class_escape(letter) {
                Some((one, many, bit)) => {
                    self.advance(2);
                    if let Some(open) = self.open.last_mut() {
                        open.escapes |= bit;
                    }
                    self.add(Member::nouns(self.alloc, one, many)?)
                }
                None => self.character(sets),
            },
        }
    }

    /// Reads a character, or a range if one follows.
    fn character(&mut self, sets: bool) -> Result<Step, AllocError> {
        let Some(first) = character_at(self.text, self.at) else {
            return Ok(Step::Unknown);
        };
        self.at = first.end;
        self.is_cased |= is_cased(first.c);
        let ends = matches!(self.peek(1), None | Some(0x5D)) || sets && self.peek(1) == Some(0x2D);
        if self.peek(0) == Some(0x2D)
            && !ends
            && let Some(last) = character_at(self.text, self.at.saturating_add(1))
        {
            self.at = last.end;
            self.is_cased |= last.c >= 0x41 && first.c <= 0x7A || last.c > 0x7F;
            return self.add(Member::range(self.alloc, first.c, last.c)?);
        }
        self.add(Member::character(self.alloc, first.c)?)
    }

    /// Reads a property.
    fn property(&mut self, inverted: bool) -> Result<Step, AllocError> {
        let Some(name) = self.braces()? else {
            return Ok(Step::Unknown);
        };
        self.is_cased = true;
        self.add(Member::property(self.alloc, &name, inverted)?)
    }

    /// Reads strings: `\q{ab|c}`.
    fn strings(&mut self) -> Result<Step, AllocError> {
        let Some(all) = self.braces()? else {
            return Ok(Step::Unknown);
        };
        self.is_cased = true;
        for text in all.split('|') {
            let shown = shown(self.alloc, &code_points(self.alloc, text)?)?;
            let text = format!(in self.alloc; "\"{shown}\"")?;
            let member = Member::nouns(self.alloc, &text, &text)?;
            self.add(member)?;
        }
        Ok(Step::More)
    }

    /// Reads an escape with braces, and returns the text in them; `None` if there are none, or an escape is inside.
    fn braces(&mut self) -> Result<Option<String>, AllocError> {
        let start = self.at.saturating_add(3);
        let rest = self.text.get(start..).unwrap_or(&[]);
        let (Some(0x7B), Some(length)) = (self.peek(2), rest.iter().position(|c| *c == 0x7D)) else {
            return Ok(None);
        };
        self.at = start.saturating_add(length).saturating_add(1);
        let mut text = String::new(self.alloc);
        for c in rest.iter().take(length) {
            match char::from_u32(*c) {
                Some('\\') | None => return Ok(None),
                Some(c) => text.push(c)?,
            }
        }
        Ok(Some(text))
    }
}

/// Returns what a class matches that is read. One with an escape and its opposite has every character.
fn closed(alloc: Global, open: Open) -> Result<Member, AllocError> {
    let Open {
        inverted,
        operator,
        members,
        escapes,
    } = open;
    let opposites = escapes & (escapes >> 1) & 0b010101;
    if opposites != 0 && matches!(operator, Operator::Union) {
        return class_of(alloc, !inverted, operator, Vec::new(alloc));
    }
    class_of(alloc, inverted, operator, members)
}

/// Returns what a class escape matches: one character and several, and its bit.
fn class_escape(letter: u32) -> Option<(&'static str, &'static str, u8)> {
    Some(match letter {
        0x64 => ("a digit", "digits", 0b1),
        0x44 => (
            "any character except digits",
            "all characters except digits",
            0b10,
        ),
        0x77 => ("a word character", "word characters", 0b100),
        0x57 => (
            "any character except word characters",
            "all characters except word characters",
            0b1000,
        ),
        0x73 => ("white space", "white space", 0b1_0000),
        0x53 => (
            "any character except white space",
            "all characters except white space",
            0b10_0000,
        ),
        _ => return None,
    })
}
