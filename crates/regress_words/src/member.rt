//! What classes and their members match, in words.

use crate::characters::{character_words, listed, name_of_character};
use crate::properties::property_words;
use regress_labels::{is_seen, push_symbol};
use std::alloc::{AllocError, Global};

/// The maximum number of members that a list has. Of a longer one the number of omitted members is at its end.
const LISTED: usize = 12;

/// A member of a class: a character, a range, an escape, a string, or a class inside.
#[derive(Drop)]
pub(crate) struct Member {
    /// On its own: `a hyphen (-)`.
    pub(crate) alone: String,
    /// In a list: `"-"`.
    listed: String,
    /// As an exception: `"-"`, `digits`.
    except: String,
    kind: Kind,
}

/// What a member is written as.
#[derive(Clone, Copy)]
enum Kind {
    Character,
    /// A character that has a name.
    Named,
    Range,
    /// More words, which come first in a list.
    Nouns,
}

impl Member {
    pub(crate) fn character(alloc: Global, c: u32) -> Result<Member, AllocError> {
        Ok(Member {
            alone: character_words(alloc, c, false)?,
            listed: listed(alloc, c, false)?,
            except: listed(alloc, c, true)?,
            kind: match name_of_character(c, false) {
                Some(_) => Kind::Named,
                None => Kind::Character,
            },
        })
    }

    /// Returns a range of characters.
    pub(crate) fn range(alloc: Global, first: u32, last: u32) -> Result<Member, AllocError> {
        let (from, to) = (end_of_range(alloc, first)?, end_of_range(alloc, last)?);
        let what = match (first, last) {
            (0x30..=0x39, 0x30..=0x39) => "a digit",
            (0x41..=0x5A, 0x41..=0x5A) | (0x61..=0x7A, 0x61..=0x7A) => "a letter",
            _ => "a character",
        };
        Ok(Member {
            alone: format!(in alloc; "{what} from {from} to {to}")?,
            listed: format!(in alloc; "{from} to {to}")?,
            except: format!(in alloc; "{from} to {to}")?,
            kind: Kind::Range,
        })
    }

    /// Returns what has the same words on its own, in a list, and, in the plural, as an exception.
    pub(crate) fn nouns(alloc: Global, one: &str, many: &str) -> Result<Member, AllocError> {
        Ok(Member {
            alone: String::from_str(alloc, one)?,
            listed: String::from_str(alloc, one)?,
            except: String::from_str(alloc, many)?,
            kind: Kind::Nouns,
        })
    }

    /// Returns a property, from the text in its braces.
    pub(crate) fn property(
        alloc: Global,
        name: &str,
        inverted: bool,
    ) -> Result<Member, AllocError> {
        let nouns = property_words(alloc, name)?;
        if !inverted {
            return Member::nouns(alloc, &nouns.one, &nouns.many);
        }
        Member::all_except(alloc, &nouns.many)
    }

    /// Returns what matches any character except these.
    fn all_except(alloc: Global, many: &str) -> Result<Member, AllocError> {
        let one = ["any character except ", many].concat(alloc)?;
        let all = ["all characters except ", many].concat(alloc)?;
        Member::nouns(alloc, &one, &all)
    }

    fn is_character(&self) -> bool {
        matches!(self.kind, Kind::Character | Kind::Named)
    }

    fn is_plain(&self) -> bool {
        !matches!(self.kind, Kind::Nouns)
    }
}

/// Returns the first or the last character of a range: itself in quotation marks, or its number if it is invisible.
fn end_of_range(alloc: Global, c: u32) -> Result<String, AllocError> {
    if is_seen(c) {
        return listed(alloc, c, false);
    }
    let mut text = String::new(alloc);
    if c == 0x20 {
        text.push_str("a space")?;
    } else {
        push_symbol(c, alloc, &mut text)?;
    }
    Ok(text)
}

/// How the members of a class are combined.
#[derive(Clone, Copy)]
pub(crate) enum Operator {
    Union,
    Intersection,
    Difference,
}

/// Returns what a class with these members matches, or if `inverted` what it does not.
pub(crate) fn class_of(
    alloc: Global,
    inverted: bool,
    operator: Operator,
    mut members: Vec<Member>,
) -> Result<Member, AllocError> {
    if members.is_empty() {
        let (never, all) = ("no character: this never matches", "any character");
        return Member::nouns(alloc, if inverted { all } else { never }, "all characters");
    }
    if members.len() == 1
        && !inverted
        && let Some(only) = members.pop()
    {
        return Ok(only);
    }
    if inverted {
        return except(alloc, operator, &members);
    }
    let one = one_of(alloc, operator, &members)?;
    let many = all_of(alloc, operator, &members)?;
    Member::nouns(alloc, &one, &many)
}

/// Returns what matches any character except those of the members.
fn except(alloc: Global, operator: Operator, members: &[Member]) -> Result<Member, AllocError> {
    let many = match members {
        [only] if matches!(only.kind, Kind::Named) => String::from_str(alloc, &only.alone)?,
        _ => all_of(alloc, operator, members)?,
    };
    Member::all_except(alloc, &many)
}

/// Returns one character of those of the members.
fn one_of(alloc: Global, operator: Operator, members: &[Member]) -> Result<String, AllocError> {
    let (first, rest) = match (operator, members) {
        (Operator::Union, members) => return one_listed(alloc, members),
        (_, [first, rest @ ..]) => (first, rest),
        _ => return Ok(String::new(alloc)),
    };
    if let Operator::Difference = operator {
        let rest = list(alloc, rest, Form::Except, " and ")?;
        return [&first.alone, ", except ", &rest].concat(alloc);
    }
    let mut words = String::from_str(alloc, &first.alone)?;
    for other in rest {
        words.push_str(" that is also ")?;
        words.push_str(&other.alone)?;
    }
    Ok(words)
}

/// Returns one of several members.
fn one_listed(alloc: Global, members: &[Member]) -> Result<String, AllocError> {
    let are_two = members.len() == 2 && members.iter().all(|member| member.is_character());
    if are_two || !members.iter().all(|member| member.is_plain()) {
        return list(alloc, members, Form::Listed, " or ");
    }
    let list = list(alloc, members, Form::Listed, " and ")?;
    ["one of ", &list].concat(alloc)
}

/// Returns all characters of the members, for an exception.
fn all_of(alloc: Global, operator: Operator, members: &[Member]) -> Result<String, AllocError> {
    let (first, rest) = match (operator, members) {
        (Operator::Union, members) => return list(alloc, members, Form::Except, " and "),
        (_, [first, rest @ ..]) => (first, rest),
        _ => return Ok(String::new(alloc)),
    };
    let word = match operator {
        Operator::Difference => " other than ",
        _ => " that are also ",
    };
    let rest = list(alloc, rest, Form::Except, " and ")?;
    [&first.except, word, &rest].concat(alloc)
}

/// The form of the members of a list.
#[derive(Clone, Copy)]
enum Form {
    Listed,
    Except,
}

/// Returns a list of members: first those of more words, then the characters. A long one is cut off.
fn list(alloc: Global, members: &[Member], form: Form, last: &str) -> Result<String, AllocError> {
    let count = members.len();
    let shown = if count > LISTED { LISTED } else { count };
    let mut list = String::new(alloc);
    let mut written = 0_usize;
    for plain in [false, true] {
        for member in members {
            if member.is_plain() == plain && written < shown {
                written = written.saturating_add(1);
                let between = between(written, shown, count, last);
                list.push_str(between)?;
                list.push_str(in_list(member, form))?;
            }
        }
    }
    if count > shown {
        let more = count - shown;
        list.push_str(&format!(in alloc; "{last}{more} more")?)?;
    }
    Ok(list)
}

/// Returns what precedes a member of a list, numbered from 1.
fn between(written: usize, shown: usize, count: usize, last: &str) -> &str {
    if written <= 1 {
        ""
    } else if written == shown && shown == count {
        last
    } else {
        ", "
    }
}

/// Returns a member as a list has it.
fn in_list(member: &Member, form: Form) -> &str {
    match form {
        Form::Listed => member.listed.as_str(),
        Form::Except => member.except.as_str(),
    }
}
