//! Syntax errors as sentences.

use crate::hint::Hint;
use crate::hints::hint;
use crate::sentences::sentence;
use crate::source::Place;
use crate::subject::{subject, write_subject};
use crate::topic::topic_of;
use regress_lexer::FaultKind;
use std::fmt::{self, Display, Formatter, Write};

/// A syntax error that displays as a sentence for a person, such as ``unknown escape `\-` (write `-`: ..)``: what is
/// wrong, and what to write if the pattern has the syntax of another engine there. It is without the position and a full
/// stop.
///
/// The sentences may change, other than the name and the number of a kind. They are tested.
#[derive(Clone, Copy)]
pub struct Message<'a> {
    /// What is wrong.
    sentence: &'static str,
    /// The part of the pattern that it is about, empty if there is none to show.
    subject: &'a [u32],
    /// What to write instead.
    hint: Hint,
}

impl<'a> Message<'a> {
    /// Returns the sentence for an error of a kind at a position of a pattern.
    pub fn new(kind: &FaultKind, pattern: &'a [u32], position: usize) -> Message<'a> {
        Message::of_number(kind.number(), pattern, position)
    }

    /// Returns the same for a kind by its number. If there is no such kind, it states only that the pattern is invalid.
    pub fn of_number(number: u32, pattern: &'a [u32], position: usize) -> Message<'a> {
        let topic = topic_of(number);
        let place = Place::at(pattern, position);
        Message {
            sentence: sentence(topic, place),
            subject: subject(topic, place),
            hint: hint(topic, place),
        }
    }
}

impl Display for Message<'_> {
    fn fmt<W: Write>(&self, f: &mut Formatter<W>) -> fmt::Result {
        f.write_str(self.sentence)?;
        write_subject(self.subject, f)?;
        self.hint.write(f)
    }
}
