//! The parts of a pattern.

use regress_labels::Character;
use regress_parse::Span;

/// A part of a pattern: what a node of the tree is written as, characters one after the other, or a group with
/// modifiers.
#[derive(Drop)]
pub struct Part {
    /// Where it is in the pattern.
    pub span: Span,
    /// What it matches.
    pub words: String,
    /// The parts inside, in the order of the pattern.
    pub parts: Vec<Part>,
    /// How it is explained.
    pub kind: Kind,
}

/// How a part is explained.
#[derive(Clone, Copy)]
pub enum Kind {
    /// A character, which may become a part of a text. It has no words yet.
    Character(Character),
    /// In a line of its own, or at the end of the line of the part around it.
    Short,
    /// In a line of its own, and one for each part inside.
    Whole,
    /// In a line that includes what the only part inside matches.
    Inline,
}

/// A list of parts in the order of the pattern.
pub type Parts = Vec<Part>;
