//! The types of the tree: `Node` and `Regex`.

use regress_base::types::{
    AnchorType, BracketContents, CaptureGroupID, CaptureGroupName, Flags, Quantifier,
};
use std::boxed::BoxedSlice;
use std::ops::Range;

/// A node of the tree of a pattern. `specs/Matching.antt` defines what each kind matches.
///
/// Nodes are matched in a direction: forwards, or backwards inside a lookbehind (a `LookaroundAssertion` with
/// `backwards`; the nearest lookaround around a node determines its direction). Inside a lookbehind the parts of a
/// `Cat` are stored in reverse order. Bytes and strings are always stored in the order of the text.
///
/// An alternation is nested to the right: `a|b|c` is `Alt(a, Alt(b, c))`, so a tree is as deep as an alternation has
/// alternatives. Dropping a tree, `walk`, `walk_mut`, `try_clone`, `is_well_formed` and `Display` follow right sides in
/// loops; they take stack for left sides, parts of `Cat`s and bodies only. The derived `Debug` recurses into right
/// sides, as does any recursive function of a caller's own, such as a comparison: `{:?}` of a tree with very many
/// alternatives, such as 200,000, can overflow the stack. Print such a tree with `Display`.
///
/// `Node` implements `Drop`, so its fields cannot be moved out of a pattern: match by reference, and take a child out
/// by `mem::replace`.
#[derive(Debug)]
pub enum Node {
    /// Matches the empty text.
    Empty,
    /// The end of the pattern, where a match has succeeded. In a well-formed tree it is the root or the last part of a
    /// `Cat` that is the root. It matches the empty text.
    Goal,
    /// Matches the character `c` itself, without folding. If `c` is a surrogate or greater than U+10FFFF, it never
    /// matches.
    Char {
        /// The code point.
        c: u32,
    },
    /// Matches exactly these bytes, which are the UTF-8 of whole characters, in the order of the text also inside a
    /// lookbehind. An empty sequence matches the empty text.
    ByteSequence(Vec<u8>),
    /// Matches one character of a set of at most four ASCII bytes. An empty set never matches.
    ByteSet(Vec<u8>),
    /// Matches one character of a set of at most four code points. An empty set never matches.
    CharSet(Vec<u32>),
    /// A sequence: matches its parts in the order of the list. Inside a lookbehind the list is in reverse order, the
    /// last part of the pattern first, since matching runs backwards there; an emitter therefore emits the parts in the
    /// order of the list in both directions. A `Cat` without parts matches the empty text.
    Cat(Vec<Node>),
    /// An alternation: the outcomes of the left side, and then those of the right side.
    Alt(Box<Node>, Box<Node>),
    /// Matches any character (`.` with the flag s).
    MatchAny,
    /// Matches any character except a line terminator: U+000A, U+000D, U+2028, U+2029 (`.` without the flag s).
    MatchAnyExceptLineTerminator,
    /// Matches the empty text at the start or at the end of the text; with `multiline` also after (`StartOfLine`) or
    /// before (`EndOfLine`) a line terminator. ECMA-262, CompileAssertion, `^` and `$`.
    Anchor {
        /// Whether it is `^` or `$`.
        anchor_type: AnchorType,
        /// Whether it also matches at line terminators: the flag m.
        multiline: bool,
    },
    /// Matches the empty text at a position with a word character on exactly one side; with `invert`, on both sides or
    /// on neither. With `unicode_icase` a character whose canonical form is that of a word character is a word
    /// character too. ECMA-262, CompileAssertion, `\b` and `\B`, and WordCharacters.
    WordBoundary {
        /// Whether it is `\B`.
        invert: bool,
        /// Whether the flags i and u are set.
        unicode_icase: bool,
    },
    /// A capture group: matches its contents and sets the capture `id`, 0-based, to the span that they matched, with
    /// the smaller byte offset first in both directions. A name is not empty, and several groups in different
    /// alternatives may have the same name.
    CaptureGroup {
        /// The id of the group, from 0: one less than its number.
        id: CaptureGroupID,
        /// What the group contains.
        contents: Box<Node>,
        /// The name of the group, if it has one.
        name: Option<CaptureGroupName>,
    },
    /// Matches one character that the bracket accepts: one in its intervals, or with `invert` one outside of them.
    Bracket(BracketContents),
    /// A loop: matches its body the number of times that the quantifier allows. ECMA-262, RepeatMatcher:
    ///
    /// - At the start of each iteration the groups of `enclosed_groups` are reset to unset. This half-open range of ids
    ///   contains exactly the groups inside the body.
    /// - Up to the minimum, an iteration may match the empty text. Past it, an iteration that does not advance the
    ///   position fails: other outcomes of the body are tried, and if none advances, the loop ends before that
    ///   iteration, with the captures from before it.
    Loop {
        // The first field, since it fits beside the discriminant.
        /// The half-open range of the ids of the groups inside the body.
        enclosed_groups: Range<u16>,
        /// The body.
        loopee: Box<Node>,
        /// The number of iterations that are allowed, and their order of preference.
        quant: Quantifier,
    },
    /// A loop whose body contains no group, and takes exactly one character or fails. The body may be a `Char` of a
    /// surrogate, which never matches.
    Loop1CharBody {
        /// The body, which takes one character.
        loopee: Box<Node>,
        /// The number of iterations that are allowed, and their order of preference.
        quant: Quantifier,
    },
    /// A lookaround: matches the empty text at a position from which its contents match; with `negate`, from which they
    /// do not. With `backwards` it is a lookbehind: the contents are matched backwards from the position, and their
    /// `Cat`s are stored in reverse order. Only the first outcome of the contents is used: it sets the captures of the
    /// groups inside, and there is no backtracking into a lookaround. A negated one sets none. The ids of the groups
    /// inside are exactly those of the half-open range from `start_group` to `end_group`. ECMA-262, CompileAssertion.
    LookaroundAssertion {
        /// Whether it is negated: `(?!..)` or `(?<!..)`.
        negate: bool,
        /// Whether it is a lookbehind: `(?<=..)` or `(?<!..)`.
        backwards: bool,
        /// The least id of the groups inside.
        start_group: CaptureGroupID,
        /// One more than the greatest of these ids; `start_group` if there is none.
        end_group: CaptureGroupID,
        /// What is looked for.
        contents: Box<Node>,
    },
    /// A back reference: matches the text of a capture once more, character by character. A back reference to an unset
    /// group matches the empty text. `group` is 1-based: group 1 is the one with id 0. With `icase` two characters are
    /// equal if they have the same canonical form. ECMA-262, BackreferenceMatcher.
    BackRef {
        /// The number of the group, from 1.
        group: u32,
        /// Whether case is ignored: the flag i.
        icase: bool,
    },
    /// Matches one of these strings of code points, tried in the order of the list; each is stored in the order of the
    /// text, also inside a lookbehind. With `icase` two characters are equal if they have the same canonical form. An
    /// empty string matches the empty text, and an empty set never matches.
    StringSet {
        /// The strings, in the order in which they are tried.
        alternatives: Vec<BoxedSlice<u32>>,
        /// Whether case is ignored: the flag i.
        icase: bool,
    },
}

// A pattern has a node for each character, so their size matters.
const _: () = prove!(size_of::<Node>() == 48);

impl Drop for Node {
    // The body or right side is dropped by the next iteration instead of a recursive call.
    fn drop(mut self) {
        loop {
            self = match self {
                Node::ByteSequence(_bytes) | Node::ByteSet(_bytes) => return,
                Node::CharSet(_characters) => return,
                Node::Cat(_parts) => return,
                Node::Alt(_left, right) => Box::into_inner(right),
                Node::CaptureGroup {
                    id: _,
                    contents,
                    name: _name,
                } => Box::into_inner(contents),
                Node::Loop {
                    loopee,
                    quant: _,
                    enclosed_groups: _enclosed_groups,
                } => Box::into_inner(loopee),
                Node::Loop1CharBody { loopee, quant: _ } => Box::into_inner(loopee),
                Node::LookaroundAssertion {
                    negate: _,
                    backwards: _,
                    start_group: _,
                    end_group: _,
                    contents,
                } => Box::into_inner(contents),
                Node::Bracket(_contents) => return,
                Node::StringSet {
                    alternatives: _alternatives,
                    icase: _,
                } => return,
                Node::Empty
                | Node::Goal
                | Node::Char { c: _ }
                | Node::MatchAny
                | Node::MatchAnyExceptLineTerminator
                | Node::Anchor {
                    anchor_type: _,
                    multiline: _,
                }
                | Node::WordBoundary {
                    invert: _,
                    unicode_icase: _,
                }
                | Node::BackRef { group: _, icase: _ } => return,
            };
        }
    }
}

/// A list of nodes.
pub type NodeList = Vec<Node>;

/// A parsed pattern: its tree and its flags.
#[derive(Debug, Drop)]
pub struct Regex {
    /// The root of the tree.
    pub node: Node,
    /// The flags of the pattern.
    pub flags: Flags,
}
