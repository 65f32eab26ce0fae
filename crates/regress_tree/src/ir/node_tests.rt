//! Tests on a single node, and the node that never matches.

use super::brackets::accepts_none;
use super::node::Node;
use std::alloc::Global;

impl Node {
    ghost use Rattle.std.specs.Prelude.{◌≡◌, []};
    ghost use Rattle.regress_tree.specs.Tree.{tree, leaf, char_set};
    ghost use Rattle.regress_tree.specs.Shapes.{is_cat};
    ghost use Rattle.regress_tree.specs.NodeTests.{is_empty, matches_exactly_one_char, match_always_fails};

    /// Returns a node that never matches: an empty `CharSet`. It allocates nothing.
    pub fn make_always_fails(alloc: Global) -> Node
        ensures { tree result ≡ leaf (char_set []) }
    {
        Node::CharSet(Vec::new(alloc))
    }

    /// Returns whether the node is `Empty`.
    pub fn is_empty(&self) -> bool
        ensures { result ≡ is_empty (tree self.now) }
    {
        matches!(self, Node::Empty)
    }

    /// Returns whether the node is a `Cat`.
    pub fn is_cat(&self) -> bool
        ensures { result ≡ is_cat (tree self.now) }
    {
        matches!(self, Node::Cat(_))
    }

    /// Returns whether the node is of a kind that takes exactly one character whenever it matches: a `Char`, a
    /// `CharSet` that is not empty, a bracket that accepts some code point, `MatchAny` or
    /// `MatchAnyExceptLineTerminator`. It returns false for all other nodes, though some of them take exactly one
    /// character too.
    ///
    /// # Complexity
    /// Constant.
    ///
    /// # Examples
    /// ```
    /// assert!(rt; Node::MatchAny.matches_exactly_one_char());
    /// assert!(rt; !Node::Empty.matches_exactly_one_char());
    /// ```
    pub fn matches_exactly_one_char(&self) -> bool
        ensures { result ≡ matches_exactly_one_char (tree self.now) }
    {
        match self {
            Node::Char { .. } | Node::MatchAny | Node::MatchAnyExceptLineTerminator => true,
            Node::CharSet(characters) => !characters.is_empty(),
            Node::Bracket(contents) => !accepts_none(contents),
            _ => false,
        }
    }

    /// Returns whether the node is an empty set or a bracket that accepts no code point, which never match. It returns
    /// false for all other nodes, though some of them never match either.
    ///
    /// # Complexity
    /// Constant.
    ///
    /// # Examples
    /// ```
    /// assert!(rt; Node::make_always_fails(alloc).match_always_fails());
    /// assert!(rt; !Node::Empty.match_always_fails());
    /// ```
    pub fn match_always_fails(&self) -> bool
        ensures { result ≡ match_always_fails (tree self.now) }
    {
        match self {
            Node::ByteSet(bytes) => bytes.is_empty(),
            Node::CharSet(characters) => characters.is_empty(),
            Node::Bracket(contents) => accepts_none(contents),
            _ => false,
        }
    }
}
