//! Reversal of the parts of a `Cat` inside a lookbehind.

use super::Walk;
use super::node::Node;

impl Node {
    ghost use Rattle.std.specs.Prelude.{◌≡◌, true, false};
    ghost use Rattle.regress_tree.specs.Tree.{tree};
    ghost use Rattle.regress_tree.specs.NodeTests.{is_byte_sequence, parts_reversed};

    /// Reverses the parts of a `Cat` if the walk is inside a lookbehind. Any other node is left as it is.
    ///
    /// # Preconditions
    /// The node is not a `ByteSequence`: bytes are stored in the order of the text, so `Cat`s are reversed before byte
    /// sequences are formed.
    ///
    /// # Complexity
    /// Linear in the number of parts.
    ///
    /// # Examples
    /// ```
    /// let parts = vec![in alloc; Node::Char { c: 0x61 }, Node::Char { c: 0x62 }]?;
    /// let mut node = Node::Cat(parts);
    /// // inside a lookbehind
    /// let mut walk = Walk::root(false).looking(true);
    /// node.reverse_cats(&mut walk);
    /// let printed = node.to_string(alloc)?;
    /// assert_eq!(rt; printed.as_str(), "Cat\n..'98'\n..'97'\n");
    /// ```
    pub fn reverse_cats(&mut self, w: &mut Walk)
        requires { is_byte_sequence (tree self.old) ≡ false }
        ensures lookbehind { w.old.in_lookbehind ≡ true → tree self.new ≡ parts_reversed (tree self.old) }
        ensures ahead { w.old.in_lookbehind ≡ false → tree self.new ≡ tree self.old }
        ensures walk { w.new ≡ w.old }
    {
        if let Node::Cat(parts) = self
            && w.in_lookbehind
        {
            parts.reverse();
        }
    }
}
