//! Bytes without which a tree has no match.
ghost use Rattle.std.specs.Prelude.{◌≡◌, ◌||◌, ◌&&◌, ℕ, IfSome, IsTrue, nat_lt, not};
ghost use Rattle.regress_base.specs.ByteBitmap.{contains};
ghost use Rattle.regress_tree.specs.Tree.{tree, trees, cat};
ghost use Rattle.regress_prefilter.specs.Required.{AreRequired, IsRequired};

use regress_base::bytesearch::ByteBitmap;
use regress_tree::ir::Node;

/// Returns a byte that each match in the forward direction contains, `None` if none was found. Of several it is one that
/// is rare in most texts.
///
/// Bytes of literals are found, outside lookarounds and of loops with a minimum above 0; of alternatives those that all
/// of them contain.
///
/// # Complexity
/// One pass over the tree, without allocations. The depth of recursion is the depth of the tree, where the right sides
/// of alternations do not count.
pub fn required_byte(node: &Node) -> Option<u8>
    ensures { IfSome result (λ b. IsRequired b (tree node.now)) }
{
    rarest(&required_bytes(node))
}

/// Returns the bytes that were found. Iterates over the right sides of alternations, whose depth can be the number of
/// alternatives.
#[cycle(required_bytes)]
fn required_bytes(node: &Node) -> ByteBitmap
    ensures { AreRequired (contains result) (tree node.now) }
{
    let mut lacking = ByteBitmap::default();
    let mut last = node;
    while let Node::Alt(left, right) = last {
        add_others(required_bytes(left), &mut lacking);
        last = right;
    }
    add_others(required_bytes_inside(last), &mut lacking);
    *lacking.bitnot()
}

/// Returns the bytes of a node that is not an `Alt`.
#[cycle(required_bytes)]
fn required_bytes_inside(node: &Node) -> ByteBitmap
    ensures { AreRequired (contains result) (tree node.now) }
{
    match node {
        Node::Cat(parts) => required_bytes_of_any(parts),
        Node::CaptureGroup { contents, .. } => required_bytes(contents),
        Node::Loop { loopee, quant, .. } if quant.min > 0 => required_bytes(loopee),
        Node::Loop1CharBody { loopee, quant } if quant.min > 0 => required_bytes(loopee),
        Node::ByteSequence(bytes) => ByteBitmap::new(bytes),
        _ => ByteBitmap::default(),
    }
}

/// Returns the bytes that some part requires.
#[cycle(required_bytes)]
fn required_bytes_of_any(parts: &[Node]) -> ByteBitmap
    ensures { AreRequired (contains result) (cat (trees parts.now)) }
{
    let mut all = ByteBitmap::default();
    for part in parts {
        all.bitor(&required_bytes(part));
    }
    all
}

/// Adds the bytes that are not in `set`.
fn add_others(set: ByteBitmap, others: &mut ByteBitmap)
    ensures { (b : ℕ) → contains others.new b ≡ (contains others.old b || (nat_lt b 256 && not (contains set b))) }
{
    let mut set = set;
    others.bitor(set.bitnot());
}

/// Returns the member that is probably the rarest in texts: the last one of those that are neither letters, digits nor
/// spaces, else of digits and capital letters.
fn rarest(set: &ByteBitmap) -> Option<u8>
    ensures { IfSome result (λ b. IsTrue (contains set.now b)) }
{
    let mut rarest: Option<u8> = None;
    for b in 0..=u8::MAX {
        if set.contains(b) && is_rarer(b, rarest) {
            rarest = Some(b);
        }
    }
    rarest
}

/// Returns whether a byte is at most as frequent as another one.
fn is_rarer(b: u8, other: Option<u8>) -> bool {
    match other {
        Some(other) => frequency(b) <= frequency(other),
        None => true,
    }
}

/// Returns how frequent a byte is in texts, roughly.
fn frequency(b: u8) -> u8 {
    match b {
        b'a'..=b'z' | b' ' => 2,
        b'A'..=b'Z' | b'0'..=b'9' => 1,
        _ => 0,
    }
}
