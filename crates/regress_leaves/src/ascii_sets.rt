//! The ASCII characters that leaves match.
ghost use Rattle.std.specs.Prelude.{◌≡◌, ◌≤◌, ◌<◌, ◌&&◌, ◌||◌, ◌==◌, ℕ, not, nat_le};
ghost use Rattle.regress_base.specs.Brackets.{is_accepted};
ghost use Rattle.regress_base.specs.ByteBitmap.{contains};
ghost use Rattle.regress_base.specs.Intervals.{IsCanonical, is_member};
ghost use Rattle.regress_base.specs.Listing.{lists};
ghost use Rattle.regress_tree.specs.Tree.{tree};
ghost use Rattle.regress_prefilter.specs.OneCharacter.{is_this, test_of};

use crate::leaves::sole_character;
use regress_base::bytesearch::ByteBitmap;
use regress_base::codepointset::Interval;
use regress_base::types::BracketContents;
use regress_base::util::add_utf8_first_bytes_to_bitmap;
use regress_tree::ir::Node;

/// Returns the ASCII characters that a leaf matches, if it matches one character. The set may contain other bytes, too.
///
/// # Complexity
/// Linear in the number of bytes, characters or intervals of the leaf, of which those after the first interval beyond
/// ASCII are not visited.
pub(crate) fn ascii_of(node: &Node) -> ByteBitmap
    ensures { (b : ℕ) → b < 128 → contains result b ≡ test_of (tree node.now) b }
{
    match node {
        Node::Char { c } => ascii_in(Some(*c)),
        Node::ByteSequence(bytes) => ascii_in(sole_character(bytes)),
        Node::ByteSet(bytes) => ByteBitmap::new(bytes),
        Node::CharSet(characters) => ascii_among(characters),
        Node::MatchAny => complement(ByteBitmap::default()),
        Node::MatchAnyExceptLineTerminator => complement(line_terminators()),
        Node::Bracket(contents) => ascii_accepted(contents),
        _ => ByteBitmap::default(),
    }
}

/// Returns the set of the character, if there is one and it is ASCII.
fn ascii_in(character: Option<u32>) -> ByteBitmap
    ensures { (b : ℕ) → b < 128 → contains result b ≡ is_this character b }
{
    let mut set = ByteBitmap::default();
    if let Some(c) = character {
        add_ascii(c, &mut set);
    }
    set
}

/// Returns the set of those characters that are ASCII.
fn ascii_among(characters: &[u32]) -> ByteBitmap
    ensures { (b : ℕ) → b < 128 → contains result b ≡ lists characters.now b }
{
    let mut set = ByteBitmap::default();
    for c in characters {
        add_ascii(*c, &mut set);
    }
    set
}

/// Adds a character, if it is ASCII.
fn add_ascii(c: u32, set: &mut ByteBitmap)
    ensures { (b : ℕ) → b < 128 → contains set.new b ≡ (b == c || contains set.old b) }
{
    if c < 0x80 {
        set.set(c as u8);
    }
}

/// Returns the line terminators that are ASCII.
fn line_terminators() -> ByteBitmap
    ensures { (b : ℕ) → contains result b ≡ (b == 0x0D || b == 0x0A) }
{
    let mut set = ByteBitmap::default();
    set.set(0x0A);
    set.set(0x0D);
    set
}

/// Returns the ASCII characters that a bracket accepts.
fn ascii_accepted(contents: &BracketContents) -> ByteBitmap
    ensures { (b : ℕ) → b < 128 → contains result b ≡ is_accepted contents.now.invert contents.now.cps b }
{
    let set = ascii_within(contents.cps.intervals());
    if contents.invert {
        complement(set)
    } else {
        set
    }
}

/// Returns the ASCII characters within intervals.
///
/// # Preconditions
/// The intervals ascend.
fn ascii_within(intervals: &[Interval]) -> ByteBitmap
    requires { IsCanonical intervals.now }
    ensures { (b : ℕ) → b < 128 → contains result b ≡ is_member intervals.now b }
{
    let mut set = ByteBitmap::default();
    for interval in intervals {
        if interval.first() >= 0x80 {
            return set;
        }
        add_run(interval.first(), interval.last().min(0x7F), &mut set);
    }
    set
}

/// Adds the ASCII characters from `first` to `last`, both included.
fn add_run(first: u32, last: u32, set: &mut ByteBitmap)
    requires ordered { first ≤ last }
    requires ascii { last < 128 }
    ensures { (b : ℕ) → contains set.new b ≡ ((nat_le first b && nat_le b last) || contains set.old b) }
{
    add_utf8_first_bytes_to_bitmap(Interval::new(first, last), set);
}

/// Returns the bytes that are not in the set.
fn complement(set: ByteBitmap) -> ByteBitmap
    ensures { (b : ℕ) → b < 256 → contains result b ≡ not (contains set b) }
{
    let mut others = set;
    others.bitnot();
    others
}

/// Returns the bytes that are not ASCII characters.
pub(crate) fn others() -> ByteBitmap
    ensures { (b : ℕ) → b < 256 → contains result b ≡ nat_le 128 b }
{
    let mut ascii = ByteBitmap::default();
    add_run(0, 0x7F, &mut ascii);
    complement(ascii)
}
