//! How a match of a leaf begins.
ghost use Rattle.std.specs.Char.{to_ascii_lowercase};
ghost use Rattle.std.specs.Prelude.{◌≡◌, ◌<◌, ◌∷◌, ℕ, List, [], IfSome, IsTrue, false, true};
ghost use Rattle.regress_base.specs.ByteBitmap.{contains};
ghost use Rattle.regress_tree.specs.Matching.{steps};
ghost use Rattle.regress_tree.specs.Reading.{direction_if};
ghost use Rattle.regress_tree.specs.Steps.{MatchState, Setting};
ghost use Rattle.regress_base.specs.Intervals.{is_within};
ghost use Rattle.regress_prefilter.specs.FirstSets.{IsCovered};
ghost use Rattle.regress_tree.specs.Tree.{Tree, leaf, string_set, tree};
ghost use Rattle.regress_leaves.specs.Leaves.{put};
ghost use Rattle.regress_leaves.specs.Starts.{BeginsFolded, HasClass, IsFoldedFrom, IsStart};

use crate::ascii::next_ascii;
use crate::ascii_sets::{ascii_of, others};
use crate::leaves::takes_one;
use regress_base::bytesearch::ByteBitmap;
use regress_base::codepointset::{CODE_POINT_MAX, Interval};
use regress_base::util::add_utf8_first_bytes_to_bitmap;
use regress_prefilter::first_sets::first_bytes;
use regress_tree::ir::Node;
use regress_unicode::is_caseless;

/// What is known of how a match of a leaf begins.
#[derive(Clone, Copy)]
pub enum Start {
    /// Nothing.
    Any,
    /// A match begins with one of these bytes, in the forward direction.
    Bytes(ByteBitmap),
    /// The same if canonical forms are as usual ([`Known::has_ascii_case`]).
    ///
    /// [`Known::has_ascii_case`]: crate::known::Known::has_ascii_case
    Folded(ByteBitmap),
    /// The leaf matches one character. These are the ASCII characters that it matches.
    Ascii(ByteBitmap),
}

/// Returns what is known of how a match of a leaf begins.
pub fn start_of(node: &Node) -> Start
    ensures { IsStart result (tree node.now) }
{
    if takes_one(node) {
        return Start::Ascii(ascii_of(node));
    }
    if let Some(set) = folded_bytes(node) {
        return Start::Folded(set);
    }
    match first_bytes(node) {
        Some(set) => Start::Bytes(set),
        None => Start::Any,
    }
}

/// Returns bytes with which a string begins that a leaf compares by canonical forms. It is `None` if the leaf is not
/// exactly one such string.
fn folded_bytes(node: &Node) -> Option<ByteBitmap>
    ensures { IfSome result (λ set. BeginsFolded set (tree node.now)) }
{
    variants(folded_first(node)?)
}

/// Returns the first character of a string that a leaf compares by canonical forms. It is `None` if the leaf is not
/// exactly one such string.
fn folded_first(node: &Node) -> Option<u32>
    ensures { IfSome result (λ c. IsFoldedFrom c (tree node.now)) }
{
    let Node::StringSet {
        alternatives,
        icase: true,
    } = node
    else {
        return None;
    };
    if alternatives.len() != 1 {
        return None;
    }
    let first = alternatives[0].first()?;
    Some(*first)
}

/// Returns the first bytes of the characters with the canonical form of `c`, if something is known of them.
fn variants(c: u32) -> Option<ByteBitmap>
    ensures { IfSome result (λ set. (rest : List ℕ) → BeginsFolded set (leaf (string_set ((c ∷ rest) ∷ []) true))) }
{
    if let Some(interval) = class_interval(c) {
        return Some(first_bytes_of(interval));
    }
    let c = u8::try_from(c).ok()?;
    if c.is_ascii() {
        Some(case_variants(c))
    } else {
        None
    }
}

/// Returns an interval of the characters with the canonical form of `c`: a character without case alone, and the circled
/// letters.
fn class_interval(c: u32) -> Option<Interval>
    ensures { IfSome result (λ interval. HasClass interval c) }
{
    if matches!(c, 0x24B6..=0x24E9) {
        return Some(Interval::new(0x24B6, 0x24E9));
    }
    if is_caseless(c) && c <= CODE_POINT_MAX {
        Some(Interval::new(c, c))
    } else {
        None
    }
}

/// Returns the first bytes of the UTF-8 encodings of the code points of the interval.
fn first_bytes_of(interval: Interval) -> ByteBitmap
    ensures { (c : ℕ) → IsTrue (is_within interval c) → IsCovered (contains result) c }
{
    let mut set = ByteBitmap::default();
    add_utf8_first_bytes_to_bitmap(interval, &mut set);
    set
}

/// Returns both cases of an ASCII character, with each byte that is not ASCII.
fn case_variants(c: u8) -> ByteBitmap
    requires { c < 128 }
    ensures { (b : ℕ) → b < 256 → contains result b ≡ false → (b < 128) × (to_ascii_lowercase b ≡ to_ascii_lowercase c → ⊥) }
{
    let mut set = ByteBitmap::default();
    set.set(c.to_ascii_lowercase());
    set.set(c.to_ascii_uppercase());
    with_others(set)
}

impl Start {
    /// Returns where a leaf ends, or `Some(None)` if it fails; `None` if the leaf may match more or less than one
    /// character, or if the next one is not ASCII.
    #[inline(always)]
    pub fn ascii_end(&self, text: &str, backwards: bool, position: usize) -> Option<Option<usize>>
        ensures { IfSome result (λ to. (t : Tree) → IsStart self.now t → (setting : Setting) (s : MatchState) → s.position ≡ position →
            steps setting text.now (direction_if backwards) t s ≡ put s to) }
    {
        let Start::Ascii(set) = self else {
            return None;
        };
        let (b, to) = next_ascii(text, backwards, position)?;
        if set.contains(b) {
            Some(Some(to))
        } else {
            Some(None)
        }
    }
}

/// Returns the set with each byte that is not ASCII.
pub fn with_others(set: ByteBitmap) -> ByteBitmap
    ensures { (b : ℕ) → b < 256 → contains result b ≡ false → (b < 128) × (contains set b ≡ false) }
{
    let mut all = set;
    all.bitor(&others());
    all
}
