//! The bytes next to a position at which instructions have outcomes.
ghost use Rattle.std.specs.Prelude.{◌≡◌, ◌<◌, ◌≤◌, ◌++◌, ◌&&◌, ℕ, [], Bool, IfOk, List, false, flat_map, length, true};
ghost use Rattle.regress_base.specs.ByteBitmap.{contains};
ghost use Rattle.regress_tree.specs.Matching.{steps};
ghost use Rattle.regress_tree.specs.Reading.{Direction, direction_if, forwards};
ghost use Rattle.regress_tree.specs.Steps.{MatchState, Matcher, Setting};
ghost use Rattle.regress_tree.specs.Tree.{anchor, leaf, tree};
ghost use Rattle.regress_program.specs.Program.{At, Out, outcomes_by};
ghost use Rattle.regress_code.specs.NextBytes.{AreBodies, AreNextBytes, AreNextBytesOf, Bounds, FoldsIf, AreNextBytesAt};
ghost use Rattle.regress_program.specs.Views.{op_in, ops_in};

use regress_base::bytesearch::ByteBitmap;
use regress_base::types::AnchorType;
use regress_leaves::start::{Start, with_others};
use regress_leaves::test::Test;
use regress_program::instruction::Instruction;
use regress_tree::ir::Node;
use std::alloc::{AllocError, Global};

/// What is known of the byte next to a position at which an instruction has an outcome. The byte is after the position,
/// in a lookbehind before it.
#[derive(Clone, Copy)]
pub enum NextBytes {
    /// Nothing.
    Any,
    /// It is one of these, unless the position is the start or the end of the text.
    Bytes(ByteBitmap),
}

/// What is known of the byte next to a position at which the body of a lookaround has an outcome.
#[derive(Clone, Copy)]
pub struct Body {
    /// Whether the body matches backwards.
    pub backwards: bool,
    /// The byte after the position, or before it if the body matches backwards.
    pub next_byte: NextBytes,
}

/// Returns the next bytes of the instructions of a routine, by those of the bodies of its lookarounds. With `folds` they
/// hold where canonical forms of ASCII characters are those of ASCII.
///
/// # Errors
/// Returns [`AllocError`] if an allocation fails.
pub fn next_bytes_of(
    alloc: Global,
    leaves: &[Test],
    bodies: &[Body],
    instructions: &[Instruction],
    backwards: bool,
    folds: bool,
) -> Result<Vec<NextBytes>, AllocError>
    ensures { IfOk result (λ next_bytes. AreNextBytesOf folds bodies.now next_bytes.items (direction_if backwards) (ops_in leaves.now instructions.now)) }
{
    let mut next_bytes = Vec::with_capacity(alloc, instructions.len())?;
    for instruction in instructions {
        let next_byte = instruction_next_bytes(
            leaves,
            bodies,
            &next_bytes,
            *instruction,
            backwards,
            folds,
        );
        next_bytes.push(next_byte)?;
    }
    Ok(next_bytes)
}

/// Returns the next bytes of an instruction, by those of the instructions before it that are known, and of the bodies of
/// lookarounds.
pub fn instruction_next_bytes(
    leaves: &[Test],
    bodies: &[Body],
    known: &[NextBytes],
    instruction: Instruction,
    backwards: bool,
    folds: bool,
) -> NextBytes
    ensures { (setting : Setting) → FoldsIf folds setting →
        (text : List ℕ) (body_of : ℕ → Matcher) (out : Out) (a : At) → AreBodies bodies.now text body_of →
        AreNextBytes known.now (direction_if backwards) text out →
        Bounds result (direction_if backwards) text a.state.position
        (outcomes_by setting text (direction_if backwards) body_of out (op_in leaves.now instruction) a) }
{
    match instruction {
        Instruction::Accept | Instruction::Repeat { .. } => NextBytes::Any,
        Instruction::Fail => NextBytes::Bytes(ByteBitmap::default()),
        Instruction::Leaf { leaf, next } => {
            if leaf < leaves.len() {
                leaf_next_bytes(&leaves[leaf], next_bytes_at(known, next), backwards, folds)
            } else {
                NextBytes::Any
            }
        }
        Instruction::Characters { leaf, count, .. } => {
            if count > 0 && leaf < leaves.len() {
                leaf_next_bytes(&leaves[leaf], NextBytes::Any, backwards, folds)
            } else {
                NextBytes::Any
            }
        }
        Instruction::Split { first, second } => {
            next_bytes_at(known, first).or(next_bytes_at(known, second))
        }
        Instruction::BeginLoop { body, next, .. } => {
            next_bytes_at(known, body).or(next_bytes_at(known, next))
        }
        Instruction::EndLoop { next } => next_bytes_at(known, next),
        Instruction::Unset { next, .. } => next_bytes_at(known, next),
        Instruction::BeginGroup { next } => next_bytes_at(known, next),
        Instruction::EndGroup { next, .. } => next_bytes_at(known, next),
        Instruction::Look {
            negate,
            routine,
            next,
        } => {
            let after = next_bytes_at(known, next);
            if negate {
                after
            } else {
                body_next_bytes(bodies, routine, backwards).and(after)
            }
        }
    }
}

/// Returns the next bytes of the body of a lookaround that is in this direction.
fn body_next_bytes(bodies: &[Body], routine: usize, backwards: bool) -> NextBytes
    ensures { (text : List ℕ) (body_of : ℕ → Matcher) → AreBodies bodies.now text body_of → (s : MatchState) →
        Bounds result (direction_if backwards) text s.position (body_of routine s) }
{
    if routine >= bodies.len() {
        return NextBytes::Any;
    }
    let body = bodies[routine];
    if body.backwards == backwards {
        body.next_byte
    } else {
        NextBytes::Any
    }
}

/// Returns the next bytes with this index, or [`NextBytes::Any`] if there is none.
pub fn next_bytes_at(known: &[NextBytes], pc: usize) -> NextBytes
    ensures { (d : Direction) (text : List ℕ) (out : Out) → AreNextBytes known.now d text out → AreNextBytesAt result d text out pc }
{
    if pc < known.len() {
        known[pc]
    } else {
        NextBytes::Any
    }
}

/// Returns the next bytes of a leaf, by those of the instruction after it.
fn leaf_next_bytes(test: &Test, after: NextBytes, backwards: bool, folds: bool) -> NextBytes
    ensures { (setting : Setting) → FoldsIf folds setting → (text : List ℕ) (s : MatchState) (g : Matcher) →
        ((t : MatchState) → t.position ≡ s.position → Bounds after (direction_if backwards) text s.position (g t)) →
        Bounds result (direction_if backwards) text s.position (flat_map g (steps setting text (direction_if backwards) (tree test.now.node) s)) }
{
    match &test.start {
        Start::Ascii(set) => NextBytes::Bytes(with_others(*set)),
        Start::Bytes(set) => {
            if backwards {
                NextBytes::Any
            } else {
                NextBytes::Bytes(*set)
            }
        }
        Start::Folded(set) => {
            if folds && !backwards {
                NextBytes::Bytes(*set)
            } else {
                NextBytes::Any
            }
        }
        Start::Any => assertion_next_bytes(&test.node, after, backwards),
    }
}

/// Returns the next bytes of a leaf that may match the empty text, by those of the instruction after it.
fn assertion_next_bytes(node: &Node, after: NextBytes, backwards: bool) -> NextBytes
    ensures { (setting : Setting) (text : List ℕ) (s : MatchState) (g : Matcher) →
        ((t : MatchState) → t.position ≡ s.position → Bounds after (direction_if backwards) text s.position (g t)) →
        Bounds result (direction_if backwards) text s.position (flat_map g (steps setting text (direction_if backwards) (tree node.now) s)) }
{
    match node {
        Node::Anchor {
            anchor_type,
            multiline,
        } => {
            if *multiline {
                line_next_bytes(*anchor_type, backwards).and(after)
            } else {
                NextBytes::Bytes(ByteBitmap::default())
            }
        }
        Node::WordBoundary { .. } => after,
        Node::Empty | Node::Goal => after,
        _ => NextBytes::Any,
    }
}

/// Returns the next bytes of a multiline anchor. At the end of a line the next byte forwards is the first one of a line
/// terminator.
fn line_next_bytes(anchor_type: AnchorType, backwards: bool) -> NextBytes
    ensures { (setting : Setting) (text : List ℕ) (s : MatchState) →
        Bounds result (direction_if backwards) text s.position (steps setting text (direction_if backwards) (leaf (anchor anchor_type true)) s) }
{
    match anchor_type {
        AnchorType::EndOfLine => {
            if backwards {
                NextBytes::Any
            } else {
                NextBytes::Bytes(ByteBitmap::new(&[b'\n', b'\r', 0xE2]))
            }
        }
        AnchorType::StartOfLine => NextBytes::Any,
    }
}

/// Returns the bytes that are in both sets.
fn common(one: ByteBitmap, two: ByteBitmap) -> ByteBitmap
    ensures { (b : ℕ) → b < 256 → contains result b ≡ (contains one b && contains two b) }
{
    let mut outside = one;
    outside.bitnot();
    let mut other = two;
    other.bitnot();
    outside.bitor(&other);
    outside.bitnot();
    outside
}

impl NextBytes {
    /// Returns what is known of one of two instructions.
    pub fn or(self, other: NextBytes) -> NextBytes
        ensures in_order { (d : Direction) (text : List ℕ) (position : ℕ) (states more : List MatchState) →
            Bounds self d text position states → Bounds other d text position more → Bounds result d text position (states ++ more) }
        ensures reversed { (d : Direction) (text : List ℕ) (position : ℕ) (states more : List MatchState) →
            Bounds self d text position states → Bounds other d text position more → Bounds result d text position (more ++ states) }
    {
        match (self, other) {
            (NextBytes::Bytes(one), NextBytes::Bytes(two)) => {
                let mut either = one;
                either.bitor(&two);
                NextBytes::Bytes(either)
            }
            _ => NextBytes::Any,
        }
    }

    /// Returns what is known where both are known of the same outcomes.
    pub fn and(self, other: NextBytes) -> NextBytes
        ensures { (d : Direction) (text : List ℕ) (position : ℕ) (states : List MatchState) →
            Bounds self d text position states → Bounds other d text position states → Bounds result d text position states }
    {
        match (self, other) {
            (NextBytes::Bytes(one), NextBytes::Bytes(two)) => NextBytes::Bytes(common(one, two)),
            (NextBytes::Any, _) => other,
            _ => self,
        }
    }

    /// Returns whether a position is known to have no outcome.
    #[inline(always)]
    pub fn excludes(&self, text: &str, backwards: bool, position: usize) -> bool
        ensures { result ≡ true → (states : List MatchState) → Bounds self.now (direction_if backwards) text.now position states → states ≡ [] }
    {
        let NextBytes::Bytes(set) = self else {
            return false;
        };
        let bytes = text.as_bytes();
        if position == 0 || position >= bytes.len() {
            return false;
        }
        let next = if backwards { position - 1 } else { position };
        !set.contains(bytes[next])
    }

    /// Returns the least position, `from` or later, that is not known to have no outcome in the forward direction.
    ///
    /// # Preconditions
    /// `from` is inside the text.
    pub fn next_from(&self, text: &str, from: usize) -> usize
        requires { from ≤ length text.now }
        ensures low { from ≤ result }
        ensures high { result ≤ length text.now }
        ensures skipped { (k : ℕ) → from ≤ k → k < result → (states : List MatchState) → Bounds self.now forwards text.now k states → states ≡ [] }
    {
        let mut position = from;
        while position < text.len() && self.excludes(text, false, position) {
            position += 1;
        }
        position
    }
}
