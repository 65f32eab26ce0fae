//! Which programs are linear.
ghost use Rattle.std.specs.Prelude.{◌≡◌, List};
ghost use Rattle.std.specs.List.{list_any};
ghost use Rattle.regress_leaves.specs.declared.test.Test.{Test};
ghost use Rattle.regress_tree.specs.Tree.{tree};
ghost use Rattle.regress_program.specs.Linear.{has_reason, is_back_ref, is_back_reference, is_capturing_lookaround, is_linear, is_reason, reason};
ghost use Rattle.regress_program.specs.Views.{op_in, ops_in, program_in};

use crate::capturing::is_capturing;
use crate::instruction::{Instruction, Routine};
use regress_leaves::test::Test;
use regress_tree::ir::Node;

/// Why a search for all matches may take more than linear time.
///
/// A search in linear time is by tables, which have a bit for each instruction and position: whether there is an outcome
/// from there. They know nothing of captures.
#[derive(Clone, Copy, Debug, PartialEq, Eq, thiserror::Error)]
pub enum Nonlinear {
    /// The pattern has a back reference, and what it matches depends on the captures.
    #[error("the pattern has a back reference")]
    BackReference,
    /// A lookaround that is not negated contains a capture group, or a loop that resets one. A table has only that its
    /// body has an outcome. What it captures is found by running the body once more for each match: each match takes
    /// linear time, all of them together may take more.
    #[error("a lookaround contains a capture group")]
    CapturingLookaround,
}

/// Returns why a search for all matches with these routines may take more than linear time: a back reference, or if they
/// have none, a lookaround that is not negated and sets or resets captures. The result is `None` if they are linear.
pub(crate) fn reason(leaves: &[Test], routines: &[Routine]) -> Option<Nonlinear>
    ensures { result ≡ reason (program_in leaves.now routines.now) }
{
    if has_reason(leaves, routines, Nonlinear::BackReference) {
        Some(Nonlinear::BackReference)
    } else if has_reason(leaves, routines, Nonlinear::CapturingLookaround) {
        Some(Nonlinear::CapturingLookaround)
    } else {
        None
    }
}

/// Returns whether an instruction of these routines is of a kind that is not linear.
fn has_reason(leaves: &[Test], routines: &[Routine], why: Nonlinear) -> bool
    ensures { result ≡ has_reason (program_in leaves.now routines.now) why }
{
    for routine in routines {
        if any_is_reason(leaves, routines, why, routine.instructions.stored()) {
            return true;
        }
    }
    false
}

/// Returns whether one of the instructions of a routine is of that kind.
fn any_is_reason(
    leaves: &[Test],
    routines: &[Routine],
    why: Nonlinear,
    instructions: &[Instruction],
) -> bool
    ensures { result ≡ list_any (is_reason (program_in leaves.now routines.now) why) (ops_in leaves.now instructions.now) }
{
    for instruction in instructions {
        if is_reason(leaves, routines, why, instruction) {
            return true;
        }
    }
    false
}

/// Returns whether the instruction is of that kind.
fn is_reason(
    leaves: &[Test],
    routines: &[Routine],
    why: Nonlinear,
    instruction: &Instruction,
) -> bool
    ensures { result ≡ is_reason (program_in leaves.now routines.now) why (op_in leaves.now instruction.now) }
{
    match why {
        Nonlinear::BackReference => is_back_reference(leaves, instruction),
        Nonlinear::CapturingLookaround => is_capturing_lookaround(routines, instruction),
    }
}

/// Returns whether the instruction is a back reference.
fn is_back_reference(leaves: &[Test], instruction: &Instruction) -> bool
    ensures { result ≡ is_back_reference (op_in leaves.now instruction.now) }
{
    match instruction {
        Instruction::Leaf { leaf, .. } => *leaf < leaves.len() && is_back_ref(&leaves[*leaf].node),
        _ => false,
    }
}

/// Returns whether the instruction is a lookaround that is not negated, and whose routine sets or resets a capture.
fn is_capturing_lookaround(routines: &[Routine], instruction: &Instruction) -> bool
    ensures { (leaves : List Test) → result ≡ is_capturing_lookaround (program_in leaves routines.now) (op_in leaves instruction.now) }
{
    match instruction {
        Instruction::Look {
            negate,
            routine,
            ..
        } => !*negate && is_capturing(routines, *routine),
        _ => false,
    }
}

/// Returns whether a node is a back reference.
fn is_back_ref(node: &Node) -> bool
    ensures { result ≡ is_back_ref (tree node.now) }
{
    match node {
        Node::BackRef { .. } => true,
        Node::Empty
        | Node::Goal
        | Node::Char { .. }
        | Node::ByteSequence(_)
        | Node::ByteSet(_)
        | Node::CharSet(_)
        | Node::MatchAny
        | Node::MatchAnyExceptLineTerminator
        | Node::Anchor { .. }
        | Node::WordBoundary { .. }
        | Node::Bracket(_)
        | Node::StringSet { .. }
        | Node::Cat(_)
        | Node::Alt(..)
        | Node::CaptureGroup { .. }
        | Node::Loop { .. }
        | Node::Loop1CharBody { .. }
        | Node::LookaroundAssertion { .. } => false,
    }
}
