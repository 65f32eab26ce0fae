//! Unrolling of loops: the required iterations become copies of the body.
ghost use Rattle.std.specs.Prelude.{◌≡◌, ◌<◌, ◌≤◌, false, IfOk, vec_len, vec_capacity};
ghost use Rattle.regress_tree.specs.Copies.{HasNoGroup};
ghost use Rattle.regress_tree.specs.Measures.{nesting};
ghost use Rattle.regress_tree.specs.Shapes.{has_few_iterations, has_string_set, max_body_nesting};
ghost use Rattle.regress_tree.specs.Tree.{tree, trees, copies};
ghost use Rattle.regress_tree.specs.WellFormed.{IsQuantifier};
ghost use Rattle.regress_rewrite.specs.Unroll.{further_iterations};

use regress_tree::ir::{Node, NodeList, Quantifier};
use std::alloc::{AllocError, Global};
use std::ops::Range;

/// The maximal size of a body that is copied: one for each node, and one more for each byte of a `ByteSequence`.
pub const MAX_COPIED_SIZE: usize = 256;

/// The maximal nesting depth of a body that is copied, where a leaf has depth 1.
pub const MAX_NESTING: usize = 101;

/// Returns whether a loop contains no group and has a minimum of one to five iterations. It is unrolled if its body is
/// small enough to be copied for each of them.
pub fn has_few_iterations(quant: &Quantifier, groups: &Range<u16>) -> bool
    ensures { result ≡ has_few_iterations quant.now groups.now.start groups.now.end }
{
    groups.is_empty() && matches!(quant.min, 1..=5)
}

/// Returns `times` copies of a body, in a list with capacity for at least one node more.
///
/// # Preconditions
/// `times` is at most 5. The body contains no capture group and no `StringSet`, and its nesting depth is at most
/// [`MAX_NESTING`].
///
/// # Errors
/// Returns [`AllocError`] if an allocation fails.
pub fn required_copies(alloc: Global, body: &Node, times: usize) -> Result<NodeList, AllocError>
    requires times { times ≤ 5 }
    requires groups { HasNoGroup (tree body.now) }
    requires strings { has_string_set (tree body.now) ≡ false }
    requires nesting { nesting (tree body.now) ≤ max_body_nesting }
    ensures copies { IfOk result (λ parts. trees parts.items ≡ copies times (tree body.now)) }
    ensures room { IfOk result (λ parts. vec_len parts < vec_capacity parts) }
{
    let mut parts = Vec::with_capacity(alloc, times + 1)?;
    for _ in 0..times {
        match body.try_duplicate(alloc, 0)? {
            Some(copy) => parts.push(copy)?,
            None => unreachable!(),
        }
    }
    Ok(parts)
}

/// Returns the quantifier of the iterations that may follow the required ones.
///
/// # Preconditions
/// The minimum of `quant` is at most its maximum.
pub fn further_iterations(quant: &Quantifier) -> Quantifier
    requires { IsQuantifier quant.now }
    ensures { result ≡ further_iterations quant.now }
{
    Quantifier {
        min: 0,
        max: quant.max.map(|max| max - quant.min),
        greedy: quant.greedy,
    }
}
