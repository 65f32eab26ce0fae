//! Normalizes a node whose body is in normal form.
ghost use Rattle.std.specs.Prelude.{◌≡◌, ℕ, true, false, not, ◌&&◌, IfOk};
ghost use Rattle.regress_tree.specs.NodeTests.{is_empty};
ghost use Rattle.regress_tree.specs.Reading.{Direction};
ghost use Rattle.regress_tree.specs.Shapes.{is_cat, is_group, is_loop, is_unrolled_away, may_unroll_by, on_loop};
ghost use Rattle.regress_tree.specs.Tree.{Wrapper, loop, loop_one, Tree, tree, wrapped, copies};
ghost use Rattle.regress_tree.specs.Walk.{direction_of};
ghost use Rattle.regress_base.specs.declared.types.Quantifier.{Quantifier};
ghost use Rattle.regress_rewrite.specs.Law.{IsPart};
ghost use Rattle.regress_normalize.specs.Normalized.{Finished, IsCleanAround, IsWrapperOf};
ghost use Rattle.regress_normalize.specs.PartFacts.{HasFacts, HasListFacts};
ghost use Rattle.regress_normalize.specs.Wrapped.{IsLoopOf, IsOneCharacter, IsPlanned, TakesForm, in_form, loop_in_form, HasFinishedParts};

use crate::cat::finish_cat;
use crate::facts::{ListFacts, PartFacts};
use crate::leaf::leaf_facts;
use regress_rewrite::promote_1char_loops::promoted;
use regress_rewrite::unroll_loops::{further_iterations, has_few_iterations, required_copies};
use regress_tree::ir::{Node, Quantifier, Walk};
use std::alloc::{AllocError, Global};
use std::mem;
use std::ops::Range;

/// The form of a loop that is not unrolled.
#[derive(Drop)]
enum LoopForm {
    /// A `Loop1CharBody`, with a box for its body.
    OneCharacter(Box<Node>),
    Empty,
    /// An empty set.
    AlwaysFails,
    /// A loop, unchanged.
    Stays,
}

/// The form of a loop that is not unrolled, with the facts of the loop in this form.
#[derive(Drop)]
struct LoopPlan {
    form: LoopForm,
    facts: PartFacts,
}

/// Brings a node into normal form whose body is in normal form and has these facts.
///
/// # Preconditions
/// The node is a group, a loop or a lookaround with such a body, and part of a well-formed tree.
///
/// # Errors
/// Returns [`AllocError`] if an allocation fails. The node has the same meaning.
pub fn finish_wrapper(
    alloc: Global,
    node: &mut Node,
    body: &PartFacts,
    walk: &Walk,
) -> Result<PartFacts, AllocError>
    requires part { IsPart (tree node.old) }
    requires body { IsWrapperOf body.now (tree node.old) }
    ensures { Finished (IsCleanAround body.now (tree node.old)) (direction_of walk.now) (tree node.old) (tree node.new) result }
{
    match node {
        Node::CaptureGroup { .. } => around(body, true, false),
        Node::Loop {
            quant,
            enclosed_groups,
            ..
        } => {
            if may_unroll(quant, enclosed_groups, body) {
                finish_unrolled(alloc, node, body, walk)
            } else {
                finish_loop(alloc, node, body)
            }
        }
        Node::Loop1CharBody { .. } => around(body, false, true),
        Node::LookaroundAssertion {
            negate,
            contents,
            ..
        } => {
            if always_holds(*negate, contents) {
                *node = Node::Empty;
                Ok(leaf_facts(node, false))
            } else {
                around(body, false, false)
            }
        }
        _ => unreachable!(),
    }
}

/// Returns whether a lookaround is seen to hold everywhere: its body is `Empty`, and it is not negated.
fn always_holds(negate: bool, contents: &Node) -> bool
    ensures { result ≡ (not negate && is_empty (tree contents.now)) }
{
    !negate && contents.is_empty()
}

/// Returns whether a loop with this quantifier and these groups, around a body with these facts, is unrolled.
fn may_unroll(quant: &Quantifier, groups: &Range<u16>, body: &PartFacts) -> bool
    ensures { result ≡ may_unroll_by quant.now groups.now.start groups.now.end
        body.now.has_loop body.now.has_string_set body.now.charge body.now.nesting }
{
    has_few_iterations(quant, groups) && body.may_be_copied()
}

/// Unrolls a loop, and brings the list of its copies into normal form.
fn finish_unrolled(
    alloc: Global,
    node: &mut Node,
    body: &PartFacts,
    walk: &Walk,
) -> Result<PartFacts, AllocError>
    requires part { IsPart (tree node.old) }
    requires body { IsWrapperOf body.now (tree node.old) }
    requires shape { is_unrolled_away (tree node.old) ≡ true }
    ensures { Finished ⊥ (direction_of walk.now) (tree node.old) (tree node.new) result }
{
    let list = unroll(alloc, node, body)?;
    finish_cat(alloc, node, &list, walk)
}

/// Replaces a loop by a `Cat` of a copy of its body for each required iteration and of the form of the loop of further
/// iterations, and returns the facts of these parts. All memory is allocated before the loop is changed.
fn unroll(alloc: Global, node: &mut Node, body: &PartFacts) -> Result<ListFacts, AllocError>
    requires part { IsPart (tree node.old) }
    requires body { IsWrapperOf body.now (tree node.old) }
    requires shape { is_unrolled_away (tree node.old) ≡ true }
    ensures { (d : Direction) → HasFinishedParts d (tree node.old) (tree node.new) result }
{
    let Node::Loop {
        loopee,
        quant,
        enclosed_groups,
    } = node
    else {
        unreachable!()
    };
    let mut list = copies_facts(body, quant.min, loopee.is_cat())?;
    let mut parts = required_copies(alloc, loopee, quant.min)?;
    let rest = further_iterations(quant);
    if rest.max == Some(0) {
        *node = Node::Cat(parts);
        return Ok(list);
    }
    let plan = plan_loop(alloc, loopee, &rest, enclosed_groups, body)?;
    list.add(&plan.facts, false)?;
    // The capacity suffices for the loop, so nothing fails from here on.
    *quant = rest;
    take_form(alloc, node, plan.form);
    parts.push(mem::replace(node, Node::Empty))?;
    *node = Node::Cat(parts);
    Ok(list)
}

/// Returns the facts of `times` copies of a part.
fn copies_facts(part: &PartFacts, times: usize, cat: bool) -> Result<ListFacts, AllocError>
    ensures { (t : Tree) → HasFacts part.now t → cat ≡ is_cat t → IfOk result (λ list. HasListFacts list (copies times t)) }
{
    let mut list = ListFacts::none();
    for _ in 0..times {
        list.add(part, cat)?;
    }
    Ok(list)
}

/// Brings a loop into normal form that is not unrolled, and whose body is in normal form.
fn finish_loop(alloc: Global, node: &mut Node, body: &PartFacts) -> Result<PartFacts, AllocError>
    requires part { IsPart (tree node.old) }
    requires inner { IsLoopOf body.now (tree node.old) }
    ensures { (d : Direction) → Finished (IsCleanAround body.now (tree node.old)) d (tree node.old) (tree node.new) result }
{
    let Node::Loop {
        loopee,
        quant,
        enclosed_groups,
    } = node
    else {
        unreachable!()
    };
    let plan = plan_loop(alloc, loopee, quant, enclosed_groups, body)?;
    take_form(alloc, node, plan.form);
    Ok(plan.facts)
}

/// Returns the form of a loop that is not unrolled, with the facts of the result.
fn plan_loop(
    alloc: Global,
    loopee: &Node,
    quant: &Quantifier,
    groups: &Range<u16>,
    body: &PartFacts,
) -> Result<LoopPlan, AllocError>
    requires { HasFacts body.now (tree loopee.now) }
    ensures { IfOk result (IsPlanned body.now quant.now groups.now.start groups.now.end (tree loopee.now)) }
{
    let form = form_of(alloc, loopee, quant, groups, body)?;
    let facts = facts_of(alloc, &form, body)?;
    Ok(LoopPlan { form, facts })
}

/// Returns the facts of a loop in this form, from those of its body.
fn facts_of(alloc: Global, form: &LoopForm, body: &PartFacts) -> Result<PartFacts, AllocError>
    ensures has { (q : Quantifier) (start end : ℕ) (t : Tree) → HasFacts body.now t →
        IfOk result (λ facts. HasFacts facts (in_form form.now q start end t)) }
    ensures many { IfOk result (λ facts. facts.was_one_character ≡ false) }
{
    match form {
        LoopForm::OneCharacter(_) => around(body, false, true),
        LoopForm::Empty => Ok(leaf_facts(&Node::Empty, false)),
        LoopForm::AlwaysFails => Ok(leaf_facts(&Node::ByteSet(Vec::new(alloc)), false)),
        LoopForm::Stays => around(body, false, true),
    }
}

/// Returns the form of a loop that is not unrolled, with the memory that it needs.
fn form_of(
    alloc: Global,
    loopee: &Node,
    quant: &Quantifier,
    groups: &Range<u16>,
    body: &PartFacts,
) -> Result<LoopForm, AllocError>
    requires { HasFacts body.now (tree loopee.now) }
    ensures { IfOk result (λ form. TakesForm form body.now quant.now groups.now.start groups.now.end (tree loopee.now)) }
{
    if body.was_one_character {
        return one_character(alloc);
    }
    if loopee.is_empty() || (quant.max == Some(0) && groups.is_empty()) {
        return Ok(LoopForm::Empty);
    }
    if quant.min > 0 && body.always_fails {
        // The body is a set or a bracket, so there is no group.
        return Ok(LoopForm::AlwaysFails);
    }
    if loopee.matches_exactly_one_char() {
        return one_character(alloc);
    }
    Ok(LoopForm::Stays)
}

/// Returns the form of a `Loop1CharBody`, with a box for its body.
fn one_character(alloc: Global) -> Result<LoopForm, AllocError>
    ensures { IfOk result IsOneCharacter }
{
    Ok(LoopForm::OneCharacter(Box::new(alloc, Node::Empty)?))
}

/// Brings a loop into its form. It allocates no memory.
fn take_form(alloc: Global, node: &mut Node, form: LoopForm)
    requires { on_loop (λ quantifier start end body. true) (tree node.old) ≡ true }
    ensures { tree node.new ≡ loop_in_form form (tree node.old) }
{
    match form {
        LoopForm::OneCharacter(room) => promote(node, room),
        LoopForm::Empty => *node = Node::Empty,
        LoopForm::AlwaysFails => *node = Node::ByteSet(Vec::new(alloc)),
        LoopForm::Stays => {}
    }
}

/// Replaces a `Loop` by a `Loop1CharBody`.
fn promote(node: &mut Node, room: Box<Node>)
    requires { on_loop (λ quantifier start end body. true) (tree node.old) ≡ true }
    ensures { (q : Quantifier) (start end : ℕ) (body : Tree) → tree node.old ≡ wrapped (loop q start end) body →
        tree node.new ≡ wrapped (loop_one q) body }
{
    let Node::Loop { loopee, quant, .. } = node else {
        unreachable!()
    };
    *node = promoted(loopee, *quant, room);
}

/// Returns the facts of a node around a body, which is a capture group, or a loop, or neither.
fn around(body: &PartFacts, group: bool, repeats: bool) -> Result<PartFacts, AllocError>
    ensures has { (w : Wrapper) (t : Tree) → HasFacts body.now t → group ≡ is_group w → repeats ≡ is_loop w →
        IfOk result (λ facts. HasFacts facts (wrapped w t)) }
    ensures many { IfOk result (λ facts. facts.was_one_character ≡ false) }
{
    Ok(PartFacts {
        charge: body.charge.checked_add(1).ok_or(AllocError)?,
        nesting: body.nesting.checked_add(1).ok_or(AllocError)?,
        has_group: group || body.has_group,
        has_loop: repeats || body.has_loop,
        has_string_set: body.has_string_set,
        always_fails: false,
        was_one_character: false,
    })
}
