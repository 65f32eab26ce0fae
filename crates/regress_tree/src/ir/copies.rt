//! Copies of trees.
ghost use Rattle.std.specs.Prelude.{◌≡◌, ◌≤◌, true, false, IfOk, IfSome, is_some, map, option_map, string_bytes};
ghost use Rattle.std.specs.Box.{boxed_slice_items};
ghost use Rattle.regress_tree.specs.Tree.{tree, trees};
ghost use Rattle.regress_tree.specs.Spine.{is_alt};
ghost use Rattle.regress_tree.specs.Copies.{is_leaf, HasNoGroup, NoneHasGroup};
ghost use Rattle.regress_tree.specs.Duplicates.{may_duplicate, may_duplicate_list};

use super::node::{Node, NodeList, Regex};
use super::spine::restore_spine;
use regress_base::types::CaptureGroupName;
use std::alloc::{AllocError, Global};
use std::boxed::BoxedSlice;

impl Node {
    ghost use Rattle.std.specs.Prelude.{◌≡◌, IfOk};
    ghost use Rattle.regress_tree.specs.Tree.{tree};

    /// Returns an equal tree that owns all of its memory.
    ///
    /// # Errors
    /// Returns [`AllocError`] if an allocation fails. What was copied until then is freed.
    ///
    /// # Complexity
    /// Linear in the size of the tree. The recursion is as deep as nodes are nested, where right sides of alternatives
    /// do not count.
    pub fn try_clone(&self, alloc: Global) -> Result<Node, AllocError>
        ensures { IfOk result (λ copy. tree copy ≡ tree self.now) }
    {
        copy_node(self, alloc)
    }
}

/// The greatest depth of a node that [`Node::try_duplicate`] copies.
const MAX_COPY_DEPTH: usize = 100;

impl Node {
    ghost use Rattle.std.specs.Prelude.{◌≡◌, ◌+◌, ◌&&◌, not, nat_le, is_some, IfOk, IfSome};
    ghost use Rattle.regress_tree.specs.Tree.{tree};
    ghost use Rattle.regress_tree.specs.Copies.{HasNoGroup};
    ghost use Rattle.regress_tree.specs.Measures.{nesting};
    ghost use Rattle.regress_tree.specs.Shapes.{has_string_set};

    /// Returns an equal node that owns all of its memory, for a node that is at `depth` in a tree (the root has depth
    /// 0). The result is `None` if the node contains a `StringSet`, which may be long, or a node at a depth above 100.
    ///
    /// # Preconditions
    /// The node contains no capture group, and the group range of each loop and lookaround inside is empty.
    ///
    /// # Errors
    /// Returns [`AllocError`] if an allocation fails. What was copied until then is freed.
    ///
    /// # Complexity
    /// Linear in the size of the node. The recursion is at most 102 nodes deep.
    ///
    /// # Examples
    /// ```
    /// let node = Node::Char { c: 0x61 };
    /// let copy = node.try_duplicate(alloc, 100)?;
    /// assert!(rt; matches!(&copy, Some(Node::Char { c: 0x61 })));
    /// assert!(rt; node.try_duplicate(alloc, 101)?.is_none());
    /// ```
    pub fn try_duplicate(&self, alloc: Global, depth: usize) -> Result<Option<Node>, AllocError>
        requires { HasNoGroup (tree self.now) }
        ensures copy { IfOk result (λ found. IfSome found (λ copy. tree copy ≡ tree self.now)) }
        ensures some { IfOk result (λ found. is_some found
            ≡ (not (has_string_set (tree self.now)) && nat_le (depth + nesting (tree self.now)) 101)) }
    {
        duplicate_node(self, alloc, depth)
    }
}

impl Regex {
    ghost use Rattle.std.specs.Prelude.{◌≡◌, IfOk};
    ghost use Rattle.regress_tree.specs.Tree.{tree};

    /// Returns an equal pattern, tree and flags, that owns all of its memory.
    ///
    /// # Errors
    /// Returns [`AllocError`] if an allocation fails. What was copied until then is freed.
    ///
    /// # Complexity
    /// As [`Node::try_clone`].
    pub fn try_clone(&self, alloc: Global) -> Result<Regex, AllocError>
        ensures node { IfOk result (λ copy. tree copy.node ≡ tree self.now.node) }
        ensures flags { IfOk result (λ copy. copy.flags ≡ self.now.flags) }
    {
        Ok(Regex {
            node: self.node.try_clone(alloc)?,
            flags: self.flags,
        })
    }
}

// A loop follows the right sides of alternatives, since an alternation nests as deep as it has alternatives.
#[cycle(copy)]
fn copy_node(node: &Node, alloc: Global) -> Result<Node, AllocError>
    ensures { IfOk result (λ copy. tree copy ≡ tree node.now) }
{
    let mut node = node;
    let mut above = Node::Empty;
    while let Node::Alt(left, right) = node {
        let left = copy_box(left, alloc)?;
        above = Node::Alt(left, Box::new(alloc, above)?);
        node = right;
    }
    let mut copy = copy_other(node, alloc)?;
    restore_spine(&mut copy, above);
    Ok(copy)
}

/// Copies a node that is not an `Alt`.
#[cycle(copy)]
fn copy_other(node: &Node, alloc: Global) -> Result<Node, AllocError>
    requires { is_alt (tree node.now) ≡ false }
    ensures { IfOk result (λ copy. tree copy ≡ tree node.now) }
{
    Ok(match node {
        Node::Cat(parts) => Node::Cat(copy_nodes(parts, alloc)?),
        Node::CaptureGroup { id, contents, name } => Node::CaptureGroup {
            id: *id,
            contents: copy_box(contents, alloc)?,
            name: copy_name(name, alloc)?,
        },
        Node::Loop {
            loopee,
            quant,
            enclosed_groups,
        } => Node::Loop {
            loopee: copy_box(loopee, alloc)?,
            quant: *quant,
            enclosed_groups: enclosed_groups.start..enclosed_groups.end,
        },
        Node::Loop1CharBody { loopee, quant } => Node::Loop1CharBody {
            loopee: copy_box(loopee, alloc)?,
            quant: *quant,
        },
        Node::LookaroundAssertion {
            negate,
            backwards,
            start_group,
            end_group,
            contents,
        } => Node::LookaroundAssertion {
            negate: *negate,
            backwards: *backwards,
            start_group: *start_group,
            end_group: *end_group,
            contents: copy_box(contents, alloc)?,
        },
        _ => copy_leaf(node, alloc)?,
    })
}

#[cycle(copy)]
fn copy_box(node: &Node, alloc: Global) -> Result<Box<Node>, AllocError>
    ensures { IfOk result (λ copy. tree copy.value ≡ tree node.now) }
{
    Ok(Box::new(alloc, copy_node(node, alloc)?)?)
}

#[cycle(copy)]
fn copy_nodes(nodes: &[Node], alloc: Global) -> Result<NodeList, AllocError>
    ensures { IfOk result (λ copies. trees copies.items ≡ trees nodes.now) }
{
    let mut copies = Vec::with_capacity(alloc, nodes.len())?;
    for node in nodes {
        copies.push(copy_node(node, alloc)?)?;
    }
    Ok(copies)
}

#[cycle(duplicate)]
fn duplicate_node(node: &Node, alloc: Global, depth: usize) -> Result<Option<Node>, AllocError>
    requires { HasNoGroup (tree node.now) }
    ensures copy { IfOk result (λ found. IfSome found (λ copy. tree copy ≡ tree node.now)) }
    ensures some { IfOk result (λ found. is_some found ≡ may_duplicate depth (tree node.now)) }
{
    if depth > MAX_COPY_DEPTH {
        return Ok(None);
    }
    let inside = depth + 1;
    Ok(match node {
        Node::Cat(parts) => duplicate_nodes(parts, alloc, inside)?.map(Node::Cat),
        Node::Alt(left, right) => {
            let Some(left) = duplicate_box(left, alloc, inside)? else {
                return Ok(None);
            };
            let Some(right) = duplicate_box(right, alloc, inside)? else {
                return Ok(None);
            };
            Some(Node::Alt(left, right))
        }
        Node::Loop {
            loopee,
            quant,
            enclosed_groups,
        } => duplicate_box(loopee, alloc, inside)?.map(|loopee| Node::Loop {
            loopee,
            quant: *quant,
            enclosed_groups: enclosed_groups.start..enclosed_groups.end,
        }),
        Node::Loop1CharBody { loopee, quant } => {
            duplicate_box(loopee, alloc, inside)?.map(|loopee| Node::Loop1CharBody {
                loopee,
                quant: *quant,
            })
        }
        Node::LookaroundAssertion {
            negate,
            backwards,
            start_group,
            end_group,
            contents,
        } => duplicate_box(contents, alloc, inside)?.map(|contents| Node::LookaroundAssertion {
            negate: *negate,
            backwards: *backwards,
            start_group: *start_group,
            end_group: *end_group,
            contents,
        }),
        Node::CaptureGroup { .. } => unreachable!(),
        Node::StringSet { .. } => None,
        _ => Some(copy_leaf(node, alloc)?),
    })
}

#[cycle(duplicate)]
fn duplicate_box(node: &Node, alloc: Global, depth: usize) -> Result<Option<Box<Node>>, AllocError>
    requires { HasNoGroup (tree node.now) }
    ensures copy { IfOk result (λ found. IfSome found (λ copy. tree copy.value ≡ tree node.now)) }
    ensures some { IfOk result (λ found. is_some found ≡ may_duplicate depth (tree node.now)) }
{
    match duplicate_node(node, alloc, depth)? {
        Some(copy) => Ok(Some(Box::new(alloc, copy)?)),
        None => Ok(None),
    }
}

#[cycle(duplicate)]
fn duplicate_nodes(
    nodes: &[Node],
    alloc: Global,
    depth: usize,
) -> Result<Option<NodeList>, AllocError>
    requires shallow { depth ≤ 101 }
    requires groups { NoneHasGroup (trees nodes.now) }
    ensures copy { IfOk result (λ found. IfSome found (λ copies. trees copies.items ≡ trees nodes.now)) }
    ensures some { IfOk result (λ found. is_some found ≡ may_duplicate_list depth (trees nodes.now)) }
{
    let mut copies = Vec::with_capacity(alloc, nodes.len())?;
    for node in nodes {
        match duplicate_node(node, alloc, depth)? {
            Some(copy) => copies.push(copy)?,
            None => return Ok(None),
        }
    }
    Ok(Some(copies))
}

/// Copies a node that contains no node.
fn copy_leaf(node: &Node, alloc: Global) -> Result<Node, AllocError>
    requires { is_leaf (tree node.now) ≡ true }
    ensures { IfOk result (λ copy. tree copy ≡ tree node.now) }
{
    Ok(match node {
        Node::Empty => Node::Empty,
        Node::Goal => Node::Goal,
        Node::Char { c } => Node::Char { c: *c },
        Node::ByteSequence(bytes) => Node::ByteSequence(Vec::from_slice(alloc, bytes)?),
        Node::ByteSet(bytes) => Node::ByteSet(Vec::from_slice(alloc, bytes)?),
        Node::CharSet(characters) => Node::CharSet(Vec::from_slice(alloc, characters)?),
        Node::MatchAny => Node::MatchAny,
        Node::MatchAnyExceptLineTerminator => Node::MatchAnyExceptLineTerminator,
        Node::Anchor {
            anchor_type,
            multiline,
        } => Node::Anchor {
            anchor_type: *anchor_type,
            multiline: *multiline,
        },
        Node::WordBoundary {
            invert,
            unicode_icase,
        } => Node::WordBoundary {
            invert: *invert,
            unicode_icase: *unicode_icase,
        },
        Node::Bracket(contents) => Node::Bracket(contents.try_clone(alloc)?),
        Node::BackRef { group, icase } => Node::BackRef {
            group: *group,
            icase: *icase,
        },
        Node::StringSet {
            alternatives,
            icase,
        } => Node::StringSet {
            alternatives: copy_strings(alternatives, alloc)?,
            icase: *icase,
        },
        _ => unreachable!(),
    })
}

fn copy_strings(
    strings: &[BoxedSlice<u32>],
    alloc: Global,
) -> Result<Vec<BoxedSlice<u32>>, AllocError>
    ensures { IfOk result (λ copies. map boxed_slice_items copies.items ≡ map boxed_slice_items strings.now) }
{
    let mut copies = Vec::with_capacity(alloc, strings.len())?;
    for string in strings {
        copies.push(BoxedSlice::from_slice(alloc, string)?)?;
    }
    Ok(copies)
}

fn copy_name(
    name: &Option<CaptureGroupName>,
    alloc: Global,
) -> Result<Option<CaptureGroupName>, AllocError>
    ensures { IfOk result (λ copy. option_map string_bytes copy ≡ option_map string_bytes name.now) }
{
    match name {
        Some(name) => Ok(Some(String::from_str(alloc, name)?)),
        None => Ok(None),
    }
}
