//! Builds nodes from parts.
ghost use Rattle.std.specs.Prelude.{◌≡◌, ℕ, Bool, false, not, List, ◌∷◌, ◌++◌, Some, IfOk, OnOk, map, option_map, string_bytes, encode_utf8_all};
ghost use Rattle.regress_tree.specs.Assertions.{differ};
ghost use Rattle.regress_base.specs.Intervals.{Bounds, intervals_of};
ghost use Rattle.regress_tree.specs.Reading.{direction_if};
ghost use Rattle.regress_tree.specs.Tree.{tree, trees, leaf, bracket, string_set};
ghost use Rattle.regress_unicode.specs.TableOf.{table_of};
ghost use Rattle.regress_classes.specs.ClassSets.{Value as WrittenValue};
ghost use Rattle.regress_syntax.specs.Meaning.{is_in_class, longest_first};
ghost use Rattle.regress_lexer.specs.Dialects.{tries_references};
ghost use Rattle.regress_lexer.specs.Source.{IsCodePoint};
ghost use Rattle.regress_classes.specs.ClassProductions.{members_of};
ghost use Rattle.regress_syntax.specs.Syntax.{dot, anchor, boundary};
ghost use Rattle.regress_syntax.specs.Productions.{class_flags, compared_members, ordered_strings, point_property};
ghost use Rattle.regress_syntax.specs.Views.{context_of, names_in, group_of};
ghost use Rattle.regress_classes.specs.ClassViews.{IsValue, HasMembers, strings_of};
ghost use Rattle.regress_parse.specs.ClassParts.{strings_part, bracket_part, empty_part};
ghost use Rattle.regress_parse.specs.TreeOf.{in_direction, concatenation, leaf_of_members, leaf_of_literal, references, alternation, tree_of_references, tree_of_class, tree_of_atom, tree_of_group, tree_of_quantified};
ghost use Rattle.regress_parse.specs.Parsing.{alternatives, Pushes};

use regress_base::charclasses::CharacterClassType;
use regress_base::codepointset::CodePointSet;
use regress_base::sets::set_is_canonical;
use regress_base::types::{BracketContents, CaptureGroupID, Flags};
use regress_syntax::{Group, Name, Scope, Value, class_escape_set, name_text};
use regress_tree::ir::{AnchorType, Node, NodeList, Quantifier};
use regress_unicode::{
    Tables, add_icase_code_points, add_uppercase_code_points, expand_code_point,
};
use std::alloc::{AllocError, Global};
use std::cmp::Reverse;
use std::ops::Range;

/// Returns the node of `.`.
pub(crate) fn make_dot(scope: &Scope) -> Node
    ensures { tree result ≡ tree_of_atom (table_of scope.now.tables.now) (names_in scope.now.groups.now) (dot scope.now.flags) }
{
    if scope.flags.dot_all {
        Node::MatchAny
    } else {
        Node::MatchAnyExceptLineTerminator
    }
}

/// Returns the node of `^` or `$`.
pub(crate) fn make_anchor(anchor_type: AnchorType, scope: &Scope) -> Node
    ensures { tree result ≡ tree_of_atom (table_of scope.now.tables.now) (names_in scope.now.groups.now) (anchor scope.now.flags anchor_type) }
{
    Node::Anchor {
        anchor_type,
        multiline: scope.flags.multiline,
    }
}

/// Returns the node of `\b`, or of `\B` if `inverted`.
pub(crate) fn make_boundary(inverted: bool, scope: &Scope) -> Node
    ensures { tree result ≡ tree_of_atom (table_of scope.now.tables.now) (names_in scope.now.groups.now) (boundary scope.now.flags inverted) }
{
    Node::WordBoundary {
        invert: inverted,
        unicode_icase: scope.flags.unicode && scope.flags.icase,
    }
}

/// Returns the node of references to these groups, which are tried in order, or joined. Most references are to one
/// group.
pub(crate) fn make_references(
    alloc: Global,
    groups: &[u32],
    scope: &Scope,
) -> Result<Node, AllocError>
    ensures { IfOk result (λ node. tree node
        ≡ tree_of_references (not (tries_references scope.now.dialect)) (references scope.now.flags.icase groups.now)) }
{
    let icase = scope.flags.icase;
    if let [group] = groups {
        return Ok(Node::BackRef {
            group: *group,
            icase,
        });
    }
    let references = make_each_reference(alloc, groups, icase)?;
    if scope.dialect.tries_references() {
        make_alternation(alloc, references)
    } else {
        Ok(make_cat(references, false))
    }
}

/// Returns a reference to each of these groups.
fn make_each_reference(alloc: Global, groups: &[u32], icase: bool) -> Result<NodeList, AllocError>
    ensures { IfOk result (λ nodes. map tree nodes.items ≡ references icase groups.now) }
{
    let mut references = Vec::new(alloc);
    for group in groups {
        references.push(Node::BackRef {
            group: *group,
            icase,
        })?;
    }
    Ok(references)
}

/// Returns the node of parts that are tried in order. Without a part nothing matches.
fn make_alternation(alloc: Global, mut parts: NodeList) -> Result<Node, AllocError>
    ensures { IfOk result (λ node. tree node ≡ alternation (map tree parts.items)) }
{
    match parts.pop() {
        Some(last) => make_alt(alloc, parts, last),
        None => Ok(Node::CharSet(Vec::new(alloc))),
    }
}

/// Returns the node of a literal. With the flag i it matches every character with the same canonical form.
pub(crate) fn make_literal(alloc: Global, c: u32, scope: &Scope) -> Result<Node, AllocError>
    requires { IsCodePoint c }
    ensures { IfOk result (λ node. tree node ≡ leaf (leaf_of_literal (table_of scope.now.tables.now) scope.now.flags c)) }
{
    if !scope.flags.icase {
        return Ok(Node::Char { c });
    }
    let members = expand_code_point(alloc, c, true, scope.flags.unicode, scope.tables)?;
    Ok(make_members(members))
}

/// Adds the node of a literal to `parts`.
#[inline(always)]
pub(crate) fn push_literal(parts: &mut NodeList, c: u32, scope: &Scope) -> Result<(), AllocError>
    requires { IsCodePoint c }
    ensures { OnOk result (Pushes (leaf (leaf_of_literal (table_of scope.now.tables.now) scope.now.flags c)) parts.old.items parts.new.items) }
{
    if !scope.flags.icase {
        parts.push(Node::Char { c })?;
        return Ok(());
    }
    let alloc = *parts.allocator();
    parts.push(make_literal(alloc, c, scope)?)?;
    Ok(())
}

/// Returns the node that matches one of these characters.
fn make_members(members: Vec<u32>) -> Node
    ensures { tree result ≡ leaf (leaf_of_members members.items) }
{
    match members.as_slice() {
        [c] => Node::Char { c: *c },
        _ => Node::CharSet(members),
    }
}

/// Returns the node of a class escape. The complement is taken after the closure.
pub(crate) fn make_class_escape(
    alloc: Global,
    kind: CharacterClassType,
    negated: bool,
    scope: &Scope,
) -> Result<Node, AllocError>
    ensures { IfOk result (λ node. tree node ≡
        leaf (bracket false (intervals_of (is_in_class (table_of scope.now.tables.now) (class_flags (context_of scope.now)) negated (members_of kind))))) }
{
    let flags = scope.class_flags();
    let closed = close(class_escape_set(alloc, kind)?, flags, scope.tables)?;
    Ok(Node::Bracket(BracketContents {
        invert: false,
        cps: complement_if(closed, negated)?,
    }))
}

/// Returns the node of a class without the flag v.
pub(crate) fn make_class(
    inverted: bool,
    set: CodePointSet,
    scope: &Scope,
) -> Result<Node, AllocError>
    ensures { (members : List Bounds) → HasMembers members set → IfOk result (λ node. tree node
        ≡ leaf (bracket inverted (intervals_of
        (is_in_class (table_of scope.now.tables.now) (class_flags (context_of scope.now)) false (compared_members (context_of scope.now) members))))) }
{
    let compared = compare(set, scope)?;
    make_set(inverted, compared, scope.class_flags(), scope.tables)
}

/// Returns the set, and where classes are compared by upper cases all characters with the upper case of a member.
#[inline(always)]
fn compare(set: CodePointSet, scope: &Scope) -> Result<CodePointSet, AllocError>
    ensures { IfOk result (λ compared. (members : List Bounds) → HasMembers members set →
        HasMembers (compared_members (context_of scope.now) members) compared) }
{
    if scope.compares_upper_cases() {
        add_uppercase_code_points(set, scope.tables)
    } else {
        Ok(set)
    }
}

/// Returns the node of a set with these flags.
#[inline(always)]
fn make_set(
    inverted: bool,
    set: CodePointSet,
    flags: Flags,
    tables: &Tables,
) -> Result<Node, AllocError>
    ensures { (members : List Bounds) → HasMembers members set → IfOk result (λ node. tree node ≡
        leaf (bracket inverted (intervals_of (is_in_class (table_of tables.now) flags false members)))) }
{
    Ok(Node::Bracket(BracketContents {
        invert: inverted,
        cps: close(set, flags, tables)?,
    }))
}

/// Returns the node of a property of code points.
pub(crate) fn make_property(
    set: CodePointSet,
    negated: bool,
    scope: &Scope,
) -> Result<Node, AllocError>
    ensures { IfOk result (λ node. tree node ≡ tree_of_atom (table_of scope.now.tables.now) (names_in scope.now.groups.now)
        (point_property (context_of scope.now) negated set)) }
{
    if negated && scope.complements_first() {
        return make_set(false, set.inverted()?, scope.flags, scope.tables);
    }
    set_is_canonical(&set);
    make_set(negated, set, scope.flags, scope.tables)
}

/// Returns the node of a class with the flag v: its strings of two or more characters, longest first, then its code
/// points, and last the empty string.
pub(crate) fn make_class_set(
    alloc: Global,
    negated: bool,
    value: Value,
    scope: &Scope,
) -> Result<Node, AllocError>
    ensures { (written : WrittenValue) → IsValue value written → IfOk result (λ node. tree node ≡
        tree_of_class scope.now.flags.icase negated written
        (intervals_of (is_in_class (table_of scope.now.tables.now) scope.now.flags false written.members))) }
{
    let alone = !value.has_strings();
    let has_empty = value.others.has_empty;
    let mut strings = value.others.strings;
    sort_longest_first(&mut strings)?;
    let contents = BracketContents {
        invert: negated,
        cps: close(value.set, scope.flags, scope.tables)?,
    };
    let mut parts = Vec::new(alloc);
    push_strings(&mut parts, strings, scope.flags.icase)?;
    push_bracket(&mut parts, contents, alone)?;
    push_empty(&mut parts, has_empty)?;
    make_alternation(alloc, parts)
}

/// Brings the strings of a property into the order in which they are tried.
pub(crate) fn order_strings(strings: &mut Vec<Vec<u32>>, scope: &Scope) -> Result<(), AllocError>
    ensures { OnOk result (strings_of strings.new.items ≡ ordered_strings (context_of scope.now) (strings_of strings.old.items)) }
{
    if !scope.dialect.keeps_listed_order() {
        sort_longest_first(strings)?;
    }
    Ok(())
}

/// Sorts the strings by descending length. Strings of the same length keep their order.
fn sort_longest_first(strings: &mut Vec<Vec<u32>>) -> Result<(), AllocError>
    ensures { OnOk result (strings_of strings.new.items ≡ longest_first (strings_of strings.old.items)) }
{
    strings.sort_by_key(|string| Reverse(string.len()))
}

/// Adds the strings of a class to `parts`, if it has any.
fn push_strings(parts: &mut NodeList, strings: Vec<Vec<u32>>, icase: bool) -> Result<(), AllocError>
    ensures { OnOk result (map tree parts.new.items ≡ map tree parts.old.items ++ strings_part icase (strings_of strings.items)) }
{
    if !strings.is_empty() {
        let alloc = *parts.allocator();
        parts.push(make_strings(alloc, strings, icase)?)?;
    }
    Ok(())
}

/// Adds the bracket of a class to `parts`, if a character can match it or the class has no strings.
fn push_bracket(
    parts: &mut NodeList,
    contents: BracketContents,
    alone: bool,
) -> Result<(), AllocError>
    ensures { OnOk result (map tree parts.new.items ≡ map tree parts.old.items ++ bracket_part alone contents.invert contents.cps) }
{
    if alone || contents.invert || !contents.cps.is_empty() {
        parts.push(Node::Bracket(contents))?;
    }
    Ok(())
}

/// Adds the empty string of a class to `parts`, if it has it.
fn push_empty(parts: &mut NodeList, has_empty: bool) -> Result<(), AllocError>
    ensures { OnOk result (map tree parts.new.items ≡ map tree parts.old.items ++ empty_part has_empty) }
{
    if has_empty {
        parts.push(Node::Empty)?;
    }
    Ok(())
}

/// Returns the node of these strings, which are tried in order.
pub(crate) fn make_strings(
    alloc: Global,
    strings: Vec<Vec<u32>>,
    icase: bool,
) -> Result<Node, AllocError>
    ensures { IfOk result (λ node. tree node ≡ leaf (string_set (strings_of strings.items) icase)) }
{
    let mut alternatives = Vec::with_capacity(alloc, strings.len())?;
    for string in strings {
        alternatives.push(string.into_boxed_slice())?;
    }
    Ok(Node::StringSet {
        alternatives,
        icase,
    })
}

/// Returns the set, or its complement if `negated`.
fn complement_if(set: CodePointSet, negated: bool) -> Result<CodePointSet, AllocError>
    ensures { IfOk result (λ other. (test : ℕ → Bool) → set ≡ intervals_of test →
        other ≡ intervals_of (λ c. differ negated (test c))) }
{
    if negated { set.inverted() } else { Ok(set) }
}

/// Returns the set, with the flag i its closure.
#[inline(always)]
fn close(set: CodePointSet, flags: Flags, tables: &Tables) -> Result<CodePointSet, AllocError>
    ensures { IfOk result (λ closed. (members : List Bounds) → HasMembers members set →
        closed ≡ intervals_of (is_in_class (table_of tables.now) flags false members)) }
{
    if flags.icase {
        add_icase_code_points(set, tables)
    } else {
        Ok(set)
    }
}

/// Returns the node of an item with its quantifier. `enclosed_groups` is the range of the ids inside the item.
pub(crate) fn make_loop(
    alloc: Global,
    item: Node,
    quant: Quantifier,
    enclosed_groups: Range<CaptureGroupID>,
) -> Result<Node, AllocError>
    ensures { IfOk result (λ node. tree node ≡
        tree_of_quantified (Some quant) enclosed_groups.start enclosed_groups.end (tree item)) }
{
    Ok(Node::Loop {
        loopee: Box::new(alloc, item)?,
        quant,
        enclosed_groups,
    })
}

/// Returns the node of a group around `contents`. `groups` is the range of the ids of the group and of those inside.
pub(crate) fn make_group(
    alloc: Global,
    kind: Group,
    groups: Range<CaptureGroupID>,
    contents: Node,
) -> Result<Node, AllocError>
    ensures { IfOk result (λ node. tree node ≡ tree_of_group groups.start groups.end (group_of kind) (tree contents)) }
{
    match kind {
        Group::Grouping | Group::Modified(_) => Ok(contents),
        Group::Capture(name) => Ok(Node::CaptureGroup {
            id: groups.start,
            contents: Box::new(alloc, contents)?,
            name: optional_text(alloc, name)?,
        }),
        Group::Look { negate, backwards } => Ok(Node::LookaroundAssertion {
            negate,
            backwards,
            start_group: groups.start,
            end_group: groups.end,
            contents: Box::new(alloc, contents)?,
        }),
    }
}

/// Returns the text of a name, if there is one.
fn optional_text(alloc: Global, name: Option<Name>) -> Result<Option<String>, AllocError>
    ensures { IfOk result (λ text. option_map string_bytes text ≡ option_map (λ name. encode_utf8_all name.items) name) }
{
    match name {
        Some(name) => Ok(Some(name_text(alloc, &name)?)),
        None => Ok(None),
    }
}

/// Returns the node of an alternative: `Empty` for no part, the part itself for one, a `Cat` for several. If
/// `backwards`, the parts of the `Cat` are reversed.
pub(crate) fn make_cat(mut parts: NodeList, backwards: bool) -> Node
    ensures { tree result ≡ concatenation (direction_if backwards) (trees parts.items) }
{
    if parts.len() > 1 {
        reverse_if_backwards(&mut parts, backwards);
        return Node::Cat(parts);
    }
    parts.pop().unwrap_or(Node::Empty)
}

/// Reverses the parts if `backwards`.
fn reverse_if_backwards(parts: &mut NodeList, backwards: bool)
    ensures { trees parts.new.items ≡ in_direction (direction_if backwards) (trees parts.old.items) }
{
    if backwards {
        parts.reverse();
    }
}

/// Returns the node of alternatives, as in `Alt(a, Alt(b, c))`.
pub(crate) fn make_alt(alloc: Global, mut before: NodeList, last: Node) -> Result<Node, AllocError>
    ensures { IfOk result (λ node. tree node ≡ alternatives (map tree before.items) (tree last)) }
{
    let mut node = last;
    while let Some(left) = before.pop() {
        node = Node::Alt(Box::new(alloc, left)?, Box::new(alloc, node)?);
    }
    Ok(node)
}
