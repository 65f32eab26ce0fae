//! What is said of a difference.
ghost use Rattle.std.specs.Borrow.{Bor};
ghost use Rattle.std.specs.Prelude.{◌≡◌, ◌++◌, IfOk, codes, option_map, string_bytes};
ghost use Rattle.std.specs.Fmt.{decimal};
ghost use Rattle.std.specs.List.{filter};
ghost use Rattle.regress_base.specs.Intervals.{is_member};
ghost use Rattle.regress_tree.specs.Display.{code_point};
ghost use Rattle.regress_tree.specs.Tree.{tree};
ghost use Rattle.regress_tree.specs.declared.ir.node.Node.{Node};
ghost use Rattle.regress_spans.specs.Remarks.{said};
ghost use Rattle.regress_differences.specs.Kinds.{case_text, class_escape_at, general_text, is_escape, is_of_members, listed, members_text, said_of, text_at};
ghost use Rattle.regress_differences.specs.Views.{part_at};

use crate::kind::{Difference, DifferenceKind};
use crate::parts::{Part, apart, difference_of};
use regress_base::charclasses::CharacterClassType;
use regress_base::codepointset::CodePointSet;
use regress_base::types::Flags;
use regress_classes::class_escape::class_letter;
use regress_spans::Remark;
use regress_tree::ir::Node;
use std::alloc::{AllocError, Global};

/// Returns what is said of a part, given the flags and the source of the pattern. The flags have i if it may be in force
/// somewhere in the pattern.
///
/// # Errors
/// Returns [`AllocError`] if an allocation fails.
pub(crate) fn remark_of(
    alloc: Global,
    flags: Flags,
    pattern: &[u32],
    part: Part<'_>,
) -> Result<Remark, AllocError>
    ensures { IfOk result (λ remark. said remark ≡ said_of flags pattern.now (part_at part.entry)) }
{
    let Difference { kind, span } = difference_of(flags, pattern, part);
    let source = pattern.get(span.start..).unwrap_or(&[]);
    let text = text_at(alloc, flags, source, part.node, kind)?;
    Ok(Remark {
        span,
        name: kind.name(),
        text,
    })
}

/// Returns a sentence about a part. `source` is the source from the start of its span on.
fn text_at(
    alloc: Global,
    flags: Flags,
    source: &[u32],
    node: Option<&Node>,
    kind: DifferenceKind,
) -> Result<String, AllocError>
    ensures { IfOk result (λ text. string_bytes text ≡ text_at flags source.now kind (option_map (λ (n : Bor Node). tree n.now) node.entry)) }
{
    match node {
        Some(Node::Bracket(contents)) if is_of_members(flags, source, kind) => members_text(
            alloc,
            &contents.cps,
        ),
        _ => Ok(String::from_str(alloc, general_text(flags, kind))?),
    }
}

/// Returns whether the sentence is about the members of the class.
fn is_of_members(flags: Flags, source: &[u32], kind: DifferenceKind) -> bool
    ensures { result ≡ is_of_members flags source.now kind }
{
    match kind {
        DifferenceKind::CaseClosure => !flags.unicode_sets && !flags.unicode && !is_escape(source),
        DifferenceKind::StringSet | DifferenceKind::SameName | DifferenceKind::Grammar => false,
    }
}

/// Returns whether a source begins with a class escape.
fn is_escape(source: &[u32]) -> bool
    ensures { result ≡ is_escape source.now }
{
    match class_escape_at(source) {
        Some(_) => true,
        None => false,
    }
}

/// Returns the class escape at the start of a source.
fn class_escape_at(source: &[u32]) -> Option<(CharacterClassType, bool)>
    ensures { result ≡ class_escape_at source.now }
{
    match source {
        [backslash, letter, ..] if *backslash == u32::from('\\') => class_letter(*letter),
        _ => None,
    }
}

/// Returns a sentence about all differences of a kind in patterns with these flags.
fn general_text(flags: Flags, kind: DifferenceKind) -> &'static str
    ensures { result.now ≡ general_text flags kind }
{
    match kind {
        DifferenceKind::CaseClosure => case_text(flags),
        DifferenceKind::StringSet | DifferenceKind::SameName | DifferenceKind::Grammar => {
            kind.text()
        },
    }
}

/// Returns a sentence about the classes in patterns with these flags.
fn case_text(flags: Flags) -> &'static str
    ensures { result.now ≡ case_text flags }
{
    if flags.unicode_sets {
        "with the flags i and v complements and operators work on what is written, in JavaScript on folded characters: \
         [[^A]] also matches A"
    } else if flags.unicode {
        "with the flags i and u a complement in a class is taken before case is ignored: [\\W] also matches K, S, k, s, \
         U+017F and U+212A, in JavaScript none of these"
    } else {
        "with the flag i U+017F and U+212A are word characters, in JavaScript only with u: \\w also matches these two"
    }
}

/// Returns a sentence about a class without the flag u: which of its members are case variants of others only with u.
fn members_text(alloc: Global, members: &CodePointSet) -> Result<String, AllocError>
    ensures { IfOk result (λ text. string_bytes text ≡ members_text members.now) }
{
    let all = apart();
    let found = members_among(alloc, members, &all)?;
    let listed = listed(alloc, &found)?;
    Ok(format!(in alloc;
        "with the flag i it also contains {listed}, in JavaScript only with u or where written"
    )?)
}

/// Returns those of the characters that are members.
fn members_among(alloc: Global, members: &CodePointSet, all: &[u32]) -> Result<Vec<u32>, AllocError>
    ensures { IfOk result (λ found. found.items ≡ filter (is_member members.now) all.now) }
{
    let mut found = Vec::new(alloc);
    for c in all {
        if members.contains(*c) {
            found.push(*c)?;
        }
    }
    Ok(found)
}

/// Returns some characters as text: the first two by their numbers, and how many more there are.
fn listed(alloc: Global, characters: &[u32]) -> Result<String, AllocError>
    ensures { IfOk result (λ text. string_bytes text ≡ listed characters.now) }
{
    match characters {
        [] => Ok(String::new(alloc)),
        [c] => number(alloc, *c),
        [c, d] => both(alloc, *c, *d),
        [c, d, others @ ..] => several(alloc, *c, *d, others.len()),
    }
}

fn both(alloc: Global, c: u32, d: u32) -> Result<String, AllocError>
    ensures { IfOk result (λ text. string_bytes text ≡ code_point c ++ (codes " and " ++ code_point d)) }
{
    let first = number(alloc, c)?;
    let second = number(alloc, d)?;
    Ok(format!(in alloc; "{first} and {second}")?)
}

fn several(alloc: Global, c: u32, d: u32, more: usize) -> Result<String, AllocError>
    ensures { IfOk result (λ text. string_bytes text ≡ code_point c ++ (codes ", " ++ (code_point d ++ (codes " and " ++ (decimal more ++ codes " more"))))) }
{
    let first = number(alloc, c)?;
    let second = number(alloc, d)?;
    Ok(format!(in alloc; "{first}, {second} and {more} more")?)
}

fn number(alloc: Global, c: u32) -> Result<String, AllocError>
    ensures { IfOk result (λ text. string_bytes text ≡ code_point c) }
{
    Ok(format!(in alloc; "U+{c:04X}")?)
}
