//! The examples of the doc comments up to `regress_front`: each line of an example is here, or is one of those that parse
//! a pattern, for which `parsed` is called. Expected values are from ECMA-262, the Unicode Character Database and
//! docs/ir.md.

use super::parsed;
use regress_differences::{DifferenceKind, differences};
use regress_escape::escape;
use regress_front::bytesearch::{ByteSearcher, Needle};
use regress_front::codepointset::{CodePointSet, Interval};
use regress_front::ir::{Node, Regex, Walk, walk, walk_mut};
use regress_front::literal::lower_code_point_sequence;
use regress_front::optimizer::{
    PassAction, Rewrite, optimize, parse_and_optimize, parse_and_optimize_in, run_pass,
};
use regress_front::parse::{
    Dialect, Span, node_bound, try_parse, try_parse_in, try_parse_with_spans,
    try_parse_with_spans_in,
};
use regress_front::types::Flags;
use regress_front::unicode::{
    FoldRange, Tables, add_icase_code_points, add_uppercase_code_points, are_caseless,
    expand_code_point, fold, fold_keeps_caseless, unfold_char, uppercase, uppercase_keeps_caseless,
};
use regress_front::util::code_points;
use regress_properties::general_category;
use regress_ucd::unicode_tables;
use regress_warnings::{WarningKind, warnings};
use std::alloc::AllocError;
use std::test::Fail;

#[test]
fn the_characters_of_a_text_are_listed(rt: HostRuntime) -> Result<(), Fail> {
    let alloc = rt.alloc();
    let points = code_points(alloc, "aé😀")?;
    expect_eq!(rt; points.as_slice(), [0x61, 0xE9, 0x1F600].as_slice());
    Ok(())
}

#[test]
fn a_string_of_bytes_is_found(rt: HostRuntime) -> Result<(), Fail> {
    let needle = Needle::new(b"na");
    expect_eq!(rt; needle.find_in(b"banana"), Some(2));
    expect_eq!(rt; needle.find_in(b"band"), None);
    Ok(())
}

#[test]
fn a_text_is_escaped(rt: HostRuntime) -> Result<(), Fail> {
    let alloc = rt.alloc();
    let pattern = escape(alloc, "1+1 = 2?")?;
    expect_eq!(rt; pattern.as_str(), "\\x31\\+1\\x20\\x3d\\x202\\?");
    Ok(())
}

#[test]
fn each_kind_of_character_is_escaped(rt: HostRuntime) -> Result<(), Fail> {
    let alloc = rt.alloc();
    for (text, wanted) in &[
        ("foo\nbar", "\\x66oo\\nbar"),
        ("foo\u{2028}bar", "\\x66oo\\u2028bar"),
        ("foo😀_bar", "\\x66oo😀_bar"),
        ("", ""),
    ] {
        let pattern = escape(alloc, text)?;
        expect_eq!(rt; pattern.as_str(), *wanted);
    }
    Ok(())
}

#[test]
fn intervals_are_added_to_a_set(rt: HostRuntime) -> Result<(), Fail> {
    let alloc = rt.alloc();
    let mut set = CodePointSet::new(alloc);
    set.add(Interval::new(0x61, 0x66))?;
    set.add(Interval::new(0x67, 0x7A))?;
    assert!(rt; set.contains(0x62));
    // the two intervals touch, and are one
    expect_eq!(rt; set.intervals(), [Interval::new(0x61, 0x7A)].as_slice());
    Ok(())
}

#[test]
fn a_set_is_intersected(rt: HostRuntime) -> Result<(), Fail> {
    let alloc = rt.alloc();
    let mut set = CodePointSet::new(alloc);
    set.add(Interval::new(0x61, 0x66))?;
    let mut other = CodePointSet::new(alloc);
    other.add(Interval::new(0x65, 0x7A))?;
    set.intersect(other.intervals())?;
    expect_eq!(rt; set.intervals(), [Interval::new(0x65, 0x66)].as_slice());
    Ok(())
}

#[test]
fn a_set_is_inverted(rt: HostRuntime) -> Result<(), Fail> {
    let alloc = rt.alloc();
    let mut set = CodePointSet::new(alloc);
    set.add(Interval::new(0, 0x60))?;
    let inverted = set.inverted()?;
    expect_eq!(rt;
        inverted.intervals(),
        [Interval::new(0x61, 0x10FFFF)].as_slice()
    );
    Ok(())
}

#[test]
fn tables_are_made_of_parts(rt: HostRuntime) -> Result<(), Fail> {
    let alloc = rt.alloc();
    // the letters of ASCII and their cases
    let folds = vec![in alloc; FoldRange::from(0x41, 26, 32, 1)]?;
    let uppers = vec![in alloc; FoldRange::from(0x61, 26, -32, 1)]?;
    let mut letters = CodePointSet::new(alloc);
    letters.add(Interval::new(0x41, 0x5A))?;
    letters.add(Interval::new(0x61, 0x7A))?;
    let tables = Tables::new(
        alloc,
        folds,
        uppers,
        letters.try_clone(alloc)?,
        letters,
        Vec::new(alloc),
        Vec::new(alloc),
        Vec::new(alloc),
        Vec::new(alloc),
        Vec::new(alloc),
    )?;
    expect_eq!(rt; fold(0x41, &tables), 0x61);
    assert!(rt; tables.id_start().contains(0x61));
    Ok(())
}

#[test]
fn the_small_table_has_few_properties(rt: HostRuntime) -> Result<(), Fail> {
    let alloc = rt.alloc();
    let tables = Tables::small(alloc)?;
    expect_eq!(rt; fold(0x41, &tables), 0x61);
    assert!(rt; tables.script(alloc, "Ogham")?.is_some());
    assert!(rt; tables.script(alloc, "Greek")?.is_none());
    Ok(())
}

#[test]
fn the_example_of_properties_holds(rt: HostRuntime) -> Result<(), Fail> {
    let alloc = rt.alloc();
    match general_category(alloc, "Lu")? {
        Some(uppercase) => assert!(rt; uppercase.contains(0x41)),
        None => assert!(rt; false, "Unicode has this category"),
    }
    Ok(())
}

#[test]
fn the_example_of_the_whole_table_holds(rt: HostRuntime) -> Result<(), Fail> {
    let alloc = rt.alloc();
    let tables = unicode_tables(alloc)?;
    // the simple case folding of LATIN CAPITAL LETTER SHARP S
    expect_eq!(rt; fold(0x1E9E, &tables), 0xDF);
    match tables.script(alloc, "Greek")? {
        Some(greek) => assert!(rt; greek.contains(0x3B1)),
        None => assert!(rt; false, "Unicode has this script"),
    }
    Ok(())
}

#[test]
fn characters_without_case_have_no_other_case(rt: HostRuntime) -> Result<(), Fail> {
    let alloc = rt.alloc();
    let small = Tables::small(alloc)?;
    assert!(rt; fold_keeps_caseless(&small));
    assert!(rt; uppercase_keeps_caseless(&small));
    let whole = unicode_tables(alloc)?;
    assert!(rt; fold_keeps_caseless(&whole));
    assert!(rt; uppercase_keeps_caseless(&whole));
    assert!(rt; are_caseless(&[0x31, 0xFE0F, 0x20E3]));
    assert!(rt; !are_caseless(&[0x24C2, 0xFE0F]));
    Ok(())
}

#[test]
fn a_code_point_is_folded(rt: HostRuntime) -> Result<(), Fail> {
    let alloc = rt.alloc();
    let tables = Tables::small(alloc)?;
    // K, and KELVIN SIGN
    expect_eq!(rt; fold(0x4B, &tables), 0x6B);
    expect_eq!(rt; fold(0x212A, &tables), 0x6B);
    Ok(())
}

#[test]
fn the_upper_case_is_one_code_point(rt: HostRuntime) -> Result<(), Fail> {
    let alloc = rt.alloc();
    let tables = Tables::small(alloc)?;
    expect_eq!(rt; uppercase(0x6B, &tables), 0x4B);
    // the upper case of LATIN SMALL LETTER SHARP S is two letters
    expect_eq!(rt; uppercase(0xDF, &tables), 0xDF);
    Ok(())
}

#[test]
fn a_case_folding_is_inverted(rt: HostRuntime) -> Result<(), Fail> {
    let alloc = rt.alloc();
    let tables = Tables::small(alloc)?;
    // K, k and KELVIN SIGN
    let points = unfold_char(alloc, 0x6B, &tables)?;
    expect_eq!(rt; points.as_slice(), [0x4B, 0x6B, 0x212A].as_slice());
    Ok(())
}

#[test]
fn a_literal_matches_its_class(rt: HostRuntime) -> Result<(), Fail> {
    let alloc = rt.alloc();
    let tables = Tables::small(alloc)?;
    let folded = expand_code_point(alloc, 0x6B, true, true, &tables)?;
    expect_eq!(rt; folded.as_slice(), [0x4B, 0x6B, 0x212A].as_slice());
    // without the flag u: KELVIN SIGN is its own upper case
    let upper = expand_code_point(alloc, 0x6B, true, false, &tables)?;
    expect_eq!(rt; upper.as_slice(), [0x4B, 0x6B].as_slice());
    Ok(())
}

#[test]
fn a_set_is_closed_under_case_folding(rt: HostRuntime) -> Result<(), Fail> {
    let alloc = rt.alloc();
    let tables = Tables::small(alloc)?;
    let mut set = CodePointSet::new(alloc);
    set.add_one(0x6B)?;
    let closure = add_icase_code_points(set, &tables)?;
    assert!(rt; closure.contains(0x4B));
    assert!(rt; closure.contains(0x212A));
    Ok(())
}

#[test]
fn a_set_is_closed_under_upper_case(rt: HostRuntime) -> Result<(), Fail> {
    let alloc = rt.alloc();
    let tables = Tables::small(alloc)?;
    let mut set = CodePointSet::new(alloc);
    set.add_one(0x6B)?;
    let closure = add_uppercase_code_points(set, &tables)?;
    assert!(rt; closure.contains(0x4B));
    assert!(rt; !closure.contains(0x212A));
    Ok(())
}

#[test]
fn literals_are_lowered(rt: HostRuntime) -> Result<(), Fail> {
    let alloc = rt.alloc();
    let tables = Tables::small(alloc)?;
    let points = code_points(alloc, "12éK")?;
    let pieces = lower_code_point_sequence(alloc, &points, true, false, &tables)?;
    let printed = format!(in alloc; "{pieces:?}")?;
    expect_eq!(rt;
        printed.as_str(),
        "[ByteSequence([49, 50]), CharSet([201, 233]), ByteSet([75, 107])]"
    );
    Ok(())
}

#[test]
fn nodes_are_tested(rt: HostRuntime) -> Result<(), Fail> {
    let alloc = rt.alloc();
    assert!(rt; Node::MatchAny.matches_exactly_one_char());
    assert!(rt; !Node::Empty.matches_exactly_one_char());

    assert!(rt; Node::make_always_fails(alloc).match_always_fails());
    assert!(rt; !Node::Empty.match_always_fails());
    Ok(())
}

#[test]
fn parts_are_reversed_in_a_lookbehind(rt: HostRuntime) -> Result<(), Fail> {
    let alloc = rt.alloc();
    let parts = vec![in alloc; Node::Char { c: 0x61 }, Node::Char { c: 0x62 }]?;
    let mut node = Node::Cat(parts);
    // inside a lookbehind
    let mut walk = Walk::root(false).looking(true);
    node.reverse_cats(&mut walk);
    let printed = node.to_string(alloc)?;
    expect_eq!(rt; printed.as_str(), "Cat\n..'98'\n..'97'\n");
    Ok(())
}

#[test]
fn a_node_is_duplicated(rt: HostRuntime) -> Result<(), Fail> {
    let alloc = rt.alloc();
    let node = Node::Char { c: 0x61 };
    let copy = node.try_duplicate(alloc, 100)?;
    assert!(rt; matches!(&copy, Some(Node::Char { c: 0x61 })));
    assert!(rt; node.try_duplicate(alloc, 101)?.is_none());
    Ok(())
}

#[test]
fn a_tree_is_well_formed(rt: HostRuntime) -> Result<(), Fail> {
    let alloc = rt.alloc();
    let node = Node::CaptureGroup {
        id: 1,
        contents: Box::new(alloc, Node::Empty)?,
        name: None,
    };
    let flags = Flags::default();
    let regex = Regex { node, flags };
    // the id of the first group is 0
    assert!(rt; !regex.is_well_formed());
    Ok(())
}

#[test]
fn literals_are_counted(rt: HostRuntime) -> Result<(), Fail> {
    let alloc = rt.alloc();
    let regex = parsed(alloc, "ab*|.", false)?;
    let mut literals = 0_usize;
    walk(
        false,
        regex.flags.unicode,
        &regex.node,
        &mut |node: &Node, _walk: &mut Walk| {
            if matches!(node, Node::Char { .. }) {
                literals = literals.wrapping_add(1);
            }
        },
    );
    expect_eq!(rt; literals, 2);
    Ok(())
}

#[test]
fn a_dot_is_made_to_match_line_terminators(rt: HostRuntime) -> Result<(), Fail> {
    let alloc = rt.alloc();
    let mut regex = parsed(alloc, "a.", false)?;
    walk_mut(
        true,
        regex.flags.unicode,
        &mut regex.node,
        &mut |node: &mut Node, _walk: &mut Walk| {
            if matches!(node, Node::MatchAnyExceptLineTerminator) {
                *node = Node::MatchAny;
            }
        },
    );
    let printed = regex.to_string(alloc)?;
    expect_eq!(rt;
        printed.as_str(),
        "Cat\n..Cat\n....'97'\n....MatchAny\n..Goal\n"
    );
    Ok(())
}

#[test]
fn a_pattern_is_parsed(rt: HostRuntime) -> Result<(), Fail> {
    let alloc = rt.alloc();
    let tables = Tables::small(alloc)?;
    let points = code_points(alloc, "a|b")?;
    let regex = try_parse(alloc, &points, Flags::default(), &tables)?;
    let printed = regex.to_string(alloc)?;
    expect_eq!(rt;
        printed.as_str(),
        "Cat\n..Alt\n....'97'\n....'98'\n..Goal\n"
    );
    Ok(())
}

#[test]
fn a_pattern_is_parsed_in_a_dialect(rt: HostRuntime) -> Result<(), Fail> {
    let alloc = rt.alloc();
    let tables = Tables::small(alloc)?;
    let points = code_points(alloc, "\\b+")?;
    let parsed = try_parse_in(alloc, &points, Flags::default(), &tables, Dialect::Ecma);
    assert!(rt; parsed.is_err());
    Ok(())
}

#[test]
fn a_pattern_is_optimized_in_a_dialect(rt: HostRuntime) -> Result<(), Fail> {
    let alloc = rt.alloc();
    let tables = Tables::small(alloc)?;
    let points = code_points(alloc, "\\b+")?;
    let flags = Flags::default();
    assert!(rt; parse_and_optimize_in(alloc, &points, flags, &tables, Dialect::Ecma).is_err());
    assert!(rt; parse_and_optimize_in(alloc, &points, flags, &tables, Dialect::Regress).is_ok());
    Ok(())
}

#[test]
fn each_node_has_a_span_in_a_dialect(rt: HostRuntime) -> Result<(), Fail> {
    let alloc = rt.alloc();
    let tables = Tables::small(alloc)?;
    let points = code_points(alloc, "\\b+")?;
    let flags = Flags::default();
    assert!(rt; try_parse_with_spans_in(alloc, &points, flags, &tables, Dialect::Ecma).is_err());
    assert!(rt; try_parse_with_spans_in(alloc, &points, flags, &tables, Dialect::Regress).is_ok());
    Ok(())
}

#[test]
fn each_node_has_a_span(rt: HostRuntime) -> Result<(), Fail> {
    let alloc = rt.alloc();
    let tables = Tables::small(alloc)?;
    let points = code_points(alloc, "a*")?;
    let parsed = try_parse_with_spans(alloc, &points, Flags::default(), &tables)?;
    // the letter, the loop, the end, and the whole pattern
    expect_eq!(rt; parsed.spans.len(), 4);
    expect_eq!(rt; parsed.spans[0], Span { start: 0, end: 1 });
    expect_eq!(rt; parsed.spans[1], Span { start: 0, end: 2 });
    expect_eq!(rt; parsed.spans[2], Span { start: 2, end: 2 });
    expect_eq!(rt; parsed.spans[3], Span { start: 0, end: 2 });
    Ok(())
}

#[test]
fn the_nodes_of_a_pattern_are_bounded(rt: HostRuntime) -> Result<(), Fail> {
    let alloc = rt.alloc();
    let points = code_points(alloc, "a|b")?;
    // 3, one for each code point, and one more for the bar
    expect_eq!(rt; node_bound(&points, Flags::default()), 7);
    Ok(())
}

#[test]
fn the_example_of_differences_holds(rt: HostRuntime) -> Result<(), Fail> {
    let alloc = rt.alloc();
    // one of two classes differs
    {
        let tables = Tables::small(alloc)?;
        let points = code_points(alloc, "a[k][j]")?;
        let flags = Flags {
            icase: true,
            ..Flags::default()
        };
        let found = differences(alloc, &points, flags, &tables)?;
        expect_eq!(rt; found.len(), 1);
        expect_eq!(rt; found[0].kind, DifferenceKind::CaseClosure);
        expect_eq!(rt; found[0].span, Span { start: 1, end: 4 });
    }
    Ok(())
}

#[test]
fn the_example_of_warnings_holds(rt: HostRuntime) -> Result<(), Fail> {
    let alloc = rt.alloc();
    // an alternative is hidden
    {
        let tables = Tables::small(alloc)?;
        let points = code_points(alloc, "x(?:a|ab)")?;
        let found = warnings(alloc, &points, Flags::default(), &tables)?;
        expect_eq!(rt; found.len(), 1);
        expect_eq!(rt; found[0].kind, WarningKind::HiddenAlternative);
        expect_eq!(rt; found[0].span, Span { start: 4, end: 8 });
    }
    Ok(())
}

/// Keeps each node, and counts the calls.
#[derive(Drop)]
struct Counter {
    nodes: usize,
}

impl Rewrite for Counter {
    ghost use Rattle.std.specs.Prelude.{true, false};

    ghost removes = { λ t. false };

    ghost is_exact = { true };

    fn apply(&mut self, _node: &mut Node, _walk: &Walk) -> Result<PassAction, AllocError> {
        self.nodes = self.nodes.wrapping_add(1);
        Ok(PassAction::Keep)
    }
}

#[test]
fn a_rewrite_is_applied_to_each_node(rt: HostRuntime) -> Result<(), Fail> {
    let alloc = rt.alloc();
    let mut regex = parsed(alloc, "a|b", false)?;
    let mut counter = Counter { nodes: 0 };
    let changed = run_pass(&mut regex, &mut counter)?;
    assert!(rt; !changed);
    // the two letters, the alternation, the end, and the root
    expect_eq!(rt; counter.nodes, 5);
    Ok(())
}

#[test]
fn a_tree_is_brought_into_normal_form(rt: HostRuntime) -> Result<(), Fail> {
    let alloc = rt.alloc();
    let mut regex = parsed(alloc, "[ab]", false)?;
    optimize(alloc, &mut regex)?;
    let printed = regex.to_string(alloc)?;
    expect_eq!(rt; printed.as_str(), "Cat\n..ByteSet2 0x61 0x62\n..Goal\n");
    Ok(())
}

#[test]
fn a_pattern_is_parsed_and_optimized(rt: HostRuntime) -> Result<(), Fail> {
    let alloc = rt.alloc();
    let tables = Tables::small(alloc)?;
    let points = code_points(alloc, "abc")?;
    let (regex, optimized) = parse_and_optimize(alloc, &points, Flags::default(), &tables)?;
    optimized?;
    let printed = regex.to_string(alloc)?;
    expect_eq!(rt; printed.as_str(), "Cat\n..ByteSeq3 0x616263\n..Goal\n");
    Ok(())
}
