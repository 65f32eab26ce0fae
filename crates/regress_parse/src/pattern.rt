//! Parses a whole pattern into its tree.
ghost use Rattle.std.specs.Prelude.{◌≡◌, ◌-◌, true, Bool, All, length, IfOk, IfErr};
ghost use Rattle.regress_unicode.specs.TableOf.{table_of};
ghost use Rattle.regress_syntax.specs.Meaning.{setting_of};
ghost use Rattle.regress_tree.specs.Tree.{tree};
ghost use Rattle.regress_tree.specs.WellFormed.{IsWellFormed};
ghost use Rattle.regress_lexer.specs.Dialects.{flags_in_force};
ghost use Rattle.regress_lexer.specs.Fault.{FailsBy};
ghost use Rattle.regress_lexer.specs.Source.{IsCodePoint};
ghost use Rattle.regress_syntax.specs.Syntax.{Pattern, nothing_counted};
ghost use Rattle.regress_syntax.specs.Scanning.{NotesFirst, IsLocated, FailsAt};
ghost use Rattle.regress_syntax.specs.Views.{context_of};
ghost use Rattle.regress_parse.specs.TreeOf.{tree_of};
ghost use Rattle.regress_parse.specs.Accepted.{IsAccepted, OneIsDerived, OfAccepted, Means, IsAcceptedIn, OneIsDerivedIn, OfAcceptedIn};
ghost use Rattle.regress_parse.specs.Rejected.{NoneIsAccepted, IsTrueOf, MayExceed, IsTrueIn};
ghost use Rattle.regress_parse.specs.Fault.{RejectedOnlyIf, ReportsKind};
ghost use Rattle.regress_parse.specs.Settled.{IsAtFirstDuplicate, IsFaultOf, IsFinalIn, IsFaultIn};
ghost use Rattle.regress_parse.specs.Parsing.{YieldsWhole, Reaches};
ghost use Rattle.regress_parse.specs.Spans.{spans_in};
ghost use Rattle.regress_parse.specs.Recorded.{HasSpans};

use crate::fault::{ParseFault, PlacedFault, position};
use crate::parser::{Parser, PartContext};
use crate::span::Span;
use regress_base::types::Flags;
use regress_syntax::{Cursor, Dialect, Fault, FaultKind, FirstErrors, Scope, scan_groups};
use regress_tree::ir::{Node, Regex};
use regress_unicode::Tables;
use std::alloc::Global;

/// The tree of a pattern, with the position of each of its nodes in the pattern.
#[derive(Drop)]
pub struct SpannedRegex {
    /// The tree of the pattern, and its flags.
    pub regex: Regex,
    /// One span for each node, in postorder. `try_parse_with_spans` specifies each.
    pub spans: Vec<Span>,
}

/// The tree of a pattern without its last node, and the spans of all nodes if they are recorded.
#[derive(Drop)]
pub(crate) struct Body {
    pub(crate) node: Node,
    pub(crate) spans: Vec<Span>,
}

/// Parses a pattern and returns its tree (ECMA-262, Pattern). `docs/syntax.md` has the grammar of the dialect, and
/// `docs/ir.md` the tree.
///
/// `pattern` is a list of code points. A surrogate in it is an ordinary literal, and matches no character of a text.
/// The flags u and v are independent: v alone selects classes with strings and operators (ECMA-262,
/// ClassSetExpression), `\p` and `\P`, and properties of strings. JavaScript's flag v is u and v together.
///
/// # Preconditions
/// Each element of `pattern` is a code point, at most U+10FFFF.
///
/// # Errors
/// - [`ParseFault::Syntax`] if the pattern is rejected, with the text of a `FaultKind`, which specifies when each
///   occurs:
///   - first of all, `Duplicate capture group name` if two groups of one name conflict; else `Regular expression is too
///     deeply nested` if the nesting depth exceeds `MAX_NESTING_DEPTH`, where the whole pattern, each group and
///     lookaround, and with the flag v each class inside another class count one; else `Capture group count limit
///     exceeded` if the number of groups does not fit into 32 bits;
///   - `Capture group count limit exceeded` if there are more than `MAX_CAPTURE_GROUPS` groups, and `Loop count limit
///     exceeded` if there are more than `MAX_LOOPS` items with a quantifier;
///   - `Unbalanced parenthesis`, or a text about an item, a group, a reference, a quantifier, an escape, a property or
///     a class, if no production of the grammar applies. Of several such errors the leftmost one is reported.
/// - [`ParseFault::Memory`] if an allocation fails, also that of the text of a syntax error.
///
/// # Complexity
/// Time is linear in the length of the pattern, with a logarithmic factor for named groups and for the contents of
/// classes; the flag i multiplies that by the number of entries of the case table. A reference by name makes a node for
/// each group with the name, so time and size of the tree can grow as their product. With the flag v the contents of a
/// class are traversed once for each class around it, and each use of a property copies its set from the table. The
/// depth of recursion is at most `MAX_NESTING_DEPTH`.
///
/// # Examples
/// ```
/// let tables = Tables::small(alloc)?;
/// let points = code_points(alloc, "a|b")?;
/// let regex = try_parse(alloc, &points, Flags::default(), &tables)?;
/// let printed = regex.to_string(alloc)?;
/// assert_eq!(rt;
///     printed.as_str(),
///     "Cat\n..Alt\n....'97'\n....'98'\n..Goal\n"
/// );
/// ```
pub fn try_parse(
    alloc: Global,
    pattern: &[u32],
    flags: Flags,
    tables: &Tables,
) -> Result<Regex, ParseFault>
    requires { All IsCodePoint pattern.now }

    // These hold for every outcome of allocations: a tree only for a pattern that the grammar derives within the
    // limits, and a syntax error only for one that it does not.
    ensures accepted { IfOk result (λ r. (p : Pattern)
        × IsAccepted (setting_of flags tables.now) pattern.now p × (tree r.node ≡ tree_of (table_of tables.now) p)) }
    ensures rejected { RejectedOnlyIf result (NoneIsAccepted (setting_of flags tables.now) pattern.now) }
    ensures reported { ReportsKind result (IsTrueOf (setting_of flags tables.now) pattern.now) }
    ensures limits { ReportsKind result (MayExceed pattern.now) }
    ensures only { OneIsDerived (setting_of flags tables.now) pattern.now }

    // Properties of the tree.
    ensures meaning { let setting = setting_of flags tables.now in
        IfOk result (λ r. OfAccepted setting pattern.now (Means setting (tree r.node))) }
    ensures well_formed { IfOk result (λ r. IsWellFormed (tree r.node)) }
    ensures flags { IfOk result (λ r. r.flags ≡ flags) }
{
    Ok(try_parse_with_position(alloc, pattern, flags, tables)?)
}

/// Parses a pattern as [`try_parse`] does, and returns the kind and the position of a syntax error too.
///
/// # Preconditions
/// Each element of `pattern` is a code point, at most U+10FFFF.
///
/// # Errors
/// - [`PlacedFault::Syntax`] if the pattern is rejected, with the kind of the error, its text, which is that of
///   [`try_parse`], and its code-point index, at most the length of `pattern`. `docs/errors.md` specifies the position
///   for each kind.
/// - [`PlacedFault::Memory`] if an allocation fails, also that of the text of a syntax error.
///
/// # Complexity
/// As for [`try_parse`].
pub fn try_parse_with_position(
    alloc: Global,
    pattern: &[u32],
    flags: Flags,
    tables: &Tables,
) -> Result<Regex, PlacedFault>
    requires { All IsCodePoint pattern.now }

    // These hold for every outcome of allocations: a tree only for a pattern that the grammar derives within the
    // limits, and a syntax error only for one that it does not.
    ensures accepted { IfOk result (λ r. (p : Pattern)
        × IsAccepted (setting_of flags tables.now) pattern.now p × (tree r.node ≡ tree_of (table_of tables.now) p)) }
    ensures rejected { IfErr result (IsFaultOf (setting_of flags tables.now) pattern.now) }
    ensures only { OneIsDerived (setting_of flags tables.now) pattern.now }

    // Properties of the tree.
    ensures meaning { let setting = setting_of flags tables.now in
        IfOk result (λ r. OfAccepted setting pattern.now (Means setting (tree r.node))) }
    ensures well_formed { IfOk result (λ r. IsWellFormed (tree r.node)) }
    ensures flags { IfOk result (λ r. r.flags ≡ flags) }
{
    try_parse_in(alloc, pattern, flags, tables, Dialect::Regress)
}

/// Parses a pattern of a dialect as [`try_parse_with_position`] parses one of [`Dialect::Regress`]. `docs/syntax.md`
/// has the rules in which the dialects differ.
///
/// The tree has the flags in force ([`Dialect::flags_in_force`]).
///
/// # Preconditions
/// Each element of `pattern` is a code point, at most U+10FFFF.
///
/// # Errors
/// As for [`try_parse_with_position`].
///
/// # Complexity
/// As for [`try_parse`].
///
/// # Examples
/// ```
/// let tables = Tables::small(alloc)?;
/// let points = code_points(alloc, "\\b+")?;
/// let parsed = try_parse_in(alloc, &points, Flags::default(), &tables, Dialect::Ecma);
/// assert!(rt; parsed.is_err());
/// ```
pub fn try_parse_in(
    alloc: Global,
    pattern: &[u32],
    flags: Flags,
    tables: &Tables,
    dialect: Dialect,
) -> Result<Regex, PlacedFault>
    requires { All IsCodePoint pattern.now }

    // These hold for every outcome of allocations: a tree only for a pattern that the grammar derives within the
    // limits, and a syntax error only for one that it does not.
    ensures accepted { let setting = setting_of (flags_in_force dialect flags) tables.now in IfOk result (λ r. (p : Pattern)
        × IsAcceptedIn dialect setting pattern.now p × (tree r.node ≡ tree_of (table_of tables.now) p)) }
    ensures rejected { IfErr result (IsFaultIn dialect (setting_of (flags_in_force dialect flags) tables.now) pattern.now) }
    ensures only { OneIsDerivedIn dialect (setting_of (flags_in_force dialect flags) tables.now) pattern.now }

    // Properties of the tree.
    ensures meaning { let setting = setting_of (flags_in_force dialect flags) tables.now in
        IfOk result (λ r. OfAcceptedIn dialect setting pattern.now (Means setting (tree r.node))) }
    ensures well_formed { IfOk result (λ r. IsWellFormed (tree r.node)) }
    ensures flags { IfOk result (λ r. r.flags ≡ flags_in_force dialect flags) }
{
    match parse::<false>(
        alloc,
        pattern,
        dialect.flags_in_force(flags),
        tables,
        dialect,
    ) {
        Ok(parsed) => Ok(parsed.regex),
        Err(fault) => Err(position(alloc, fault, pattern.len())),
    }
}

/// Parses a pattern of a dialect as [`try_parse_in`] does, and returns a span for each node of the tree too.
///
/// # Preconditions
/// Each element of `pattern` is a code point, at most U+10FFFF.
///
/// # Errors
/// As for [`try_parse_with_position`].
///
/// # Complexity
/// As for [`try_parse`]. In a lookbehind the spans are copied, twice for each lookbehind around them.
pub fn parse_with_spans_in(
    alloc: Global,
    pattern: &[u32],
    flags: Flags,
    tables: &Tables,
    dialect: Dialect,
) -> Result<SpannedRegex, PlacedFault>
    requires { All IsCodePoint pattern.now }

    // The tree of the pattern that the grammar derives, and the spans of its nodes.
    ensures spanned { let setting = setting_of (flags_in_force dialect flags) tables.now in
        IfOk result (λ r. (p : Pattern) × (accepted : IsAcceptedIn dialect setting pattern.now p)
        × (tree r.regex.node ≡ tree_of (table_of tables.now) p)
        × (r.spans.items ≡ spans_in dialect setting pattern.now p accepted.derived)) }

    // The contract of `try_parse_in`.
    ensures rejected { IfErr result (IsFaultIn dialect (setting_of (flags_in_force dialect flags) tables.now) pattern.now) }
    ensures only { OneIsDerivedIn dialect (setting_of (flags_in_force dialect flags) tables.now) pattern.now }
    ensures meaning { let setting = setting_of (flags_in_force dialect flags) tables.now in
        IfOk result (λ r. OfAcceptedIn dialect setting pattern.now (Means setting (tree r.regex.node))) }
    ensures well_formed { IfOk result (λ r. IsWellFormed (tree r.regex.node)) }
    ensures flags { IfOk result (λ r. r.regex.flags ≡ flags_in_force dialect flags) }
{
    match parse::<true>(
        alloc,
        pattern,
        dialect.flags_in_force(flags),
        tables,
        dialect,
    ) {
        Ok(parsed) => Ok(parsed),
        Err(fault) => Err(position(alloc, fault, pattern.len())),
    }
}

/// Returns the tree, and the spans of its nodes if `RECORDS`, or the kind of the syntax error and the number of code
/// points that remain at its position.
fn parse<const RECORDS: bool>(
    alloc: Global,
    pattern: &[u32],
    flags: Flags,
    tables: &Tables,
    dialect: Dialect,
) -> Result<SpannedRegex, Fault>
    requires { All IsCodePoint pattern.now }
    ensures accepted { IfOk result (λ r. (p : Pattern)
        × IsAcceptedIn dialect (setting_of flags tables.now) pattern.now p × (tree r.regex.node ≡ tree_of (table_of tables.now) p)) }
    ensures spans { RECORDS ≡ true → IfOk result (λ r. (p : Pattern) (accepted : IsAcceptedIn dialect (setting_of flags tables.now) pattern.now p) →
        r.spans.items ≡ spans_in dialect (setting_of flags tables.now) pattern.now p accepted.derived) }
    ensures reported { FailsBy result (IsTrueIn dialect (setting_of flags tables.now) pattern.now) }
    ensures limits { FailsBy result (MayExceed pattern.now) }
    ensures settled { FailsAt result (λ kind left. IsFinalIn dialect (setting_of flags tables.now) pattern.now kind (length pattern.now - left)) }
    ensures duplicate { FailsAt result (λ kind left. IsAtFirstDuplicate (setting_of flags tables.now) pattern.now kind (length pattern.now - left)) }
    ensures only { OneIsDerivedIn dialect (setting_of flags tables.now) pattern.now }
    ensures meaning { let setting = setting_of flags tables.now in
        IfOk result (λ r. OfAcceptedIn dialect setting pattern.now (Means setting (tree r.regex.node))) }
    ensures well_formed { IfOk result (λ r. IsWellFormed (tree r.regex.node)) }
    ensures flags { IfOk result (λ r. r.regex.flags ≡ flags) }
{
    let found = scan_groups(alloc, pattern, flags.unicode_sets, tables)?;
    let scope = Scope {
        flags,
        dialect,
        tables,
        groups: &found.groups,
    };
    let body = parse_body::<RECORDS>(alloc, pattern, &scope, found.first_errors)?;
    let parts = vec![in alloc; body.node, Node::Goal]?;
    Ok(SpannedRegex {
        regex: Regex {
            node: Node::Cat(parts),
            flags,
        },
        spans: body.spans,
    })
}

/// Parses the whole source. A syntax error is reported at the position that the scan has noted for its kind, if there
/// is one.
fn parse_body<const RECORDS: bool>(
    alloc: Global,
    pattern: &[u32],
    scope: &Scope,
    first_errors: FirstErrors,
) -> Result<Body, Fault>
    requires { All IsCodePoint pattern.now }
    ensures value { YieldsWhole (context_of scope.now) pattern.now result }
    ensures reached { FailsBy result (λ kind. Reaches kind nothing_counted 1 pattern.now) }
    ensures spans { RECORDS ≡ true → IfOk result (λ body. HasSpans (context_of scope.now) pattern.now body.spans.items) }
    ensures located { (sets : Bool) → NotesFirst sets pattern.now first_errors → FailsAt result (IsLocated sets pattern.now) }
{
    match parse_source::<RECORDS>(alloc, pattern, scope) {
        Ok(body) => Ok(body),
        Err(fault) => Err(first_errors.locate(fault)),
    }
}

/// Parses the whole source. A syntax error is reported at the position where the parser found it.
fn parse_source<const RECORDS: bool>(
    alloc: Global,
    pattern: &[u32],
    scope: &Scope,
) -> Result<Body, Fault>
    requires { All IsCodePoint pattern.now }
    ensures value { YieldsWhole (context_of scope.now) pattern.now result }
    ensures reached { FailsBy result (λ kind. Reaches kind nothing_counted 1 pattern.now) }
    ensures spans { RECORDS ≡ true → IfOk result (λ body. HasSpans (context_of scope.now) pattern.now body.spans.items) }
{
    let mut parser = Parser {
        cursor: Cursor {
            rest: pattern,
            alloc,
        },
        group_count: 0,
        loop_count: 0,
        spans: Vec::new(alloc),
    };
    let around = PartContext {
        scope: *scope,
        backwards: false,
        depth: 0,
        whole: pattern.len(),
    };
    let node = parser.consume_disjunction::<RECORDS>(&around)?;
    if !parser.cursor.rest.is_empty() {
        return Err(parser.cursor.reject(FaultKind::UnbalancedParenthesis));
    }
    parser.record_end::<RECORDS>(&around)?;
    Ok(Body {
        node,
        spans: parser.spans,
    })
}
