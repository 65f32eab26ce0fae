//! A linter, as a user of the tree would write first. docs/guide.md shows parts of it.
ghost use Rattle.std.specs.Prelude.{◌≡◌, ◌≤◌, ◌++◌, [], ◌∷◌, IfOk, OnOk, option_map, string_bytes};
ghost use Rattle.regress_front.specs.Tree.{tree};
ghost use Rattle.regress_front.specs.WellFormed.{captures};
ghost use Rattle.regress_front.specs.Measures.{nesting};
ghost use Rattle.example_callers.specs.Listed.{groups_of, Notes};
ghost use Rattle.example_callers.specs.Nested.{is_around, is_unbounded, has_nested, Watches};

use regress_front::ir::{Node, Regex, Walk, walk};
use std::alloc::{AllocError, Global};

/// A capture group: its id, from 0, and its name, if it has one.
#[derive(Debug, Drop)]
pub struct Group {
    pub id: u16,
    pub name: Option<String>,
}

/// What a linter reports about a tree.
#[derive(Debug, Drop)]
pub struct Report {
    /// The capture groups, each before those inside it.
    pub groups: Vec<Group>,
    /// The number of loops, `Loop` and `Loop1CharBody`.
    pub loops: usize,
    pub lookarounds: usize,
    /// Whether an unbounded loop is inside another one, so that matching may take exponential time. It may take that
    /// without nested loops too, as for `(?:a|a)*`.
    pub nested: bool,
}

/// Lists the capture groups of a tree, counts its loops and lookarounds, and reports nested unbounded loops.
///
/// # Errors
/// Returns [`AllocError`] if an allocation fails.
pub fn lint(alloc: Global, regex: &Regex) -> Result<Report, AllocError>
    ensures groups { IfOk result (λ report. groups_of report.groups.items ≡ captures (tree regex.now.node)) }
    ensures nested { IfOk result (λ report. nesting (tree regex.now.node) ≤ usize.MAX → report.nested ≡ has_nested (tree regex.now.node)) }
{
    let mut linter = Linter {
        alloc,
        report: Report {
            groups: Vec::new(alloc),
            loops: 0,
            lookarounds: 0,
            nested: false,
        },
        repeated_at: None,
        out_of_memory: false,
    };
    let mut visit = |node: &Node, walk: &mut Walk| linter.visit(node, walk.depth);
    walk(false, regex.flags.unicode, &regex.node, &mut visit);
    if linter.out_of_memory {
        return Err(AllocError);
    }
    Ok(linter.report)
}

/// The state of a walk.
#[derive(Drop)]
struct Linter {
    alloc: Global,
    report: Report,
    /// The depth of the outermost unbounded loop around the current node.
    repeated_at: Option<usize>,
    /// Whether an allocation for a group failed.
    out_of_memory: bool,
}

impl Linter {
    /// Visits a node, before those inside it.
    fn visit(&mut self, node: &Node, depth: usize)
        ensures notes { Notes self.old self.new (tree node.now) }
        ensures loops { Watches depth (is_unbounded (tree node.now)) self.old.repeated_at self.new.repeated_at self.old.report.nested self.new.report.nested }
    {
        self.watch(depth, is_unbounded(node));
        match node {
            Node::CaptureGroup { id, name, .. } => {
                if self.list(*id, name).is_err() {
                    self.out_of_memory = true;
                }
            }
            Node::Loop { .. } | Node::Loop1CharBody { .. } => {
                self.report.loops = self.report.loops.saturating_add(1);
            }
            Node::LookaroundAssertion { .. } => {
                self.report.lookarounds = self.report.lookarounds.saturating_add(1);
            }
            _ => {}
        }
    }

    /// Lists a capture group. If an allocation fails, the group is left out.
    fn list(&mut self, id: u16, name: &Option<String>) -> Result<(), AllocError>
        ensures out_of_memory { self.new.out_of_memory ≡ self.old.out_of_memory }
        ensures around { self.new.repeated_at ≡ self.old.repeated_at }
        ensures nested { self.new.report.nested ≡ self.old.report.nested }
        ensures listed { OnOk result (groups_of self.new.report.groups.items
            ≡ groups_of self.old.report.groups.items ++ record { id = id; name = option_map string_bytes name.now } ∷ []) }
    {
        let name = match name {
            Some(name) => Some(String::from_str(self.alloc, name)?),
            None => None,
        };
        self.report.groups.push(Group { id, name })?;
        Ok(())
    }

    /// Reports a node if it is an unbounded loop inside an unbounded loop, and records the outermost one.
    fn watch(&mut self, depth: usize, unbounded: bool)
        ensures out_of_memory { self.new.out_of_memory ≡ self.old.out_of_memory }
        ensures groups { self.new.report.groups ≡ self.old.report.groups }
        ensures loops { Watches depth unbounded self.old.repeated_at self.new.repeated_at self.old.report.nested self.new.report.nested }
    {
        if self.is_repeated(depth) {
            self.report.nested = self.report.nested || unbounded;
        } else {
            self.repeated_at = unbounded.then_some(depth);
        }
    }

    /// Returns whether the recorded unbounded loop is around a node at that depth.
    fn is_repeated(&self, depth: usize) -> bool
        ensures { result ≡ is_around depth self.now.repeated_at }
    {
        match self.repeated_at {
            Some(outermost) => outermost < depth,
            None => false,
        }
    }
}

/// Returns whether a node is a loop without a maximum number of iterations.
fn is_unbounded(node: &Node) -> bool
    ensures { result ≡ is_unbounded (tree node.now) }
{
    match node {
        Node::Loop { quant, .. } | Node::Loop1CharBody { quant, .. } => quant.max.is_none(),
        _ => false,
    }
}
