//! Runs rewrites over trees, and checks what a rewritten tree keeps.
ghost use Rattle.regress_tree.specs.Tree.{tree};
ghost use Rattle.regress_tree.specs.WellFormed.{IsWellFormed};

use crate::census::Census;
use crate::out_of_memory::WantsMemory;
use crate::printing::report_tree;
use regress_passes::rewrites::{
    Flatten, FormLiteralBytes, Promote1CharLoops, PropagateEarlyFails, RemoveEmpties,
    SimplifyBrackets, UnrollLoops,
};
use regress_passes::{Rewrite, run_pass};
use regress_tree::ir::Regex;
use test_notation::{Call, Fault, Promise};

/// Reports what two passes of a rewrite return, and the tree after them.
///
/// # Preconditions
/// The tree of `regex` is well formed.
pub fn rewrite(call: &mut Call, name: &str, regex: &mut Regex)
    requires { IsWellFormed (tree regex.old.node) }
{
    let alloc = call.alloc();
    match name {
        "simplify_brackets" => run_twice(call, regex, &mut SimplifyBrackets { alloc }),
        "flatten" => run_twice(call, regex, &mut Flatten { alloc }),
        "unroll_loops" => run_twice(call, regex, &mut UnrollLoops { alloc }),
        "promote_1char_loops" => run_twice(call, regex, &mut Promote1CharLoops { alloc }),
        "form_literal_bytes" => run_twice(call, regex, &mut FormLiteralBytes { alloc }),
        "remove_empties" => run_twice(call, regex, &mut RemoveEmpties),
        "propagate_early_fails" => run_twice(call, regex, &mut PropagateEarlyFails { alloc }),
        _ => call.fail(Fault::Line),
    }
}

fn run_twice<R: Rewrite>(call: &mut Call, regex: &mut Regex, rewrite: &mut R)
    requires { IsWellFormed (tree regex.old.node) }
{
    let first = changes(call, regex, rewrite);
    let second = changes(call, regex, rewrite);
    call.report(&first);
    call.report(&second);
    call.say(" ");
    report_tree(call, regex);
}

/// Returns whether a pass of a rewrite reports a change.
fn changes<R: Rewrite>(call: &mut Call, regex: &mut Regex, rewrite: &mut R) -> bool
    requires { IsWellFormed (tree regex.old.node) }
    ensures { IsWellFormed (tree regex.new.node) }
{
    let response = run_pass(regex, rewrite);
    call.made(response, false)
}

/// Returns whether a pass of one of the rewrites reports a change.
///
/// # Preconditions
/// The tree of `regex` is well formed.
pub fn is_changed(call: &mut Call, regex: &mut Regex) -> bool
    requires { IsWellFormed (tree regex.old.node) }
    ensures { IsWellFormed (tree regex.new.node) }
{
    let alloc = call.alloc();
    changes(call, regex, &mut SimplifyBrackets { alloc })
        || changes(call, regex, &mut Flatten { alloc })
        || changes(call, regex, &mut UnrollLoops { alloc })
        || changes(call, regex, &mut Promote1CharLoops { alloc })
        || changes(call, regex, &mut FormLiteralBytes { alloc })
        || changes(call, regex, &mut RemoveEmpties)
        || changes(call, regex, &mut PropagateEarlyFails { alloc })
}

/// Reports the flattened tree, after passes in which an allocation fails at the first node, at the second, and so on.
///
/// # Preconditions
/// The tree of `regex` is well formed.
pub fn pass(call: &mut Call, regex: &Regex)
    requires { IsWellFormed (tree regex.now.node) }
{
    let before = Census::of(call, &regex.node);
    for nodes in 0..1000 {
        let Ok(copy) = regex.try_clone(call.alloc()) else {
            call.fail(Fault::Memory);
            return;
        };
        if is_passed(call, copy, nodes, &before) {
            return;
        }
    }
    call.fail(Fault::Broken(Promise::PassEnds));
}

fn is_passed(call: &mut Call, regex: Regex, nodes: usize, before: &Census) -> bool
    requires { IsWellFormed (tree regex.node) }
{
    let mut regex = regex;
    let rewrite = Flatten {
        alloc: call.alloc(),
    };
    let response = run_pass(&mut regex, &mut WantsMemory { nodes, rewrite });
    check_kept(call, &regex, before);
    if response.is_err() {
        return false;
    }
    report_tree(call, &regex);
    true
}

/// Checks what a rewrite keeps, whatever it returns.
pub fn check_kept(call: &mut Call, regex: &Regex, before: &Census) {
    let after = Census::of(call, &regex.node);
    call.check(regex.is_well_formed(), Promise::WellFormed);
    call.check(after.has_groups_of(before), Promise::GroupsAreKept);
    call.check(after.is_within_bound_of(before), Promise::WithinBound);
}
