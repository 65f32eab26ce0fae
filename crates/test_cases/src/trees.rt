//! Calls on the trees of patterns.
ghost use Rattle.regress_tree.specs.Tree.{tree};
ghost use Rattle.regress_tree.specs.WellFormed.{IsWellFormed};

use crate::parsing::{parse_tree, report_fault};
use regress_base::types::Flags;
use regress_front::optimizer::{optimize, parse_and_optimize};
use regress_tree::ir::Regex;
use regress_unicode::Tables;
use test_notation::{Call, Fault, Promise};
use test_tree_cases::{
    Census, ask, check_kept, first_part, is_changed, is_normal, is_same, iteration, parts, pass,
    report_tree, rewrite,
};

/// Reports the parsed tree of a pattern or its syntax error and, if `with_second`, a tab and the optimized tree, which
/// has to be unchanged by further rewrites.
pub(crate) fn report_trees(call: &mut Call, flags: Flags, with_second: bool, tables: &Tables) {
    let Some(regex) = parse_tree(call, flags, tables) else {
        return;
    };
    report_tree(call, &regex);
    if with_second {
        call.say("\t");
        report_settled(call, regex);
    }
}

fn report_settled(call: &mut Call, regex: Regex)
    requires { IsWellFormed (tree regex.node) }
{
    let mut regex = regex;
    optimize_watched(call, &mut regex);
    report_tree(call, &regex);
    check_settled(call, &mut regex);
}

/// Makes a call on the parsed tree of a pattern, or reports its syntax error.
pub(crate) fn make_on_tree(call: &mut Call, name: &str, flags: Flags, tables: &Tables) {
    if let Some(regex) = parse_tree(call, flags, tables) {
        let mut regex = regex;
        call.check(regex.is_well_formed(), Promise::WellFormed);
        if !make_on_parsed(call, name, &regex) {
            make_on_changed(call, name, &mut regex);
        }
    }
}

/// Makes a call that leaves the tree unchanged, and returns whether there is one.
fn make_on_parsed(call: &mut Call, name: &str, regex: &Regex) -> bool
    requires { IsWellFormed (tree regex.now.node) }
{
    match name {
        "parse" => report_tree(call, regex),
        "copy" => copy(call, regex),
        "units" => units(call, regex),
        "pass" => pass(call, regex),
        "first" => call.show(first_part(first_part(&regex.node))),
        "ask" => ask(call, first_part(&regex.node)),
        "reverse" => iteration(call, regex),
        _ => return false,
    }
    true
}

fn make_on_changed(call: &mut Call, name: &str, regex: &mut Regex)
    requires { IsWellFormed (tree regex.old.node) }
{
    match name {
        "optimize" => {
            optimize_watched(call, regex);
            report_tree(call, regex);
        }
        "count" => count(call, regex),
        "settled" => {
            optimize_watched(call, regex);
            check_settled(call, regex);
            call.say("holds");
        }
        "parts" => {
            optimize_watched(call, regex);
            parts(call, &regex.node);
        }
        _ => rewrite(call, name, regex),
    }
}

fn copy(call: &mut Call, regex: &Regex) {
    match regex.try_clone(call.alloc()) {
        Ok(copy) => {
            call.check(copy.flags == regex.flags, Promise::CopyIsEqual);
            report_tree(call, &copy);
        }
        Err(_) => call.fail(Fault::Memory),
    }
}

/// Reports the units of a copy.
fn units(call: &mut Call, regex: &Regex) {
    match regex.try_clone(call.alloc()) {
        Ok(copy) => {
            let census = Census::of(call, &copy.node);
            call.report(&census.units);
        }
        Err(_) => call.fail(Fault::Memory),
    }
}

/// Reports the units of the parsed tree and of the optimized tree, and the loops of the latter.
fn count(call: &mut Call, regex: &mut Regex)
    requires { IsWellFormed (tree regex.old.node) }
{
    let before = Census::of(call, &regex.node);
    optimize_watched(call, regex);
    let after = Census::of(call, &regex.node);
    call.report(&before.units);
    call.report(&after.units);
    call.report(&after.loops);
}

/// Optimizes a tree. If an allocation fails, the tree keeps everything but the normal form, and a second call
/// establishes that too.
pub(crate) fn optimize_watched(call: &mut Call, regex: &mut Regex)
    requires { IsWellFormed (tree regex.old.node) }
    ensures { IsWellFormed (tree regex.new.node) }
{
    let before = Census::of(call, &regex.node);
    let response = optimize(call.alloc(), regex);
    check_kept(call, regex, &before);
    if response.is_err() {
        let again = optimize(call.alloc(), regex);
        call.done(again);
        check_kept(call, regex, &before);
    }
    call.check(is_normal(&regex.node), Promise::Normal);
    call.done(response);
}

/// Reports the optimized tree of a pattern or its syntax error, by one call.
pub(crate) fn whole(call: &mut Call, flags: Flags, tables: &Tables) {
    let points = call.pattern();
    match parse_and_optimize(call.alloc(), &points, flags, tables) {
        Ok((regex, optimized)) => {
            call.check(regex.is_well_formed(), Promise::WellFormed);
            call.check(regex.flags == flags, Promise::CopyIsEqual);
            call.done(optimized);
            report_tree(call, &regex);
        }
        Err(fault) => report_fault(call, fault),
    }
}

/// Checks that each rewrite reports no change, and that neither they nor `optimize` change a node.
fn check_settled(call: &mut Call, regex: &mut Regex)
    requires { IsWellFormed (tree regex.old.node) }
{
    let Ok(before) = regex.try_clone(call.alloc()) else {
        call.fail(Fault::Memory);
        return;
    };
    let changed = is_changed(call, regex);
    call.check(
        !changed && is_same(&regex.node, &before.node),
        Promise::Settled,
    );
    let again = optimize(call.alloc(), regex);
    call.done(again);
    call.check(is_same(&regex.node, &before.node), Promise::Settled);
}
