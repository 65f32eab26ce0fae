//! The state of a scan.
ghost use Rattle.std.specs.Prelude.{◌≡◌, ℕ, ◌<◌, ◌≤◌, ◌+◌, ◌-◌, ◌^◌, min, max, List, ◌∷◌, [], ◌++◌, filter, length, map, Some, option_map, IfOk, OnOk};
ghost use Rattle.std.specs.List.Sorted.{IsPermutation, IsSortedBy, IsStableBy};
ghost use Rattle.regress_base.specs.Limits.{max_capture_groups, max_nesting_depth};
ghost use Rattle.regress_lexer.specs.Fault.{FailsBy};
ghost use Rattle.regress_syntax.specs.Numbering.{names_of};
ghost use Rattle.regress_syntax.specs.Views.{names_in};
ghost use Rattle.regress_syntax.specs.GroupTokens.{GroupToken as Written, captures};
ghost use Rattle.regress_syntax.specs.Paths.{CaptureAt, NoTokensConflict, at_the_start, conflict, enter};
ghost use Rattle.regress_syntax.specs.Scan.{named_by, deepest, TokensShow};
ghost use Rattle.regress_syntax.specs.Scanning.{token_of, capture_of, bears_name, path_of, position_of, position_after, highest_at, open_groups_after_token, is_before, After, HasNumbers, AddsGroup, AreInOrder, IsAtConflict, FailsAt, first_conflict, greatest};

use super::path::Path;
use super::token::GroupToken;
use crate::groups::Groups;
use crate::names::Name;
use regress_base::types::MAX_NESTING_DEPTH;
use regress_lexer::fault::{Fault, FaultKind, rejected};
use std::alloc::{AllocError, Global};

/// What the scan has found before its position in the pattern.
#[derive(Drop)]
pub(super) struct Scanner {
    alloc: Global,
    /// The disjunctions that contain the position.
    path: Path,
    /// The number of parentheses opened so far.
    opened: u64,
    /// The greatest nesting depth so far, with the classes inside a class counted. It saturates.
    deepest: usize,
    /// The name of each capture group so far, or `None`.
    names: Vec<Option<Name>>,
    /// The capture groups so far that have names.
    named: Vec<NamedGroup>,
}

/// A capture group with a name, and the path of its position. The path has at most `MAX_NESTING_DEPTH` disjunctions, so
/// that the paths of a deeply nested pattern do not take quadratic memory.
#[derive(Drop)]
struct NamedGroup {
    name: Name,
    path: Path,
    /// The number of code points that remain from its parenthesis on.
    left: usize,
    /// The group's number, from 1; `u32::MAX` if it is greater.
    number: u32,
}

impl Scanner {
    /// Creates the state at the start of a pattern, where the nesting depth is 1.
    #[tactic(auto, using(crate::proofs::ScannerLemmas::deepest_above))]
    pub(super) fn new(alloc: Global) -> Result<Scanner, AllocError>
        ensures found { (all : List Written) → IfOk result (After all all) }
        ensures start { IfOk result (λ scanner. position_of scanner ≡ at_the_start) }
        ensures none { IfOk result (λ scanner. scanner.named.items ≡ []) }
        ensures numbers { IfOk result (λ scanner. highest_at (position_of scanner) ≡ 0) }
        ensures numbered { IfOk result HasNumbers }
        ensures nesting { IfOk result (λ scanner. length (path_of scanner.path) ≡ 1) }
    {
        Ok(Scanner {
            alloc,
            path: Path::new(alloc)?,
            opened: 0,
            deepest: 1,
            names: Vec::new(alloc),
            named: Vec::new(alloc),
        })
    }

    /// Moves past a mark. `left` is the number of code points that remain from its first one on.
    pub(super) fn pass(&mut self, token: GroupToken, left: usize) -> Result<(), AllocError>
        requires { highest_at (position_of self.old) + 1 < 2 ^ 64 }
        ensures found { (all rest : List Written) → After all (token_of token ∷ rest) self.old → OnOk result (After all rest self.new) }
        ensures numbers { OnOk result (highest_at (position_of self.new) ≤ highest_at (position_of self.old) + 1) }
        ensures numbered { HasNumbers self.old → OnOk result (HasNumbers self.new) }
        ensures nesting { 1 ≤ length (path_of self.old.path) →
            OnOk result (length (path_of self.new.path) ≡ open_groups_after_token (token_of token) (length (path_of self.old.path))) }
        ensures position { OnOk result (position_of self.new ≡ position_after (token_of token) (position_of self.old)) }
        ensures added { OnOk result (AddsGroup (token_of token) left (path_of self.old.path) self.old.named.items self.new.named.items) }
    {
        match token {
            GroupToken::Opens => self.open()?,
            GroupToken::Captures(name) => {
                self.add(name, left)?;
                self.open()?;
            }
            GroupToken::Closes => self.path.leave(),
            GroupToken::Next => self.path.next_alternative(),
            GroupToken::Nests(nesting) => self.hold(nesting),
        }
        Ok(())
    }

    /// Enters a pair of parentheses.
    fn open(&mut self) -> Result<(), AllocError>
        requires { highest_at (position_of self.old) + 1 < 2 ^ 64 }
        ensures same { OnOk result (self.new ≡ record self.old { path = self.new.path; opened = self.new.opened; deepest = self.new.deepest }) }
        ensures position { OnOk result (position_of self.new ≡ enter (position_of self.old)) }
        ensures deepest { OnOk result (self.new.deepest ≡ max self.old.deepest (length (path_of self.old.path) + 1)) }
    {
        self.opened += 1;
        self.path.enter(self.opened)?;
        self.deepest = self.deepest.max(self.path.depth());
        Ok(())
    }

    /// Moves past a class inside which classes are nested `nesting` deep.
    fn hold(&mut self, nesting: usize)
        ensures same { self.new ≡ record self.old { deepest = self.new.deepest } }
        ensures deepest { self.new.deepest ≡ max self.old.deepest (min (length (path_of self.old.path) + nesting) (2 ^ 64 - 1)) }
    {
        self.deepest = self.deepest.max(self.path.depth().saturating_add(nesting));
    }

    /// Returns the number of open groups, the whole pattern included.
    pub(super) fn nesting(&self) -> usize
        ensures { result ≡ length (path_of self.now.path) }
    {
        self.path.depth()
    }

    /// Adds a capture group at the position. `left` is the number of code points that remain from its parenthesis on.
    fn add(&mut self, name: Option<Name>, left: usize) -> Result<(), AllocError>
        ensures same { OnOk result (self.new ≡ record self.old { names = self.new.names; named = self.new.named }) }
        ensures names { OnOk result (names_of self.new.names.items ≡ names_of self.old.names.items ++ names_of (name ∷ [])) }
        ensures named { length (path_of self.old.path) ≤ max_nesting_depth →
            OnOk result (map capture_of self.new.named.items ≡ map capture_of self.old.named.items
            ++ filter bears_name (record { path = path_of self.old.path; name = option_map (λ name. name.items) name } ∷ [])) }
        ensures added { OnOk result (AddsGroup (captures (option_map (λ name. name.items) name)) left (path_of self.old.path)
            self.old.named.items self.new.named.items) }
        ensures numbered { HasNumbers self.old → OnOk result (HasNumbers self.new) }
    {
        if let Some(name) = &name {
            self.named.push(NamedGroup {
                name: name.clone()?,
                path: self.path.outermost(self.alloc, MAX_NESTING_DEPTH as usize)?,
                left,
                number: next_number(&self.names),
            })?;
        }
        self.names.push(name)?;
        Ok(())
    }

    /// Returns the capture groups, at the end of the pattern.
    ///
    /// # Errors
    /// The first of these that applies: [`FaultKind::DuplicateName`] if two groups conflict, at the first name that
    /// conflicts with one before it, [`FaultKind::TooDeep`] if the pattern is nested too deeply,
    /// [`FaultKind::TooManyGroups`] if there are more than `u32::MAX` groups. Returns [`Fault::Memory`] if an allocation
    /// fails.
    pub(super) fn finish(self) -> Result<Groups, Fault>
        requires numbered { HasNumbers self }
        requires order { AreInOrder 0 self.named.items }
        ensures names { (all : List Written) → After all [] self → IfOk result (λ groups. names_in groups ≡ named_by all) }
        ensures count { IfOk result (λ groups. groups.count ≡ min (length (names_in groups)) max_capture_groups) }
        ensures apart { (all : List Written) → After all [] self → IfOk result (λ _. NoTokensConflict all) }
        ensures nesting { (all : List Written) → After all [] self → IfOk result (λ _. deepest 1 all ≤ max_nesting_depth) }
        ensures rejected { (all : List Written) → After all [] self → FailsBy result (TokensShow all) }
        ensures conflict { (all : List Written) → After all [] self → deepest 1 all ≤ max_nesting_depth → FailsAt result (IsAtConflict self.named.items) }
    {
        let mut named = self.named;
        // The sort is stable: groups of one name stay in the order of the pattern.
        sort_by_name(&mut named)?;
        // Paths that differ only past the limit count as equal: such a pattern is rejected in any case.
        if let Some(left) = find_conflict(&named) {
            // The name follows `(?<`.
            let name = left.saturating_sub(3);
            return Err(rejected(name, FaultKind::DuplicateName));
        }
        if self.deepest > MAX_NESTING_DEPTH as usize {
            return Err(rejected(0, FaultKind::TooDeep));
        }
        if self.names.len() > u32::MAX as usize {
            return Err(rejected(0, FaultKind::TooManyGroups));
        }
        let numbers = numbers(self.alloc, &named)?;
        Ok(Groups::new(self.names, numbers))
    }
}

/// Returns the number, from 1, of the group that follows these; `u32::MAX` if it is greater.
fn next_number(names: &[Option<Name>]) -> u32
    ensures { length names.now + 1 < 2 ^ 32 → result ≡ length names.now + 1 }
{
    u32::try_from(names.len() + 1).unwrap_or(u32::MAX)
}

/// Sorts the groups by name. Groups of one name keep their order.
fn sort_by_name(groups: &mut Vec<NamedGroup>) -> Result<(), AllocError>
    ensures permutation { IsPermutation groups.old.items groups.new.items }
    ensures sorted { OnOk result (IsSortedBy is_before groups.new.items) }
    ensures stable { IsStableBy is_before groups.old.items groups.new.items }
{
    groups.sort_by(|group, other| group.name.cmp(&other.name))
}

/// Returns the numbers of the groups, in their order.
fn numbers(alloc: Global, groups: &[NamedGroup]) -> Result<Vec<u32>, AllocError>
    ensures { IfOk result (λ numbers. numbers.items ≡ map (λ group. group.number) groups.now) }
{
    groups.iter().map(|group| group.number).collect(alloc)
}

impl NamedGroup {
    /// Returns whether the groups have the same name and no disjunction has them in different alternatives.
    fn conflicts_with(&self, other: &NamedGroup) -> bool
        ensures { result ≡ conflict (capture_of self.now) (capture_of other.now) }
    {
        self.name == other.name && !self.path.is_alternative_to(&other.path)
    }
}

/// Returns `left` of the group that is the first in the pattern of those that conflict with the group before them in the
/// list, if there is one.
///
/// If the list is sorted by name, with the groups of one name in the order of the pattern, that is the first group in the
/// pattern that conflicts with any group before it: if each group is an alternative to the next one, all are
/// alternatives to each other.
fn find_conflict(groups: &[NamedGroup]) -> Option<usize>
    ensures { result ≡ first_conflict groups.now }
{
    let mut first = None;
    let mut rest = groups;
    while let Some((group, after)) = rest.split_first() {
        if let Some(next) = after.first() {
            if group.conflicts_with(next) {
                first = Some(greater(first, next.left));
            }
        }
        rest = after;
    }
    first
}

/// Returns the greater of the numbers.
fn greater(first: Option<usize>, second: usize) -> usize
    ensures { Some result ≡ greatest first (Some second) }
{
    match first {
        Some(first) => first.max(second),
        None => second,
    }
}
