//! The strings of a class with the flag v.
ghost use Rattle.std.specs.Prelude.{◌≡◌, ◌&&◌, ℕ, not, max, List, filter, IfOk, OnOk};
ghost use Rattle.std.specs.BTreeSet.{contains_by};
ghost use Rattle.std.specs.Cmp.Lexicographic.{slice_cmp};
ghost use Rattle.std.specs.Ordering.{nat_cmp};
ghost use Rattle.regress_base.specs.Intervals.{Bounds};
ghost use Rattle.regress_classes.specs.ClassSets.{Value as Written, only, joined, closed_value, is_among};
ghost use Rattle.regress_classes.specs.ClassViews.{HasOthers, AreKeptStrings, strings_of, applied, kept, may_be_left};
ghost use Rattle.regress_unicode.specs.TableOf.{table_of};

use super::Operator;
use crate::closing::fold_strings;
use crate::parameters::Parameters;
use regress_unicode::Tables;
use std::alloc::{AllocError, Global};
use std::collections::BTreeSet;

/// The contents of a class with the flag v besides its code points: strings, and how deep the classes in it nest.
#[derive(Drop)]
pub struct Others {
    /// The strings of two or more characters, in the order in which they were parsed, with repeats.
    pub strings: Vec<Vec<u32>>,
    /// Whether the class has the empty string.
    pub has_empty: bool,
    /// Whether what is written may contain strings (ECMA-262, MayContainStrings).
    pub may_have_strings: bool,
    /// How deep classes nest inside the class: 0 if there is none.
    pub nesting: u32,
}

impl Others {
    /// Returns contents without a string.
    pub(super) fn new(alloc: Global) -> Others
        ensures { (members : List Bounds) → HasOthers (only members) result }
    {
        Others {
            strings: Vec::new(alloc),
            has_empty: false,
            may_have_strings: false,
            nesting: 0,
        }
    }

    /// Returns the contents with folded strings, if the parameters ask for that.
    #[inline(always)]
    pub(super) fn into_folded(
        self,
        tables: &Tables,
        parameters: &Parameters,
    ) -> Result<Others, AllocError>
        ensures { IfOk result (λ folded. (value : Written) → HasOthers value self →
            HasOthers (closed_value (table_of tables.now) parameters.now value) folded) }
    {
        Ok(Others {
            strings: fold_strings(self.strings, tables, parameters)?,
            has_empty: self.has_empty,
            may_have_strings: self.may_have_strings,
            nesting: self.nesting,
        })
    }

    /// Adds the strings of `other`.
    pub(super) fn join(&mut self, mut other: Others) -> Result<(), AllocError>
        ensures { OnOk result ((a b : Written) → HasOthers a self.old → HasOthers b other → HasOthers (joined a b) self.new) }
    {
        self.strings.append(&mut other.strings)?;
        self.has_empty |= other.has_empty;
        self.may_have_strings |= other.may_have_strings;
        self.nesting = self.nesting.max(other.nesting);
        Ok(())
    }

    /// Keeps the strings that `&&` or `--` keeps, given those of `other`. The nesting depth is the maximum of both.
    pub(super) fn apply(&mut self, operator: Operator, other: &Others) -> Result<(), AllocError>
        ensures strings { OnOk result (self.new.strings.items
            ≡ filter (λ string. kept operator (is_among (strings_of other.now.strings.items) string.items)) self.old.strings.items) }
        ensures has_empty { OnOk result (self.new.has_empty ≡ (self.old.has_empty && kept operator other.now.has_empty)) }
        ensures may { OnOk result (self.new.may_have_strings ≡ may_be_left operator self.old.may_have_strings other.now.may_have_strings) }
        ensures nesting { OnOk result (self.new.nesting ≡ max self.old.nesting other.now.nesting) }
    {
        match operator {
            Operator::Intersection => keep_strings(&mut self.strings, &other.strings)?,
            Operator::Subtraction => remove_strings(&mut self.strings, &other.strings)?,
        }
        self.has_empty &= operator.keeps(other.has_empty);
        self.may_have_strings = may_be_left(
            operator,
            self.may_have_strings,
            other.may_have_strings,
        );
        self.nesting = self.nesting.max(other.nesting);
        Ok(())
    }

    /// Returns the strings that both operands keep, or that either drops.
    pub(super) fn and(self, operator: Operator, other: Others) -> Result<Others, AllocError>
        ensures { IfOk result (λ both. (first : Others) (v b : Written) →
            AreKeptStrings operator first self v → HasOthers b other → AreKeptStrings operator first both (applied operator v b)) }
    {
        Ok(Others {
            strings: both_strings(operator, self.strings, other.strings)?,
            has_empty: both(operator, self.has_empty, other.has_empty),
            may_have_strings: self.may_have_strings & other.may_have_strings,
            nesting: self.nesting.max(other.nesting),
        })
    }
}

/// Returns the strings as a set for searching.
fn string_set(alloc: Global, strings: &[Vec<u32>]) -> Result<BTreeSet<&[u32]>, AllocError>
    ensures { IfOk result (λ set. (s : List ℕ) →
        contains_by (λ other. slice_cmp nat_cmp s other.now) set ≡ is_among (strings_of strings.now) s) }
{
    let mut set = BTreeSet::new(alloc);
    for string in strings {
        set.insert(string.as_slice())?;
    }
    Ok(set)
}

/// Keeps the strings that are among the others.
fn keep_strings(strings: &mut Vec<Vec<u32>>, others: &[Vec<u32>]) -> Result<(), AllocError>
    ensures { OnOk result (strings.new.items ≡ filter (λ string. is_among (strings_of others.now) string.items) strings.old.items) }
{
    if !strings.is_empty() {
        let others = string_set(*strings.allocator(), others)?;
        strings.retain(|string| others.contains(string.as_slice()));
    }
    Ok(())
}

/// Drops the strings that are among the others.
fn remove_strings(strings: &mut Vec<Vec<u32>>, others: &[Vec<u32>]) -> Result<(), AllocError>
    ensures { OnOk result (strings.new.items ≡ filter (λ string. not (is_among (strings_of others.now) string.items)) strings.old.items) }
{
    if !strings.is_empty() {
        let others = string_set(*strings.allocator(), others)?;
        strings.retain(|string| !others.contains(string.as_slice()));
    }
    Ok(())
}

/// Returns the strings that both operands keep, or that either drops.
fn both_strings(
    operator: Operator,
    mut strings: Vec<Vec<u32>>,
    mut others: Vec<Vec<u32>>,
) -> Result<Vec<Vec<u32>>, AllocError>
    ensures { IfOk result (λ both. (s : List ℕ) → kept operator (is_among (strings_of both.items) s)
        ≡ (kept operator (is_among (strings_of strings.items) s) && kept operator (is_among (strings_of others.items) s))) }
{
    match operator {
        Operator::Intersection => {
            keep_strings(&mut others, &strings)?;
            Ok(others)
        }
        Operator::Subtraction => {
            strings.append(&mut others)?;
            Ok(strings)
        }
    }
}

/// Returns whether what an operator leaves may have strings, given whether its operands may.
fn may_be_left(operator: Operator, first: bool, other: bool) -> bool
    ensures { result ≡ may_be_left operator first other }
{
    match operator {
        Operator::Intersection => first && other,
        Operator::Subtraction => first,
    }
}

/// Returns whether both operands keep the empty string, or either drops it.
fn both(operator: Operator, has_empty: bool, other: bool) -> bool
    ensures { kept operator result ≡ (kept operator has_empty && kept operator other) }
{
    match operator {
        Operator::Intersection => has_empty && other,
        Operator::Subtraction => has_empty || other,
    }
}
