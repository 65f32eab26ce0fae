//! The contents of a class with the flag v.
ghost use Rattle.std.specs.Prelude.{◌≡◌, ◌&&◌, ℕ, All, List, IfOk, OnOk};
ghost use Rattle.regress_base.specs.Intervals.{Bounds, is_member, IsCanonical};
ghost use Rattle.regress_classes.specs.ClassProductions.{one_point};
ghost use Rattle.regress_classes.specs.ClassSets.{Value as Written, nothing, has_strings, is_not_negatable, only, joined, closed_value, value_of_string};
ghost use Rattle.regress_lexer.specs.Source.{IsCodePoint};
ghost use Rattle.regress_classes.specs.ClassViews.{HasMembers, IsValue, applied, kept};
ghost use Rattle.regress_unicode.specs.TableOf.{table_of};

use super::Operator;
use super::others::Others;
use crate::closing::close;
use crate::parameters::Parameters;
use regress_base::codepointset::CodePointSet;
use regress_lexer::Dialect;
use regress_unicode::Tables;
use std::alloc::{AllocError, Global};

/// The contents of a class with the flag v: code points and strings.
#[derive(Drop)]
pub struct Value {
    /// The code points.
    pub set: CodePointSet,
    /// The strings, and how deep the classes in it nest.
    pub others: Others,
}

impl Value {
    /// Returns empty contents.
    pub(super) fn new(alloc: Global) -> Value
        ensures { IsValue result nothing }
    {
        Value::of_set(alloc, CodePointSet::new(alloc))
    }

    /// Returns these code points alone.
    pub(super) fn of_set(alloc: Global, set: CodePointSet) -> Value
        ensures { (members : List Bounds) → HasMembers members set → IsValue result (only members) }
    {
        Value {
            set,
            others: Others::new(alloc),
        }
    }

    /// Returns the contents with closed code points and folded strings, if the parameters ask for that.
    #[inline(always)]
    pub(super) fn into_closed(
        self,
        tables: &Tables,
        parameters: &Parameters,
    ) -> Result<Value, AllocError>
        ensures { IfOk result (λ held. (value : Written) → IsValue self value →
            IsValue held (closed_value (table_of tables.now) parameters.now value)) }
    {
        let Value { set, others } = self;
        Ok(Value {
            set: close(set, tables, parameters)?,
            others: others.into_folded(tables, parameters)?,
        })
    }

    /// Returns whether there is a string, which may be the empty one.
    pub fn has_strings(&self) -> bool
        ensures { (value : Written) → IsValue self.now value → result ≡ has_strings value }
    {
        !self.others.strings.is_empty() || self.others.has_empty
    }

    /// Returns whether the class may not be negated in a dialect: it has strings, or it may have them by what is written.
    pub(super) fn is_not_negatable(&self, dialect: Dialect) -> bool
        ensures { (value : Written) → IsValue self.now value → result ≡ is_not_negatable dialect value }
    {
        self.has_strings() || (!dialect.judges_contents() && self.others.may_have_strings)
    }

    /// Returns one code point.
    pub(super) fn of_point(alloc: Global, c: u32) -> Result<Value, AllocError>
        requires { IsCodePoint c }
        ensures { IfOk result (λ value. IsValue value (only (one_point c))) }
    {
        let mut set = CodePointSet::new(alloc);
        set.add_one(c)?;
        Ok(Value::of_set(alloc, set))
    }

    /// Adds a string. A string of one character is added as a code point.
    pub(super) fn add_string(&mut self, string: Vec<u32>) -> Result<(), AllocError>
        requires { All IsCodePoint string.items }
        ensures { OnOk result ((a : Written) → IsValue self.old a → IsValue self.new (joined a (value_of_string string.items))) }
    {
        match string.as_slice() {
            [] => {
                self.others.has_empty = true;
                self.others.may_have_strings = true;
            }
            [c] => self.set.add_one(*c)?,
            _ => {
                self.others.strings.push(string)?;
                self.others.may_have_strings = true;
            }
        }
        Ok(())
    }

    /// Keeps what is in both operands for `&&`, or what the other one lacks for `--`.
    pub(super) fn apply(&mut self, operator: Operator, other: Value) -> Result<(), AllocError>
        ensures { OnOk result ((a b : Written) → IsValue self.old a → IsValue other b → IsValue self.new (applied operator a b)) }
    {
        apply_points(&mut self.set, operator, &other.set)?;
        self.others.apply(operator, &other.others)?;
        Ok(())
    }
}

/// Keeps the code points that are in both sets for `&&`, or that the other one lacks for `--`.
fn apply_points(
    set: &mut CodePointSet,
    operator: Operator,
    other: &CodePointSet,
) -> Result<(), AllocError>
    ensures members { OnOk result ((c : ℕ) →
        is_member set.new c ≡ (is_member set.old c && kept operator (is_member other.now c))) }
    ensures canonical { IsCanonical set.new }
{
    match operator {
        Operator::Intersection => set.intersect(other.intervals()),
        Operator::Subtraction => set.remove(other.intervals()),
    }
}
