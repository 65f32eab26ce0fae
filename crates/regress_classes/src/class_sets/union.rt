//! Unions of the parts of a class with the flag v.
ghost use Rattle.std.specs.Prelude.{◌≡◌, ℕ, [], ◌∷◌, IfOk, OnOk};
ghost use Rattle.regress_classes.specs.ClassProductions.{one_point};
ghost use Rattle.regress_classes.specs.ClassSets.{Value as Written, Operand as WrittenOperand, nothing, only, joined, value_of};
ghost use Rattle.regress_lexer.specs.Source.{IsCodePoint};
ghost use Rattle.regress_classes.specs.ClassViews.{IsValue, IsUnion, IsOperand};

use super::operand::Operand;
use super::others::Others;
use super::value::Value;
use crate::gathered::IntervalCollector;
use regress_base::codepointset::Interval;
use std::alloc::{AllocError, Global};

/// The union of the parts of a class while they are parsed: a value whose code points are still collected.
#[derive(Drop)]
pub struct Union {
    points: IntervalCollector,
    others: Others,
}

impl Union {
    /// Returns an empty union.
    pub(super) fn new(alloc: Global) -> Union
        ensures { IsUnion result nothing }
    {
        Union {
            points: IntervalCollector::new(alloc),
            others: Others::new(alloc),
        }
    }

    /// Returns an empty union with room for the parts of most classes.
    pub(super) fn with_room(alloc: Global) -> Result<Union, AllocError>
        ensures { IfOk result (λ union. IsUnion union nothing) }
    {
        Ok(Union {
            points: IntervalCollector::with_room(alloc)?,
            others: Others::new(alloc),
        })
    }

    /// Adds the code points of an interval.
    pub(super) fn add(&mut self, interval: Interval) -> Result<(), AllocError>
        ensures { OnOk result ((a : Written) → IsUnion self.old a → IsUnion self.new (joined a (only (interval ∷ [])))) }
    {
        self.points.add(interval)
    }

    /// Adds a code point.
    pub(super) fn add_point(&mut self, c: u32) -> Result<(), AllocError>
        requires { IsCodePoint c }
        ensures { OnOk result ((a : Written) → IsUnion self.old a → IsUnion self.new (joined a (only (one_point c)))) }
    {
        self.add(Interval::new(c, c))
    }

    /// Adds the contents of an operand.
    pub(super) fn add_operand(&mut self, operand: Operand) -> Result<(), AllocError>
        requires { (written : WrittenOperand) × IsOperand operand written }
        ensures { OnOk result ((a : Written) (written : WrittenOperand) →
            IsUnion self.old a → IsOperand operand written → IsUnion self.new (joined a (value_of written))) }
    {
        match operand {
            Operand::Character(c) => self.add_point(c),
            Operand::Class(value) => self.join(value),
        }
    }

    /// Adds the contents of a value.
    fn join(&mut self, other: Value) -> Result<(), AllocError>
        ensures { OnOk result ((a b : Written) → IsUnion self.old a → IsValue other b → IsUnion self.new (joined a b)) }
    {
        self.points.add_set(other.set)?;
        self.others.join(other.others)
    }

    /// Returns the value of the whole union.
    pub(super) fn into_value(self) -> Result<Value, AllocError>
        ensures { IfOk result (λ held. (a : Written) → IsUnion self a → IsValue held a) }
    {
        Ok(Value {
            set: self.points.into_set()?,
            others: self.others,
        })
    }
}
