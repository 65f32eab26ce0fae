//! Chains of operators in a class with the flag v.
ghost use Rattle.std.specs.Prelude.{◌≡◌, ◌≤◌, ℕ, not, IfOk};
ghost use Rattle.regress_base.specs.Intervals.{is_member};
ghost use Rattle.regress_classes.specs.ClassSets.{Value as Written};
ghost use Rattle.regress_classes.specs.ClassViews.{IsValue, IsChain, IsLeft, applied, kept};

use super::Operator;
use super::others::Others;
use super::value::Value;
use crate::gathered::IntervalCollector;
use regress_base::codepointset::{CODE_POINT_MAX, CodePointSet};
use std::alloc::{AllocError, Global};

/// An operand, and what the operands after it drop from it. The last operand is applied directly. Applying each one as
/// it is parsed would traverse the whole first operand each time.
#[derive(Drop)]
pub struct Chain {
    first: Value,
    operator: Operator,
    taken: Option<Taken>,
}

/// What operands after an operator drop.
#[derive(Drop)]
pub struct Taken {
    /// The code points that are dropped.
    points: IntervalCollector,
    /// The strings that `&&` keeps, or that `--` drops.
    others: Others,
}

impl Chain {
    /// Returns a chain of the first operand alone.
    pub(super) fn new(first: Value, operator: Operator) -> Chain
        ensures value { (v : Written) → IsValue first v → IsChain result v }
        ensures operator { result.operator ≡ operator }
    {
        Chain {
            first,
            operator,
            taken: None,
        }
    }

    /// Adds an operand that is not the last.
    pub(super) fn push(self, operand: Value) -> Result<Chain, AllocError>
        ensures { IfOk result (λ chain. (chain.operator ≡ self.operator)
            × ((v b : Written) → IsChain self v → IsValue operand b → IsChain chain (applied self.operator v b))) }
    {
        let Chain {
            first,
            operator,
            taken,
        } = self;
        let taken = match taken {
            Some(taken) => taken.and(operator, operand)?,
            None => Taken::of(operator, operand)?,
        };
        Ok(Chain {
            first,
            operator,
            taken: Some(taken),
        })
    }

    /// Returns what all operands keep of the first one, the last operand included.
    pub(super) fn finish(self, last: Value) -> Result<Value, AllocError>
        ensures { IfOk result (λ held. (v b : Written) → IsChain self v → IsValue last b → IsValue held (applied self.operator v b)) }
    {
        let Chain {
            first,
            operator,
            taken,
        } = self;
        let mut first = match taken {
            Some(taken) => taken.take_from(first, operator)?,
            None => first,
        };
        first.apply(operator, last)?;
        Ok(first)
    }
}

impl Taken {
    /// Returns what one operand drops.
    fn of(operator: Operator, operand: Value) -> Result<Taken, AllocError>
        ensures { IfOk result (λ taken. (first : Value) (a b : Written) →
            IsValue first a → IsValue operand b → IsLeft operator first taken (applied operator a b)) }
    {
        let mut points = IntervalCollector::new(*operand.others.strings.allocator());
        points.add_set(dropped_points(operator, operand.set)?)?;
        Ok(Taken {
            points,
            others: operand.others,
        })
    }

    /// Returns what these operands and one more drop.
    fn and(self, operator: Operator, operand: Value) -> Result<Taken, AllocError>
        ensures { IfOk result (λ taken. (first : Value) (v b : Written) →
            IsLeft operator first self v → IsValue operand b → IsLeft operator first taken (applied operator v b)) }
    {
        let mut points = self.points;
        points.add_set(dropped_points(operator, operand.set)?)?;
        Ok(Taken {
            points,
            others: self.others.and(operator, operand.others)?,
        })
    }

    /// Returns what is kept of a value.
    fn take_from(self, mut value: Value, operator: Operator) -> Result<Value, AllocError>
        ensures { IfOk result (λ left. (v : Written) → IsLeft operator value self v → IsValue left v) }
    {
        let points = self.points.into_set()?;
        value.set.remove(points.intervals())?;
        value.others.apply(operator, &self.others)?;
        Ok(value)
    }
}

/// Returns the code points that an operand drops.
fn dropped_points(operator: Operator, set: CodePointSet) -> Result<CodePointSet, AllocError>
    ensures { IfOk result (λ dropped. (c : ℕ) → c ≤ CODE_POINT_MAX →
        is_member dropped c ≡ not (kept operator (is_member set c))) }
{
    match operator {
        Operator::Intersection => set.inverted(),
        Operator::Subtraction => Ok(set),
    }
}
