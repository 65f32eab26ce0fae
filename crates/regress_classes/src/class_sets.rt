//! Parses classes with the flag v.
ghost use Rattle.std.specs.Prelude.{◌≡◌, ◌<◌, ◌≤◌, ◌&&◌, length, ◌+◌, ◌-◌, ◌^◌, Bool, true, false, drop, [], ◌∷◌, if◌then◌else◌, IfOk, OnOk, OnErr};
ghost use Rattle.regress_classes.specs.ClassSets.{Value as Written, Operand as WrittenOperand, nested, are_at, operand_at, next_operand_at, part_after, contents_after, contents_at, closed_contents_at, class_set_by};
ghost use Rattle.regress_lexer.specs.Fault.{is_limit, FailsByNoLimit, FailsByDepthOnlyIf};
ghost use Rattle.regress_lexer.specs.Dialects.{isolates_ampersand, judges_contents};
ghost use Rattle.regress_lexer.specs.Reads.{ParsesAs};
ghost use Rattle.regress_lexer.specs.Source.{char, is_at};
ghost use Rattle.regress_classes.specs.ClassViews.{IsValue, IsUnion, Joins, IsOperand, IsClassSetRead, inner_of, parts_onto, operands_onto, symbol_of, applied, kept};
ghost use Rattle.regress_lexer.specs.Views.{source};
ghost use Rattle.regress_unicode.specs.TableOf.{table_of};

mod chain;
mod character;
mod operand;
mod others;
mod plain;
mod strings;
mod union;
mod value;

use crate::parameters::Parameters;
use chain::Chain;
use character::parse_set_character;
use operand::{Operand, read_escaped_operand};
pub use others::Others;
use plain::{add_plain_part, begins_plain_union, read_plain_part};
use regress_base::codepointset::Interval;
use regress_lexer::Dialect;
use regress_lexer::cursor::Cursor;
use regress_lexer::fault::{Fault, FaultKind, rejected};
use regress_unicode::Tables;
use std::alloc::AllocError;
use union::Union;
pub use value::Value;

/// A class with the flag v: its contents as written, and whether the class is negated.
#[derive(Drop)]
pub struct ClassSet {
    /// Whether the class begins with `[^`. An inverted class has no strings.
    pub negated: bool,
    /// The contents as written, not complemented.
    pub value: Value,
}

impl ClassSet {
    /// Returns the contents as those of an operand, where an inverted class is its complement.
    fn into_nested(self) -> Result<Value, AllocError>
        requires { self.value.others.nesting < 2 ^ 32 - 1 }
        ensures { IfOk result (λ held. (read : Bool × Written) → IsClassSetRead self read → IsValue held (nested read)) }
    {
        let ClassSet { negated, mut value } = self;
        if negated {
            value.set = value.set.inverted()?;
        }
        value.others.nesting += 1;
        Ok(value)
    }
}

/// The context of an operand.
#[derive(Clone, Copy)]
struct OperandContext<'a> {
    tables: &'a Tables,
    parameters: &'a Parameters,
    /// Whether the class around is negated and judged by its contents.
    negated: bool,
    /// The remaining nesting depth for classes.
    nesting: u32,
    /// The number of code points that remained before the `[` of the class around.
    opened: usize,
}

/// The operators `&&` and `--`.
#[derive(Clone, Copy)]
enum Operator {
    Intersection,
    Subtraction,
}

impl Operator {
    /// Returns the character that the operator has twice.
    fn sign(self) -> char
        ensures { result ≡ symbol_of self }
    {
        match self {
            Operator::Intersection => '&',
            Operator::Subtraction => '-',
        }
    }

    /// Returns whether the operator keeps an element, given whether the operand after it has the element.
    fn keeps(self, has: bool) -> bool
        ensures { result ≡ kept self has }
    {
        match self {
            Operator::Intersection => has,
            Operator::Subtraction => !has,
        }
    }

    /// Returns the kind of syntax error if anything else follows an operand.
    fn unexpected(self) -> FaultKind
        ensures { is_limit result ≡ false }
    {
        match self {
            Operator::Intersection => FaultKind::UnexpectedInIntersection,
            Operator::Subtraction => FaultKind::UnexpectedInSubtraction,
        }
    }
}

/// Parses a class after its `[` (dialect of ECMA-262, ClassSetExpression).
///
/// `nesting` is the remaining nesting depth, the class itself included, and `opened` the number of code points that
/// remained before the `[`. Afterwards `cursor` is after the `]`.
///
/// # Errors
/// - [`Fault::Rejected`] if the class is not closed, if it nests deeper than `nesting`, if it is negated and has strings
///   or, in some dialects, may have them by what is written, or if it has an invalid operand, operator or range.
/// - [`Fault::Memory`] if an allocation fails.
///
/// After an error the position of `cursor` is unspecified.
///
/// # Complexity
/// The contents of a class are traversed once for each class around it. The depth of recursion is at most `nesting`.
#[cycle(class_set)]
pub fn parse_class_set(
    cursor: &mut Cursor,
    tables: &Tables,
    parameters: &Parameters,
    nesting: u32,
    opened: usize,
) -> Result<ClassSet, Fault>
    ensures value { ParsesAs IsClassSetRead (source cursor.new) result (class_set_by (table_of tables.now) parameters.now nesting (source cursor.old)) }
    ensures nesting { IfOk result (λ class. class.value.others.nesting < nesting) }
    ensures kind { FailsByDepthOnlyIf result (nesting ≤ length (source cursor.old)) }
{
    if nesting == 0 {
        return Err(rejected(opened, FaultKind::TooDeep));
    }
    let negated = cursor.try_consume('^');
    let around = OperandContext {
        tables,
        parameters,
        negated: is_judged(negated, parameters.dialect),
        nesting: nesting - 1,
        opened,
    };
    let value = parse_closed_contents(cursor, &around)?;
    if negated && value.is_not_negatable(parameters.dialect) {
        return Err(rejected(opened, FaultKind::InvalidNegatedClass));
    }
    Ok(ClassSet { negated, value })
}

/// Returns whether a class is negated and judged by its contents.
fn is_judged(negated: bool, dialect: Dialect) -> bool
    ensures { result ≡ (negated && judges_contents dialect) }
{
    negated && dialect.judges_contents()
}

/// Parses the contents of a class, up to its `]`, and closes them.
#[cycle(class_set)]
#[inline(always)]
fn parse_closed_contents(cursor: &mut Cursor, around: &OperandContext) -> Result<Value, Fault>
    ensures value { ParsesAs IsValue (source cursor.new) result
        (closed_contents_at (table_of around.now.tables.now) around.now.parameters.now (inner_of around.now) around.now.negated (source cursor.old)) }
    ensures kind { FailsByDepthOnlyIf result (around.now.nesting < length (source cursor.old)) }
{
    let value = parse_contents(cursor, around)?;
    Ok(value.into_closed(around.tables, around.parameters)?)
}

/// Parses the contents of a class, up to its `]`.
#[cycle(class_set)]
fn parse_contents(cursor: &mut Cursor, around: &OperandContext) -> Result<Value, Fault>
    ensures value { ParsesAs IsValue (source cursor.new) result
        (contents_at (table_of around.now.tables.now) around.now.parameters.now (inner_of around.now) around.now.negated (source cursor.old)) }
    ensures kind { FailsByDepthOnlyIf result (around.now.nesting < length (source cursor.old)) }
{
    if begins_plain_union(cursor.rest) {
        let union = Union::with_room(cursor.alloc)?;
        return parse_parts(cursor, around, union);
    }
    if cursor.try_consume(']') {
        return Ok(Value::new(cursor.alloc));
    }
    if cursor.rest.is_empty() {
        return Err(rejected(around.opened, FaultKind::UnbalancedSet));
    }
    let left = cursor.rest.len();
    let first = parse_operand(cursor, around)?;
    parse_after_first_operand(cursor, around, first, left)
}

/// Parses the contents after the first operand. `left` is the number of code points that remained before that.
#[cycle(class_set)]
fn parse_after_first_operand(
    cursor: &mut Cursor,
    around: &OperandContext,
    first: Operand,
    left: usize,
) -> Result<Value, Fault>
    requires { (operand : WrittenOperand) × IsOperand first operand }
    ensures value { (operand : WrittenOperand) → IsOperand first operand → ParsesAs IsValue (source cursor.new) result
        (contents_after (table_of around.now.tables.now) around.now.parameters.now (inner_of around.now) around.now.negated (operand, source cursor.old)) }
    ensures kind { FailsByDepthOnlyIf result (around.now.nesting < length (source cursor.old)) }
{
    if try_consume_twice(cursor, '&') {
        let value = first.into_closed_value(cursor.alloc, around)?;
        parse_operands(cursor, around, value, Operator::Intersection)
    } else if try_consume_twice(cursor, '-') {
        let value = first.into_closed_value(cursor.alloc, around)?;
        parse_operands(cursor, around, value, Operator::Subtraction)
    } else if try_consume_ampersand(cursor, around.parameters.dialect) {
        let mut union = Union::new(cursor.alloc);
        union.add_operand(first)?;
        union.add_point(u32::from('&'))?;
        parse_parts(cursor, around, union)
    } else {
        let mut union = Union::new(cursor.alloc);
        parse_rest_of_part(cursor, around, first, left, &mut union)?;
        parse_parts(cursor, around, union)
    }
}

/// Consumes a `&` after the first operand, if one is next and begins no range in the dialect.
fn try_consume_ampersand(cursor: &mut Cursor, dialect: Dialect) -> bool
    ensures found { result ≡ (is_at (char "&") (source cursor.old) && isolates_ampersand dialect) }
    ensures moves { source cursor.new ≡ (if result then drop 1 (source cursor.old) else source cursor.old) }
{
    let found = cursor.is_at('&') && dialect.isolates_ampersand();
    if found {
        cursor.rest = &cursor.rest[1..];
    }
    found
}

/// Consumes `c` and another `c`, if both are next.
fn try_consume_twice(cursor: &mut Cursor, c: char) -> bool
    ensures found { result ≡ are_at c (source cursor.old) }
    ensures moves { source cursor.new ≡ (if result then drop 2 (source cursor.old) else source cursor.old) }
{
    let found = are_at(cursor.rest, c);
    if found {
        cursor.rest = &cursor.rest[2..];
    }
    found
}

/// Returns whether `source` starts with `c` and another `c`.
fn are_at(source: &[u32], c: char) -> bool
    ensures { result ≡ are_at c source.now }
{
    match source {
        [first, second, ..] => *first == u32::from(c) && *second == u32::from(c),
        _ => false,
    }
}

/// Parses the parts up to `]`, and adds their contents to `union`.
#[cycle(class_set)]
fn parse_parts(
    cursor: &mut Cursor,
    around: &OperandContext,
    mut union: Union,
) -> Result<Value, Fault>
    ensures value { (held : Written) → IsUnion union held → ParsesAs IsValue (source cursor.new) result
        (parts_onto (table_of around.now.tables.now) around.now.parameters.now (inner_of around.now) around.now.negated held (source cursor.old)) }
    ensures kind { FailsByDepthOnlyIf result (around.now.nesting < length (source cursor.old)) }
{
    while !cursor.is_at(']') {
        if let Some(read) = read_plain_part(cursor.rest) {
            add_plain_part(cursor, &mut union, read)?;
            continue;
        }
        if cursor.rest.is_empty() {
            return Err(rejected(around.opened, FaultKind::UnbalancedSet));
        }
        let left = cursor.rest.len();
        let first = parse_operand(cursor, around)?;
        parse_rest_of_part(cursor, around, first, left, &mut union)?;
    }
    cursor.try_consume(']');
    Ok(union.into_value()?)
}

/// Parses the rest of a part after its first operand, and adds its contents to `union`. A hyphen makes a range. `left`
/// is the number of code points that remained before the part.
#[cycle(class_set)]
fn parse_rest_of_part(
    cursor: &mut Cursor,
    around: &OperandContext,
    first: Operand,
    left: usize,
    union: &mut Union,
) -> Result<(), Fault>
    requires { (operand : WrittenOperand) × IsOperand first operand }
    ensures value { (operand : WrittenOperand) → IsOperand first operand → ParsesAs (λ _ part. Joins part union.old union.new) (source cursor.new) result
        (part_after (table_of around.now.tables.now) around.now.parameters.now (inner_of around.now) around.now.negated (operand, source cursor.old)) }
    ensures kind { FailsByDepthOnlyIf result (around.now.nesting < length (source cursor.old)) }
{
    if !cursor.try_consume('-') {
        union.add_operand(first)?;
        return Ok(());
    }
    let Operand::Character(a) = first else {
        return Err(rejected(left, FaultKind::InvalidSetRange));
    };
    match parse_operand(cursor, around)? {
        Operand::Character(b) if a <= b => Ok(union.add(Interval::new(a, b))?),
        _ => Err(rejected(left, FaultKind::InvalidSetRange)),
    }
}

/// Parses the operands after an operator, up to `]`.
#[cycle(class_set)]
fn parse_operands(
    cursor: &mut Cursor,
    around: &OperandContext,
    value: Value,
    operator: Operator,
) -> Result<Value, Fault>
    ensures value { (held : Written) → IsValue value held → ParsesAs IsValue (source cursor.new) result
        (operands_onto (table_of around.now.tables.now) around.now.parameters.now (inner_of around.now) around.now.negated
        (symbol_of operator) (applied operator) held (source cursor.old)) }
    ensures kind { FailsByDepthOnlyIf result (around.now.nesting < length (source cursor.old)) }
{
    let mut chain = Chain::new(value, operator);
    loop {
        let operand = parse_next_operand(cursor, around, operator)?.into_closed_value(
            cursor.alloc,
            around,
        )?;
        if cursor.try_consume(']') {
            return Ok(chain.finish(operand)?);
        }
        consume_operator(cursor, operator, around.opened)?;
        chain = chain.push(operand)?;
    }
}

/// Parses the operand after an operator. In some dialects it does not begin with the character of the operator.
#[cycle(class_set)]
fn parse_next_operand(
    cursor: &mut Cursor,
    around: &OperandContext,
    operator: Operator,
) -> Result<Operand, Fault>
    ensures value { ParsesAs IsOperand (source cursor.new) result
        (next_operand_at (table_of around.now.tables.now) around.now.parameters.now (inner_of around.now) around.now.negated
        (symbol_of operator) (source cursor.old)) }
    ensures kind { FailsByDepthOnlyIf result (around.now.nesting < length (source cursor.old)) }
{
    if !around.parameters.dialect.isolates_ampersand() && cursor.is_at(operator.sign()) {
        return Err(cursor.reject(FaultKind::InvalidSetCharacter));
    }
    parse_operand(cursor, around)
}

/// Consumes an operator. Fails if none is next; at the end of the source the error is that the class is not closed.
/// `opened` is the number of code points that remained before the `[` of the class.
fn consume_operator(cursor: &mut Cursor, operator: Operator, opened: usize) -> Result<(), Fault>
    ensures ok { OnOk result ((are_at (symbol_of operator) (source cursor.old) ≡ true) × (source cursor.new ≡ drop 2 (source cursor.old))) }
    ensures err { OnErr result (are_at (symbol_of operator) (source cursor.old) ≡ false) }
    ensures kind { FailsByNoLimit result }
{
    if try_consume_twice(cursor, operator.sign()) {
        return Ok(());
    }
    if cursor.rest.is_empty() {
        Err(rejected(opened, FaultKind::UnbalancedSet))
    } else if cursor.is_at(operator.sign()) {
        Err(cursor.reject(FaultKind::UnbalancedSet))
    } else {
        Err(cursor.reject(operator.unexpected()))
    }
}

/// Parses an operand (dialect of ECMA-262, ClassSetOperand).
#[cycle(class_set)]
fn parse_operand(cursor: &mut Cursor, around: &OperandContext) -> Result<Operand, Fault>
    ensures value { ParsesAs IsOperand (source cursor.new) result
        (operand_at (table_of around.now.tables.now) around.now.parameters.now (inner_of around.now) around.now.negated (source cursor.old)) }
    ensures kind { FailsByDepthOnlyIf result (around.now.nesting < length (source cursor.old)) }
{
    if cursor.rest.is_empty() {
        return Err(cursor.reject(FaultKind::EmptyOperand));
    }
    let begin = cursor.rest.len();
    if cursor.try_consume('[') {
        let class = parse_class_set(
            cursor,
            around.tables,
            around.parameters,
            around.nesting,
            begin,
        )?;
        return Ok(Operand::Class(class.into_nested()?));
    }
    if cursor.try_consume('\\') {
        return read_escaped_operand(cursor, around, begin);
    }
    let character = parse_set_character(cursor, around.parameters)?;
    Ok(Operand::Character(character))
}
