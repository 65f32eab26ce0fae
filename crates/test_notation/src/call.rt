//! A call in a test case: its fields and its result.
ghost use Rattle.std.specs.Prelude.{◌≤◌, All};

use crate::fault::{Fault, Promise};
use crate::intervals::read_interval;
use crate::letters::parse_flags;
use crate::numbers::{parse_decimal, read_point};
use crate::pattern::parse_pattern;
use regress_base::codepointset::{CODE_POINT_MAX, CodePointSet, Interval};
use regress_base::types::Flags;
use std::alloc::{AllocError, Global};
use std::fmt::{Debug, Display, Write};

/// A call: its fields, which are parsed from left to right, and its result. The first `Fault` is kept; a value that
/// cannot be parsed or allocated is empty from then on. A call is thus a sequence of steps, none of which has to check
/// the ones before it.
#[derive(Drop)]
pub struct Call<'a> {
    alloc: Global,
    rest: Option<&'a str>,
    reported: String,
    fault: Option<Fault>,
}

impl<'a> Call<'a> {
    /// Returns the call with these fields, separated by tabs.
    pub fn new(alloc: Global, fields: &'a str) -> Call<'a> {
        Call {
            alloc,
            rest: Some(fields),
            reported: String::new(alloc),
            fault: None,
        }
    }

    /// Returns the call's result.
    ///
    /// # Errors
    /// Returns the first [`Fault`], or [`Fault::Line`] if fields remain.
    pub fn finish(self) -> Result<String, Fault> {
        let Call {
            rest,
            reported,
            fault,
            ..
        } = self;
        match fault {
            Some(fault) => Err(fault),
            None if rest.is_some() => Err(Fault::Line),
            None => Ok(reported),
        }
    }

    /// Returns the call's result if it is not the expected one.
    ///
    /// # Errors
    /// As [`Call::finish`].
    pub fn difference(self, expected: &str) -> Result<Option<String>, Fault> {
        let found = self.finish()?;
        Ok(if found.as_str() == expected {
            None
        } else {
            Some(found)
        })
    }

    /// Returns the allocator for values of the call.
    pub fn alloc(&self) -> Global {
        self.alloc
    }

    /// Records a `Fault`, if it is the first.
    pub fn fail(&mut self, fault: Fault) {
        if self.fault.is_none() {
            self.fault = Some(fault);
        }
    }

    /// Records a broken promise unless `is_kept`.
    pub fn check(&mut self, is_kept: bool, promise: Promise) {
        if !is_kept {
            self.fail(Fault::Broken(promise));
        }
    }

    /// Records a failed allocation, if `done` is one.
    pub fn done(&mut self, done: Result<(), AllocError>) {
        if done.is_err() {
            self.fail(Fault::Memory);
        }
    }

    /// Returns the value or, if an allocation failed, records that and returns `otherwise`.
    pub fn made<T: Drop>(&mut self, made: Result<T, AllocError>, otherwise: T) -> T {
        match made {
            Ok(value) => value,
            Err(_) => {
                self.fail(Fault::Memory);
                otherwise
            }
        }
    }

    /// Returns the value or, if the field is malformed, records that and returns `otherwise`.
    pub fn read<T: Drop>(&mut self, read: Option<T>, otherwise: T) -> T {
        match read {
            Some(value) => value,
            None => {
                self.fail(Fault::Line);
                otherwise
            }
        }
    }

    /// Parses the next field as a text.
    pub fn field(&mut self) -> &'a str {
        let Some(rest) = self.rest else {
            self.fail(Fault::Line);
            return "";
        };
        match rest.split_once('\t') {
            Some((field, after)) => {
                self.rest = Some(after);
                field
            }
            None => {
                self.rest = None;
                rest
            }
        }
    }

    /// Parses the next field as a number.
    pub fn number(&mut self) -> u32 {
        let field = self.field();
        self.read(parse_decimal(field), 0)
    }

    /// Parses the next field as a code point.
    pub fn point(&mut self) -> u32
        ensures { result ≤ CODE_POINT_MAX }
    {
        let field = self.field();
        match read_point(field) {
            Some(point) => point,
            None => {
                self.fail(Fault::Line);
                0
            }
        }
    }

    /// Parses the next field as an interval.
    pub fn interval(&mut self) -> Interval {
        let field = self.field();
        self.read(read_interval(field), Interval::new(0, 0))
    }

    /// Parses the next field as numbers, separated by spaces.
    pub fn numbers(&mut self) -> Vec<u32> {
        let field = self.field();
        self.numbers_in(field)
    }

    /// Parses a text as numbers.
    pub fn numbers_in(&mut self, text: &str) -> Vec<u32> {
        let mut numbers = Vec::new(self.alloc);
        for part in text.split_whitespace() {
            let number = self.read(parse_decimal(part), 0);
            if numbers.push(number).is_err() {
                self.fail(Fault::Memory);
            }
        }
        numbers
    }

    /// Parses the next field as code points, separated by spaces.
    pub fn points(&mut self) -> Vec<u32>
        ensures { All (λ c. c ≤ CODE_POINT_MAX) result.items }
    {
        let numbers = self.numbers();
        self.in_range(numbers)
    }

    /// Returns the numbers if each is a code point; otherwise records a malformed field.
    pub fn in_range(&mut self, numbers: Vec<u32>) -> Vec<u32>
        ensures { All (λ c. c ≤ CODE_POINT_MAX) result.items }
    {
        if numbers.iter().all(|c| *c <= CODE_POINT_MAX) {
            return numbers;
        }
        self.fail(Fault::Line);
        Vec::new(self.alloc)
    }

    /// Parses the next field as bytes, separated by spaces.
    pub fn bytes(&mut self) -> Vec<u8> {
        let mut bytes = Vec::new(self.alloc);
        for part in self.field().split_whitespace() {
            let number = self.read(parse_decimal(part), 0);
            let byte = self.read(u8::try_from(number).ok(), 0);
            if bytes.push(byte).is_err() {
                self.fail(Fault::Memory);
            }
        }
        bytes
    }

    /// Parses the next field as intervals, separated by spaces.
    pub fn intervals(&mut self) -> Vec<Interval> {
        let mut intervals = Vec::new(self.alloc);
        for part in self.field().split_whitespace() {
            let interval = self.read(read_interval(part), Interval::new(0, 0));
            if intervals.push(interval).is_err() {
                self.fail(Fault::Memory);
            }
        }
        intervals
    }

    /// Parses the next field as a set, given by its intervals.
    pub fn set(&mut self) -> CodePointSet {
        let field = self.field();
        self.set_in(field)
    }

    /// Parses a text as a set, given by its intervals.
    pub fn set_in(&mut self, text: &str) -> CodePointSet {
        let mut set = CodePointSet::new(self.alloc);
        for part in text.split_whitespace() {
            let interval = self.read(read_interval(part), Interval::new(0, 0));
            let added = set.add(interval);
            self.done(added);
        }
        set
    }

    /// Parses the next field as flags, given by their letters.
    pub fn flags(&mut self) -> Flags {
        let field = self.field();
        self.read(parse_flags(field), Flags::default())
    }

    /// Parses the next field as a pattern, and returns its code points.
    pub fn pattern(&mut self) -> Vec<u32>
        ensures { All (λ c. c ≤ CODE_POINT_MAX) result.items }
    {
        match parse_pattern(self.alloc, self.field()) {
            Ok(Some(points)) => return points,
            Ok(None) => self.fail(Fault::Line),
            Err(_) => self.fail(Fault::Memory),
        }
        Vec::new(self.alloc)
    }

    /// Appends a text to the result.
    pub fn say(&mut self, text: &str) {
        let said = self.reported.push_str(text);
        self.done(said);
    }

    /// Appends a value by its `Display`, after a space unless it is the first.
    pub fn report<T: Display>(&mut self, value: &T) {
        self.separate();
        self.add(value);
    }

    /// Appends a value by its `Display`, without a space.
    pub fn add<T: Display>(&mut self, value: &T) {
        if write!(self.reported, "{value}").is_err() {
            self.fail(Fault::Memory);
        }
    }

    /// Appends a value by its `Debug`, after a space unless it is the first.
    pub fn show<T: Debug>(&mut self, value: &T) {
        self.separate();
        if write!(self.reported, "{value:?}").is_err() {
            self.fail(Fault::Memory);
        }
    }

    /// Appends each number after a space.
    pub fn report_each(&mut self, numbers: &[u32]) {
        for number in numbers {
            self.report(number);
        }
    }

    /// Appends each interval in the notation of test cases.
    pub fn report_intervals(&mut self, intervals: &[Interval]) {
        for interval in intervals {
            self.report(&interval.first());
            self.say("-");
            self.add(&interval.last());
        }
    }

    fn separate(&mut self) {
        if !self.reported.is_empty() {
            self.say(" ");
        }
    }
}
