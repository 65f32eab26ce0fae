//! Lists of numbers that take few bytes.
ghost use Rattle.std.specs.Prelude.{◌≡◌, ◌*◌, ◌<◌, ◌^◌, ◌++◌, [], ◌∷◌, IfErr, IfOk, IfSome, length, min, slice_get};
ghost use Rattle.regress_tables.specs.Numbers.{numbers_of, bytes_each};

use std::alloc::{AllocError, Global};

/// A list of numbers. Each takes one byte while all are below 256, two while all are below 65,536, and else four.
#[derive(Drop)]
pub(crate) enum Numbers {
    /// Numbers below 256.
    U8(Vec<u8>),
    /// Numbers below 65,536.
    U16(Vec<u16>),
    /// Other numbers.
    U32(Vec<u32>),
}

impl Numbers {
    /// Returns an empty list with memory for as many numbers, while they take one byte.
    ///
    /// # Errors
    /// Returns [`AllocError`] if an allocation fails.
    pub(crate) fn with_capacity(alloc: Global, capacity: usize) -> Result<Numbers, AllocError>
        ensures empty { IfOk result (λ numbers. numbers_of numbers ≡ []) }
        ensures width { IfOk result (λ numbers. bytes_each numbers ≡ 1) }
    {
        Ok(Numbers::U8(Vec::with_capacity(alloc, capacity)?))
    }

    /// Returns how many numbers there are.
    #[inline(always)]
    pub(crate) fn len(&self) -> usize
        ensures { result ≡ length (numbers_of self.now) }
    {
        match self {
            Numbers::U8(list) => list.len(),
            Numbers::U16(list) => list.len(),
            Numbers::U32(list) => list.len(),
        }
    }

    /// Returns the number of bytes that each number takes.
    #[inline(always)]
    pub(crate) fn width(&self) -> usize
        ensures { result ≡ bytes_each self.now }
    {
        match self {
            Numbers::U8(_) => 1,
            Numbers::U16(_) => 2,
            Numbers::U32(_) => 4,
        }
    }

    /// Returns the number at an index, or `None` if there is none.
    #[inline(always)]
    pub(crate) fn get(&self, index: usize) -> Option<usize>
        ensures value { result ≡ slice_get (numbers_of self.now) index }
        ensures small { IfSome result (λ number. number < 2 ^ 32) }
    {
        match self {
            Numbers::U8(list) => Some(*list.get(index)? as usize),
            Numbers::U16(list) => Some(*list.get(index)? as usize),
            Numbers::U32(list) => Some(*list.get(index)? as usize),
        }
    }

    /// Adds a number. The numbers take more bytes then, if they have to.
    ///
    /// # Errors
    /// Returns [`AllocError`] if an allocation fails. Then the numbers are as before.
    pub(crate) fn push(&mut self, number: u32) -> Result<(), AllocError>
        ensures added { IfOk result (λ _. numbers_of self.new ≡ numbers_of self.old ++ number ∷ []) }
        ensures kept { IfErr result (λ _. numbers_of self.new ≡ numbers_of self.old) }
    {
        if u64::from(number) >= self.bound() {
            self.widen()?;
        }
        if u64::from(number) >= self.bound() {
            self.widen()?;
        }
        self.push_within(number)
    }

    /// Returns the bound below which the numbers are.
    fn bound(&self) -> u64
        ensures { result ≡ 256 ^ bytes_each self.now }
    {
        match self {
            Numbers::U8(_) => 1 << 8,
            Numbers::U16(_) => 1 << 16,
            Numbers::U32(_) => 1 << 32,
        }
    }

    /// Adds a number below the bound.
    ///
    /// # Errors
    /// Returns [`AllocError`] if an allocation fails. Then the numbers are as before.
    fn push_within(&mut self, number: u32) -> Result<(), AllocError>
        requires { number < 256 ^ bytes_each self.old }
        ensures added { IfOk result (λ _. numbers_of self.new ≡ numbers_of self.old ++ number ∷ []) }
        ensures kept { IfErr result (λ _. numbers_of self.new ≡ numbers_of self.old) }
    {
        match self {
            Numbers::U8(list) => list.push(number as u8)?,
            Numbers::U16(list) => list.push(number as u16)?,
            Numbers::U32(list) => list.push(number)?,
        }
        Ok(())
    }

    /// Makes the numbers take twice as many bytes, up to four.
    ///
    /// # Errors
    /// Returns [`AllocError`] if an allocation fails. Then the numbers are as before.
    fn widen(&mut self) -> Result<(), AllocError>
        ensures width { IfOk result (λ _. bytes_each self.new ≡ min 4 (2 * bytes_each self.old)) }
        ensures kept { numbers_of self.new ≡ numbers_of self.old }
    {
        match self {
            Numbers::U8(list) => *self = Numbers::U16(widened_bytes(list)?),
            Numbers::U16(list) => *self = Numbers::U32(widened_pairs(list)?),
            Numbers::U32(_) => {}
        }
        Ok(())
    }
}

/// Returns numbers of one byte as numbers of two bytes.
///
/// # Errors
/// Returns [`AllocError`] if an allocation fails.
fn widened_bytes(list: &Vec<u8>) -> Result<Vec<u16>, AllocError>
    ensures { IfOk result (λ wide. wide.items ≡ list.now.items) }
{
    let mut wide = Vec::with_capacity(*list.allocator(), list.capacity())?;
    for number in list {
        wide.push(u16::from(*number))?;
    }
    Ok(wide)
}

/// Returns numbers of two bytes as numbers of four bytes.
///
/// # Errors
/// Returns [`AllocError`] if an allocation fails.
fn widened_pairs(list: &Vec<u16>) -> Result<Vec<u32>, AllocError>
    ensures { IfOk result (λ wide. wide.items ≡ list.now.items) }
{
    let mut wide = Vec::with_capacity(*list.allocator(), list.capacity())?;
    for number in list {
        wide.push(u32::from(*number))?;
    }
    Ok(wide)
}
