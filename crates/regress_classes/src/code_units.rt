//! The code units of code points in a class.
ghost use Rattle.std.specs.Prelude.{◌≡◌, ◌≤◌, OnOk};
ghost use Rattle.regress_lexer.specs.Source.{IsCodePoint};
ghost use Rattle.regress_classes.specs.ClassProductions.{point, splits, first_unit, last_unit, units_before, units_after, atom_members};
ghost use Rattle.regress_classes.specs.ClassViews.{Adds};

use crate::gathered::IntervalCollector;
use crate::parameters::Parameters;
use regress_base::codepointset::Interval;
use std::alloc::AllocError;

/// Returns the first code unit of a code point.
pub(crate) fn first_unit(parameters: &Parameters, c: u32) -> u32
    requires { IsCodePoint c }
    ensures value { result ≡ first_unit (splits parameters.now) c }
    ensures in_range { IsCodePoint result }
{
    if parameters.splits_point(c) {
        0xD800 + (c - 0x10000) / 0x400
    } else {
        c
    }
}

/// Returns the last code unit of a code point.
pub(crate) fn last_unit(parameters: &Parameters, c: u32) -> u32
    requires { IsCodePoint c }
    ensures value { result ≡ last_unit (splits parameters.now) c }
    ensures in_range { IsCodePoint result }
{
    if parameters.splits_point(c) {
        0xDC00 + (c - 0x10000) % 0x400
    } else {
        c
    }
}

/// Adds the code units of a code point but the last one.
pub(crate) fn add_units_before(
    set: &mut IntervalCollector,
    parameters: &Parameters,
    c: u32,
) -> Result<(), AllocError>
    requires { IsCodePoint c }
    ensures { OnOk result (Adds (units_before (splits parameters.now) c) set.old set.new) }
{
    if parameters.splits_point(c) {
        let unit = first_unit(parameters, c);
        set.add(Interval::new(unit, unit))?;
    }
    Ok(())
}

/// Adds the code units of a code point but the first one.
pub(crate) fn add_units_after(
    set: &mut IntervalCollector,
    parameters: &Parameters,
    c: u32,
) -> Result<(), AllocError>
    requires { IsCodePoint c }
    ensures { OnOk result (Adds (units_after (splits parameters.now) c) set.old set.new) }
{
    if parameters.splits_point(c) {
        let unit = last_unit(parameters, c);
        set.add(Interval::new(unit, unit))?;
    }
    Ok(())
}

/// Adds the code units of a code point.
pub(crate) fn add_point(
    set: &mut IntervalCollector,
    parameters: &Parameters,
    c: u32,
) -> Result<(), AllocError>
    requires { IsCodePoint c }
    ensures { OnOk result (Adds (atom_members (splits parameters.now) (point c)) set.old set.new) }
{
    add_units_before(set, parameters, c)?;
    let unit = last_unit(parameters, c);
    set.add(Interval::new(unit, unit))
}
