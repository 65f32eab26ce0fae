//! Calls on a caller's own tables, and on packed ranges.
ghost use Rattle.std.specs.Prelude.{IfSome};
ghost use Rattle.regress_unicode.specs.ValidEntries.{IsModulo};

use regress_base::codepointset::CodePointSet;
use regress_unicode::{CodePointRange, FoldRange, Tables, TablesError};
use test_notation::{Call, Fault, parse_decimal};

/// The fields of a test case that state tables: entries for folding and for upper case, sets for the first and the further
/// characters of names, separated by `;`, the sets of each list, and strings.
#[derive(Clone, Copy)]
struct Stated<'a> {
    folds: &'a str,
    uppers: &'a str,
    names: &'a str,
    sets: &'a str,
    strings: &'a str,
}

/// Makes the call with this name, and returns whether there is one.
pub(crate) fn response(call: &mut Call, name: &str) -> bool {
    match name {
        "tables" => make(call),
        "range" => range(call),
        _ => return false,
    }
    true
}

/// Makes tables, and reports whether they are accepted.
fn make(call: &mut Call) {
    let stated = Stated {
        folds: call.field(),
        uppers: call.field(),
        names: call.field(),
        sets: call.field(),
        strings: call.field(),
    };
    match tables_in(call, stated) {
        Ok(_) => call.say("accepted"),
        Err(TablesError::Memory(_)) => call.fail(Fault::Memory),
        Err(rejection) => call.report(&rejection),
    }
}

/// Returns tables with these entries for folding and for upper case, and with these sets in each list.
pub(crate) fn table_of(call: &mut Call, mappings: &str, sets: &str) -> Option<Tables> {
    let stated = Stated {
        folds: mappings,
        uppers: mappings,
        names: "",
        sets,
        strings: "",
    };
    match tables_in(call, stated) {
        Ok(tables) => return Some(tables),
        Err(TablesError::Memory(_)) => call.fail(Fault::Memory),
        Err(_) => call.fail(Fault::Line),
    }
    None
}

fn tables_in(call: &mut Call, stated: Stated) -> Result<Tables, TablesError> {
    let (starts, further) = stated.names.split_once(';').unwrap_or((stated.names, ""));
    Tables::new(
        call.alloc(),
        mappings_in(call, stated.folds),
        mappings_in(call, stated.uppers),
        call.set_in(starts),
        call.set_in(further),
        sets_in(call, stated.sets),
        sets_in(call, stated.sets),
        sets_in(call, stated.sets),
        sets_in(call, stated.sets),
        lists_in(call, stated.strings),
    )
}

/// Parses entries, separated by spaces.
fn mappings_in(call: &mut Call, text: &str) -> Vec<FoldRange> {
    let mut mappings = Vec::new(call.alloc());
    for part in text.split_whitespace() {
        match read_mapping(part) {
            Some(mapping) => {
                if mappings.push(mapping).is_err() {
                    call.fail(Fault::Memory);
                }
            }
            None => call.fail(Fault::Line),
        }
    }
    mappings
}

/// Parses an entry: its start, its length, its offset, and the distance of the code points that are mapped, as
/// `0x41,26,32,1`.
fn read_mapping(text: &str) -> Option<FoldRange> {
    let (start, rest) = text.split_once(',')?;
    let (length, rest) = rest.split_once(',')?;
    let (delta, modulo) = rest.split_once(',')?;
    mapping_of(
        parse_decimal(start)?,
        parse_decimal(length)?,
        delta.parse::<i32>().ok()?,
        read_modulo(modulo)?,
    )
}

fn mapping_of(start: u32, length: u32, delta: i32, modulo: u8) -> Option<FoldRange>
    requires { IsModulo modulo }
{
    if length == 0 || length > 4096 || start > 0xFFFFF || start + length >= 0x100000 {
        return None;
    }
    if delta < -0x7FFFFFF || delta > 0x7FFFFFF {
        return None;
    }
    Some(FoldRange::from(start, length, delta, modulo))
}

fn read_modulo(text: &str) -> Option<u8>
    ensures { IfSome result IsModulo }
{
    match text {
        "1" => Some(1),
        "2" => Some(2),
        "4" => Some(4),
        "8" => Some(8),
        "16" => Some(16),
        _ => None,
    }
}

/// Parses named sets, as `Nd=0x30-0x39;Zl=0x2028`.
fn sets_in(call: &mut Call, text: &str) -> Vec<(String, CodePointSet)> {
    let mut sets = Vec::new(call.alloc());
    for part in text.split_terminator(';') {
        let (name, written) = named_part(call, part);
        let name = own(call, name);
        let set = call.set_in(written);
        if sets.push((name, set)).is_err() {
            call.fail(Fault::Memory);
        }
    }
    sets
}

/// Splits `NAME=VALUE`.
fn named_part<'a>(call: &mut Call, part: &'a str) -> (&'a str, &'a str) {
    call.read(part.split_once('='), (part, ""))
}

fn own(call: &mut Call, name: &str) -> String {
    let alloc = call.alloc();
    call.made(String::from_str(alloc, name), String::new(alloc))
}

/// Parses named lists of strings, as `Keys=0x23 0x20E3,0x2A 0x20E3;None=`, with `,` between strings.
fn lists_in(call: &mut Call, text: &str) -> Vec<(String, Vec<Vec<u32>>)> {
    let mut lists = Vec::new(call.alloc());
    for part in text.split_terminator(';') {
        let (name, written) = named_part(call, part);
        let name = own(call, name);
        let strings = strings_in(call, written);
        if lists.push((name, strings)).is_err() {
            call.fail(Fault::Memory);
        }
    }
    lists
}

fn strings_in(call: &mut Call, text: &str) -> Vec<Vec<u32>> {
    let mut strings = Vec::new(call.alloc());
    for string in text.split(',') {
        let numbers = call.numbers_in(string);
        if strings.push(numbers).is_err() {
            call.fail(Fault::Memory);
        }
    }
    strings
}

/// Reports the ends of a packed range with this start and length.
fn range(call: &mut Call) {
    let start = call.number();
    let length = call.number();
    if length == 0 || length > 4096 || start > 0xFFFFF || start + length >= 0x100000 {
        call.fail(Fault::Line);
        return;
    }
    let range = CodePointRange::from(start, length);
    call.report(&range.first());
    call.report(&range.last());
}
