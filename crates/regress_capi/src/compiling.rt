//! The results of compiling a pattern.
ghost use Rattle.std.specs.Prelude.{◌≡◌, chars, IfErr, IfOk};
ghost use Rattle.regress.specs.Failures.{IsDue};
ghost use Rattle.regress_capi.specs.CompileResults.{CompileResult, IsCompiledWithin, options_of};
ghost use Rattle.regress_capi.specs.Request.{dialect_of, setting_in, IsCompileRequest};

use super::handle::Handle;
use super::limits::Limits;
use super::reply::Reply;
use super::request::{are_compile_bits, dialect_of, make_tables, parse_flags};
use super::results::{BAD_INPUT, MEMORY, OK, SYNTAX};
use regress::{Error, Options, Regex};
use std::alloc::Global;
use std::sync::Arc;

const TOO_LARGE: u32 = 6;

/// Compiles a pattern in the dialect and within the limits that a caller passes, and writes its handle. Returns the kind
/// and the position of its syntax error, if it has one.
///
/// # Errors
/// The status is 2 if an allocation failed, 4 if the arguments are invalid, 5 if the pattern is rejected, and 6 if it may
/// have more nodes or instructions than the limits allow.
pub fn write_handle(
    alloc: Global,
    pattern: &[u8],
    bits: u32,
    limits: &Limits,
    handle: &mut Handle,
) -> Reply
    ensures status { let dialect = dialect_of bits in CompileResult (IsCompileRequest pattern.now bits) (setting_in dialect bits)
        pattern.now (options_of dialect limits.now) handle.old.value result.status result.kind result.position handle.new.value }
{
    write_compiled(
        alloc,
        pattern,
        bits,
        limits.options(dialect_of(bits)),
        handle,
    )
}

/// Compiles a pattern, and writes its handle. Returns the kind and the position of its syntax error, if it has one.
fn write_compiled(
    alloc: Global,
    pattern: &[u8],
    bits: u32,
    options: Options,
    handle: &mut Handle,
) -> Reply
    ensures status { CompileResult (IsCompileRequest pattern.now bits) (setting_in options.dialect bits) pattern.now options
        handle.old.value result.status result.kind result.position handle.new.value }
{
    if !are_compile_bits(bits) {
        return Reply::bare(BAD_INPUT);
    }
    match str::from_utf8(pattern) {
        Ok(pattern) => match compile(alloc, pattern, bits, options) {
            Ok(regex) => {
                *handle = Handle::of(regex);
                Reply::bare(OK)
            }
            Err(Error::Syntax { kind, position, .. }) => Reply::of_error(SYNTAX, &kind, position),
            Err(Error::TooLarge) => Reply::bare(TOO_LARGE),
            Err(Error::Flags(_)) => unreachable!(),
            Err(Error::Memory) => Reply::bare(MEMORY),
        },
        Err(_) => Reply::bare(BAD_INPUT),
    }
}

fn compile(alloc: Global, pattern: &str, bits: u32, options: Options) -> Result<Box<Regex>, Error>
    ensures compiled { IfOk result (λ regex. IsCompiledWithin (setting_in options.dialect bits) pattern.now options regex.value) }
    ensures failed { IfErr result (IsDue (setting_in options.dialect bits) (chars pattern.now) options) }
{
    let tables = Arc::new(alloc, make_tables(alloc, bits)?)?;
    let regex = Regex::with_options(alloc, pattern, parse_flags(bits), options, &tables)?;
    Ok(Box::new(alloc, regex)?)
}
