//! Compiling a pattern for searches.
ghost use Rattle.std.specs.Prelude.{◌≡◌, ◌<◌, ◌≤◌, ◌&&◌, ℕ, Err, IfOk, List, is_some, length, min, nat_le, not, option_map, true};
ghost use Rattle.std.specs.Arc.{arc_value};
ghost use Rattle.regress_tree.specs.Tree.{tree};
ghost use Rattle.regress_tree.specs.WellFormed.{IsWellFormed, captures};
ghost use Rattle.regress_unicode.specs.TableOf.{table_of};
ghost use Rattle.regress_unicode.specs.declared.Tables.{Tables};
ghost use Rattle.regress_program.specs.Compiled.{IsPattern, total};
ghost use Rattle.regress_program.specs.Linear.{has_back_reference, is_linear, is_linear_tree};
ghost use Rattle.regress_program.specs.Size.{IsSize, IsTooLong, counts_within, is_bounded};
ghost use Rattle.regress_program.specs.Tidy.{has_no_back_reference};
ghost use Rattle.regress_program.specs.declared.fault.CompileFault.TheVariants.{TooLong};
ghost use Rattle.regress_tables.specs.Search.{walk_weight};
ghost use Rattle.regress_code.specs.Code.{code_counts, code_groups, code_routines, code_stored, code_tidy};
ghost use Rattle.regress_match.specs.Compiled.{IsCodeOf};
ghost use Rattle.regress_match.specs.Costs.{HasCosts};
ghost use Rattle.regress_match.specs.Matcher.{IsFactorOf, IsFindFactorOf, IsNonlinearOf, factor, factor_of, find_factor, find_factor_of, linear_steps_of, nonlinear_of};
ghost use Rattle.regress_match.specs.Memory.{instructions_of, memory_of, stored_instructions_of};
ghost use Rattle.regress_match.specs.Pattern.{matcher_setting, matcher_tree};

use crate::limits::Limits;
use crate::matcher::Matcher;
use regress_code::Code;
use regress_leaves::case_facts::CaseFacts;
use regress_prefilter::required_byte;
use regress_program::CompileFault;
use regress_program::blocks::blocks;
use regress_tree::ir::Regex;
use regress_unicode::Tables;
use std::alloc::Global;
use std::sync::Arc;

impl Matcher {
    /// Compiles a pattern into a program of which at most `limits.instructions` instructions are stored: of the iterations of
    /// a loop all, or if that exceeds the limit, two of each number of them.
    ///
    /// Searches for all matches take linear time exactly if the program, with at most 64 characters for each instruction, has
    /// at most `limits.linear_instructions` instructions, and no more than it may have; and the tree has no back reference,
    /// and no capture group in a lookaround that is not negated; of a well-formed tree searches for one match also where
    /// lookarounds capture. What is in a loop without iterations does not count.
    ///
    /// # Errors
    /// - [`CompileFault::TooLong`] if more instructions would be stored, or there would be more than `usize::MAX` with all
    ///   iterations.
    /// - [`CompileFault::Memory`] if an allocation fails.
    ///
    /// # Complexity
    /// As that of [`Code::compile`].
    pub fn new(
        alloc: Global,
        regex: Regex,
        tables: &Arc<Tables>,
        limits: Limits,
    ) -> Result<Matcher, CompileFault>
        ensures setting { IfOk result (λ m. matcher_setting m ≡ record { flags = regex.flags; table = table_of (arc_value tables.now) }) }
        ensures tree { IfOk result (λ m. matcher_tree m ≡ tree regex.node) }
        ensures linear { IfOk result (λ m. IsFactorOf (min limits.linear_instructions limits.instructions) (tree regex.node) (factor_of m)) }
        ensures find_linear { IfOk result (λ m. IsFindFactorOf (min limits.linear_instructions limits.instructions) (tree regex.node) (find_factor_of m)) }
        ensures nonlinear { IfOk result (λ m. IsNonlinearOf (min limits.linear_instructions limits.instructions) (tree regex.node) (nonlinear_of m)) }
        ensures costs { IfOk result (λ m. (text : List ℕ) → HasCosts m text) }
        ensures linear_steps { IfOk result (λ m. linear_steps_of m ≡ limits.linear_steps) }
        ensures memory { IfOk result (λ m. memory_of m ≡ limits.memory) }
        ensures instructions { IfOk result (λ m. IsSize limits.instructions (tree regex.node) (instructions_of m)) }
        ensures within { IfOk result (λ m. stored_instructions_of m ≤ limits.instructions) }
        ensures too_long { result ≡ Err TooLong → length (captures (tree regex.node)) < usize.MAX → IsTooLong limits.instructions (tree regex.node) }
    {
        let code = compiled(alloc, &regex, limits.instructions)?;
        let within = is_within(&code, limits.linear_instructions);
        let required_byte = required_byte(&regex.node);
        let facts = CaseFacts::find(tables, regex.flags);
        let tables = Arc::try_clone(tables)?;
        Ok(Matcher {
            regex,
            tables,
            facts,
            code,
            within,
            linear_steps: limits.linear_steps,
            memory: limits.memory,
            required_byte,
        })
    }

    /// Returns the tree of the pattern, and its flags.
    pub fn regex(&self) -> &Regex
        ensures { result.now ≡ self.now.regex }
    {
        &self.regex
    }

    /// Returns whether a search for all matches takes linear time: whether the program is linear, and within the limit on
    /// tables.
    pub fn is_linear(&self) -> bool
        ensures { result ≡ is_some (factor_of self.now) }
    {
        self.nonlinear().is_none()
    }

    /// Returns whether a search for one match takes linear time: also where lookarounds contain capture groups. It does
    /// if [`Matcher::is_linear`].
    pub fn is_find_linear(&self) -> bool
        ensures { result ≡ is_some (find_factor_of self.now) }
    {
        self.within && self.code.table_groups().is_some()
    }

    /// Returns an upper bound for the steps of a search for all matches for each byte of a text, counting its end as one
    /// more; at most `u64::MAX`. The result is `None` if such searches are not known to take linear time.
    pub fn steps_per_byte(&self) -> Option<u64>
        ensures { result ≡ option_map (λ n. min n u64.MAX) (factor_of self.now) }
    {
        if self.is_linear() {
            Some(factor(&self.code))
        } else {
            None
        }
    }

    /// Returns the same for a search for one match.
    pub fn find_steps_per_byte(&self) -> Option<u64>
        ensures { result ≡ option_map (λ n. min n u64.MAX) (find_factor_of self.now) }
    {
        if !self.within {
            return None;
        }
        match self.code.table_groups() {
            Some(inner) => Some(find_factor(&self.code, inner)),
            None => None,
        }
    }
}

/// Returns the program of a pattern, of which at most `limit` instructions are stored.
fn compiled(alloc: Global, regex: &Regex, limit: usize) -> Result<Code, CompileFault>
    ensures means { IfOk result (λ code. (tables : Tables) → IsCodeOf (record { flags = regex.now.flags; table = table_of tables }) (tree regex.now.node) tables code) }
    ensures pattern { IfOk result (λ code. IsPattern (code_routines code) (tree regex.now.node)) }
    ensures linear { IfOk result (λ code. is_linear (code_routines code) ≡ is_linear_tree (tree regex.now.node)) }
    ensures plain { IfOk result (λ code. has_no_back_reference (code_routines code) ≡ not (has_back_reference (tree regex.now.node))) }
    ensures tidy { IfOk result (λ code. IsWellFormed (tree regex.now.node) → code_tidy code ≡ true) }
    ensures counts { IfOk result (λ code. code_counts code ≡ counts_within limit (tree regex.now.node)) }
    ensures size { IfOk result (λ code. IsSize limit (tree regex.now.node) (total (code_routines code))) }
    ensures groups { IfOk result (λ code. code_groups code ≡ length (captures (tree regex.now.node))) }
    ensures most { IfOk result (λ code. total (code_routines code) ≤ usize.MAX) }
    ensures within { IfOk result (λ code. code_stored code ≤ limit) }
    ensures too_long { result ≡ Err TooLong → length (captures (tree regex.now.node)) < usize.MAX → IsTooLong limit (tree regex.now.node) }
{
    let code = Code::compile(alloc, regex, limit)?;
    // the number of groups is exact only below this
    if code.groups() == usize::MAX {
        return Err(CompileFault::TooLong);
    }
    Ok(code)
}

/// Returns whether a program has bounded counts, and at most `limit` instructions.
fn is_within(code: &Code, limit: usize) -> bool
    ensures { result ≡ (is_bounded (code_counts code.now) && nat_le (min (total (code_routines code.now)) usize.MAX) limit) }
{
    code.has_bounded_counts() && code.instructions() <= limit
}

/// Returns an upper bound for the steps for each byte, at most `u64::MAX`: those of backtracking, of making the tables, and
/// of searching in them.
fn factor(code: &Code) -> u64
    ensures { result ≡ min (factor (total (code_routines code.now)) (code_groups code.now)) u64.MAX }
{
    let bits = (code.instructions() as u64).saturating_mul(2);
    let walks = weight_of(code).saturating_mul(bits.saturating_add(1));
    bits.saturating_add(64)
        .saturating_add(bits)
        .saturating_add(walks.saturating_mul(2))
}

/// Returns the steps that an instruction of a walk counts.
fn weight_of(code: &Code) -> u64
    ensures { result ≡ min (walk_weight (code_groups code.now)) u64.MAX }
{
    blocks(code.groups()).saturating_add(1)
}

/// Returns the same for a search for one match, where lookarounds may set `inner` groups.
fn find_factor(code: &Code, inner: usize) -> u64
    ensures { result ≡ min (find_factor (total (code_routines code.now)) (code_groups code.now) inner) u64.MAX }
{
    let capturing = (code.instructions() as u64)
        .saturating_mul(2)
        .saturating_mul(inner as u64)
        .saturating_mul(weight_of(code));
    factor(code).saturating_add(capturing)
}
