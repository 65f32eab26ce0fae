//! Patterns that are prepared for searches.
ghost use Rattle.std.specs.Arc.{arc_value};
ghost use Rattle.std.specs.Prelude.{IfSome};
ghost use Rattle.regress_tree.specs.Tree.{tree};
ghost use Rattle.regress_unicode.specs.TableOf.{table_of};
ghost use Rattle.regress_leaves.specs.Known.{AreFactsOf, AreFactsOf-prop};
ghost use Rattle.regress_match.specs.Compiled.{IfRequired-prop, IsCodeOf, IsCodeOf-prop};
ghost use Rattle.regress_prefilter.specs.Required.{IsRequired};

use regress_code::Code;
use regress_leaves::case_facts::CaseFacts;
use regress_leaves::known::Known;
use regress_tree::ir::Regex;
use regress_unicode::Tables;
use std::sync::Arc;

/// A pattern that is compiled into a program, for any number of searches. Where the program is linear and within the
/// limit on tables, searches take linear time, in texts for which their bound is within the limit on linear steps;
/// searches for one match also where lookarounds capture.
#[derive(Drop)]
pub struct Matcher {
    pub(crate) regex: Regex,
    pub(crate) tables: Arc<Tables>,
    /// What is precomputed about the case mappings.
    pub(crate) facts: CaseFacts,
    pub(crate) code: Code,
    /// Whether the program is within the limit on tables, with at most 64 characters for each instruction.
    pub(crate) within: bool,
    /// The number of steps that a search may take that takes linear time.
    pub(crate) linear_steps: Option<u64>,
    /// The number of bytes that the tables of a search may take, each backtrack stack, and a list of matches.
    pub(crate) memory: usize,
    /// A byte that each match contains, if one is known.
    pub(crate) required_byte: Option<u8>,
    ghost compiled: { IsCodeOf (record { flags = regex.flags; table = table_of (arc_value tables) }) (tree regex.node) (arc_value tables) code } by { IsCodeOf-prop (record { flags = regex.flags; table = table_of (arc_value tables) }) (tree regex.node) (arc_value tables) code },
    ghost required: { IfSome required_byte (λ b. IsRequired b (tree regex.node)) } by { IfRequired-prop required_byte (tree regex.node) },
    ghost holds: { AreFactsOf (table_of (arc_value tables)) facts } by { AreFactsOf-prop (table_of (arc_value tables)) facts },
}

impl Matcher {
    ghost use Rattle.std.specs.Prelude.{◌≡◌};

    /// Returns the case mappings, with what is precomputed about them.
    pub(crate) fn known(&self) -> Known<'_>
        ensures { result.tables.now ≡ arc_value self.now.tables }
    {
        Known::with_facts(&self.tables, self.facts)
    }
}
