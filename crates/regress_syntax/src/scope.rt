//! The context in which a pattern is parsed.

use crate::groups::Groups;
use regress_base::types::Flags;
use regress_classes::Parameters;
use regress_lexer::Dialect;
use regress_unicode::Tables;

/// The context on which the productions of the grammar depend, besides the source.
#[derive(Clone, Copy)]
pub struct Scope<'a> {
    /// The flags in force.
    pub flags: Flags,
    /// The dialect.
    pub dialect: Dialect,
    /// The Unicode tables.
    pub tables: &'a Tables,
    /// The capture groups of the whole pattern.
    pub groups: &'a Groups,
}

impl Scope<'_> {
    ghost use Rattle.std.specs.Prelude.{◌≡◌};
    ghost use Rattle.regress_syntax.specs.Productions.{class_parameters, compares_upper_cases, class_flags, complements_first};
    ghost use Rattle.regress_syntax.specs.Views.{context_of};

    /// Returns the parameters of the productions of a class.
    pub fn class_parameters(&self) -> Parameters
        ensures { result ≡ class_parameters (context_of self.now) }
    {
        Parameters {
            dialect: self.dialect,
            icase: self.flags.icase,
            unicode: self.flags.unicode,
            named: self.groups.has_names(),
        }
    }

    /// Returns whether classes are compared by upper cases.
    pub fn compares_upper_cases(&self) -> bool
        ensures { result ≡ compares_upper_cases (context_of self.now) }
    {
        self.flags.icase && !self.flags.unicode && self.dialect.compiles_case()
    }

    /// Returns the flags of a class or class escape: those in force, with the flag i off where classes are compared by upper
    /// cases.
    pub fn class_flags(&self) -> Flags
        ensures { result ≡ class_flags (context_of self.now) }
    {
        if self.compares_upper_cases() {
            Flags {
                icase: false,
                ..self.flags
            }
        } else {
            self.flags
        }
    }

    /// Returns whether the complement of a property is taken before the closure under case folding.
    pub fn complements_first(&self) -> bool
        ensures { result ≡ complements_first (context_of self.now) }
    {
        self.flags.icase && !(self.flags.unicode_sets && self.dialect.compiles_case())
    }
}
