//! The pattern layer of a regular expression engine for ECMAScript syntax: from the text of a pattern to its optimized
//! tree. The modules have the names of the Rust crate `regress`.
#![tactic(auto)]

mod pipeline;

pub use regress_base::{bytesearch, charclasses, codepointset, types, util};
pub use regress_unicode as unicode;

/// The tree of a pattern (IR), and walks over it.
pub mod ir {
    pub use regress_tree::ir::{
        AnchorType, Node, NodeList, Quantifier, Regex, Walk, walk, walk_mut,
    };
}

/// Lowering of literals to bytes and small sets.
pub mod literal {
    pub use regress_literal::literal::{Piece, lower_code_point_sequence};
}

/// Parsing: from the text of a pattern to its tree.
pub mod parse {
    pub use regress_parse::{
        Dialect, Error, FaultKind, ParseFault, PlacedFault, node_bound, try_parse, try_parse_in,
        try_parse_with_position,
    };
    pub use regress_spans::{Span, SpannedRegex, try_parse_with_spans, try_parse_with_spans_in};
}

/// Optimization and rewriting of trees.
pub mod optimizer {
    pub use crate::pipeline::{parse_and_optimize, parse_and_optimize_in};
    pub use regress_normalize::optimize;
    pub use regress_passes::{Rewrite, run_pass};
    pub use regress_rewrite::PassAction;
}
