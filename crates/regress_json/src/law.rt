//! The JSON of a pattern determines the pattern.
ghost use Rattle.std.specs.Prelude.{◌≡◌};
ghost use Rattle.regress_base.specs.declared.types.Flags.{Flags};
ghost use Rattle.regress_tree.specs.Tree.{Tree};
ghost use Rattle.regress_json.specs.Json.{json_of};

/// States that the JSON of a pattern determines its flags and its tree, so that no two patterns have the same JSON.
///
/// The function does nothing at run time; call it where a proof needs the theorem.
pub fn json_determines_the_pattern()
    ensures { (f g : Flags) (t u : Tree) → json_of f t ≡ json_of g u → (f ≡ g) × (t ≡ u) }
{}
