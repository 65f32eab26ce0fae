//! The theorem that no text contains markup.
ghost use Rattle.std.specs.Prelude.{◌≡◌, ℕ, List, true};
ghost use Rattle.std.specs.List.{list_all};
ghost use Rattle.regress_svg.specs.Escape.{escaped_text, is_text_byte};

/// States the theorem that no escaped text contains a `<`, a `>` or a `"`, so a text neither ends early nor begins an
/// element. The function does nothing; a function whose proof needs the theorem calls it.
pub fn texts_hold_no_markup()
    ensures { (text : List ℕ) → list_all is_text_byte (escaped_text text) ≡ true }
{}
