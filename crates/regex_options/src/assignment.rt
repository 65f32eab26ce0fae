//! Names with values.
ghost use Rattle.std.specs.Prelude.{◌≡◌};
ghost use Rattle.regex_options.specs.Assignment.{name_and_value, parts_of};

/// Returns the name in front of `=`, and what is after it.
pub(crate) fn name_and_value(text: &str) -> (&str, Option<&str>)
    ensures { parts_of result ≡ name_and_value text.now }
{
    match text.split_once('=') {
        Some((name, value)) => (name, Some(value)),
        None => (text, None),
    }
}
