//! Inputs as they are shown.
ghost use Rattle.std.specs.Prelude.{◌≡◌};
ghost use Rattle.regex_lines.specs.Searched.{is_standard};

use regex_options::InputForm;

/// The name among files that denotes standard input.
pub(crate) const STANDARD_INPUT: &str = "-";

/// An input, whether its name is shown in front of each line, whether a zero byte is after it, how it is read, and whether
/// a line of an earlier input is selected.
#[derive(Clone, Copy)]
pub(crate) struct Place<'a> {
    /// The name of the file, or that of standard input.
    pub(crate) file: &'a str,
    pub(crate) in_front: bool,
    pub(crate) null: bool,
    pub(crate) form: InputForm,
    pub(crate) follows: bool,
}

impl<'a> Place<'a> {
    ghost use Rattle.std.specs.Prelude.{◌≡◌};
    ghost use Rattle.regex_lines.specs.Searched.{input_name};

    /// Returns what the input is called.
    pub(crate) fn name(self) -> &'a str
        ensures { result.now ≡ input_name self.entry.file.now }
    {
        if is_standard(self.file) {
            "(standard input)"
        } else {
            self.file
        }
    }
}

/// Returns whether a name denotes standard input.
pub(crate) fn is_standard(file: &str) -> bool
    ensures { result ≡ is_standard file.now }
{
    file == STANDARD_INPUT
}
