//! The lines around the line that is searched.
ghost use Rattle.std.specs.Prelude.{◌≡◌, ◌<◌, ◌≤◌, ◌==◌, ◌∷◌, ◌++◌, [], OnOk, drop, if◌then◌else◌, length, map};
ghost use Rattle.regex_lines.specs.Searched.{last_of};

use std::alloc::{AllocError, Global};
use std::collections::VecDeque;
use std::mem;

/// How far the lines of an input are searched, and the lines before the next one that may still be shown.
#[derive(Drop)]
pub(crate) struct Window {
    /// The number of lines.
    pub(crate) number: u64,
    /// The number of selected lines, or of matches if these are counted.
    pub(crate) selected: u64,
    /// How many of the next lines are shown after the last selected one.
    pub(crate) due: u64,
    /// The last lines since then that are hidden, as many as are shown before a selected one.
    pub(crate) hidden: VecDeque<Vec<u8>>,
    /// Whether more lines are hidden.
    pub(crate) left_out: bool,
}

impl Window {
    ghost use Rattle.std.specs.Prelude.{◌≡◌, ◌<◌, ◌≤◌, [], OnOk, length};
    ghost use Rattle.regex_lines.specs.Window.{first_window, window_of, with_after, with_hidden, with_selected};

    /// Returns the window before the first line.
    pub(crate) fn new(alloc: Global) -> Window
        ensures { window_of result ≡ first_window }
    {
        Window {
            number: 0,
            selected: 0,
            due: 0,
            hidden: VecDeque::new(alloc),
            left_out: false,
        }
    }

    /// Counts a line that is selected, which makes `selected`, and after which this many lines are shown.
    pub(crate) fn select(&mut self, selected: u64, after: u64)
        requires { self.old.number < u64.MAX }
        ensures { window_of self.new ≡ with_selected selected after (window_of self.old) }
    {
        self.number += 1;
        self.selected = selected;
        self.due = after;
        self.hidden.clear();
        self.left_out = false;
    }

    /// Counts a line that is shown after a selected one.
    pub(crate) fn follow(&mut self)
        requires below { self.old.number < u64.MAX }
        requires due { 0 < self.old.due }
        ensures { window_of self.new ≡ with_after (window_of self.old) }
    {
        self.number += 1;
        self.due -= 1;
    }

    /// Counts a line that is hidden, and keeps the last ones, at most `before`. Another buffer is in `line` then.
    pub(crate) fn hide(
        &mut self,
        alloc: Global,
        before: u64,
        line: &mut Vec<u8>,
    ) -> Result<(), AllocError>
        requires below { self.old.number < u64.MAX }
        requires kept { length self.old.hidden.items ≤ before }
        ensures { OnOk result (window_of self.new ≡ with_hidden before line.old.items (window_of self.old)) }
    {
        self.number += 1;
        self.left_out = self.hidden.len() as u64 >= before;
        if before > 0 {
            keep(alloc, before, line, &mut self.hidden)?;
        }
        Ok(())
    }
}

/// Adds a line to the last ones, of which at most `before` are kept. Another buffer is in `line` then.
fn keep(
    alloc: Global,
    before: u64,
    line: &mut Vec<u8>,
    to: &mut VecDeque<Vec<u8>>,
) -> Result<(), AllocError>
    requires some { 0 < before }
    requires kept { length to.old.items ≤ before }
    ensures { OnOk result (map (λ line. line.items) to.new.items ≡ last_of before (map (λ line. line.items) to.old.items ++ line.old.items ∷ [])) }
{
    let room = take_room(alloc, before, to);
    to.push_back(mem::replace(line, room))?;
    Ok(())
}

/// Returns an empty or old buffer: that of the first line, which is removed, if there are `before` lines.
fn take_room(alloc: Global, before: u64, from: &mut VecDeque<Vec<u8>>) -> Vec<u8>
    requires { 0 < before }
    ensures { from.new.items ≡ (if length from.old.items == before then drop 1 from.old.items else from.old.items) }
{
    if from.len() as u64 == before {
        if let Some(first) = from.pop_front() {
            return first;
        }
    }
    Vec::new(alloc)
}
