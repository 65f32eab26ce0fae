//! Handles to texts in which matches were replaced.
ghost use Rattle.std.specs.Coded.{coded_option};
ghost use Rattle.std.specs.Prelude.{◌≡◌, Option, None, Some};
ghost use Rattle.regress_capi.specs.contracts.replaced_text.ReplacedText.{the_row};
ghost use Rattle.regress_capi.specs.declared.replaced_text.ReplacedText.{ReplacedText};
ghost use Rattle.regress_capi.specs.Handles.{owned};

use super::handle::is_send;
use super::loose::Loose;
use super::replaced_text::ReplacedText;
use std::alloc::Global;
use std::marker::Model;
use std::mem;
use std::ptr::null_mut;

/// The pointer to a text in which matches were replaced, or nothing, in a variable of the caller. The caller may use it on
/// any thread.
///
/// Dropping it does not free the text.
#[repr(C)]
#[derive(Drop)]
pub struct ReplacedHandle {
    pub(crate) at: *mut u8,
    /// What the pointer owns.
    pub ghost value: { Option ReplacedText } by { coded_option the_row.coded },
}

impl Model for ReplacedHandle {
    ghost also_owns = { λ handle. owned the_row handle.at handle.value };
}

impl ReplacedHandle {
    /// Returns the handle to a text.
    pub fn of(text: Box<ReplacedText>) -> ReplacedHandle
        ensures { result.value ≡ Some text.value }
    {
        text_is_send();
        ReplacedHandle::from_loose(Loose::of(text))
    }

    /// Returns the text, and leaves nothing.
    ///
    /// # Preconditions
    /// The handle is one of a text.
    pub fn take(&mut self, alloc: Global) -> Box<ReplacedText>
        requires { self.old.value ≡ None → ⊥ }
        ensures taken { Some result.value ≡ self.old.value }
        ensures left { self.new.value ≡ None }
    {
        let handle = mem::replace(self, ReplacedHandle::empty());
        handle.into_loose(alloc).into_box()
    }

    fn empty() -> ReplacedHandle
        ensures { result.value ≡ None }
    {
        ReplacedHandle { at: null_mut() }
    }

    fn from_loose(loose: Loose<ReplacedText, Global>) -> ReplacedHandle
        ensures { result.value ≡ Some loose.value }
    {
        let Loose { at, alloc: _ } = loose;
        ReplacedHandle { at: at as *mut u8 }
    }

    fn into_loose(self, alloc: Global) -> Loose<ReplacedText, Global>
        requires { self.value ≡ None → ⊥ }
        ensures { Some result.value ≡ self.value }
    {
        let ReplacedHandle { at } = self;
        Loose {
            at: at as *mut ReplacedText,
            alloc,
        }
    }
}

/// States that any thread may use a text, and so its handle. The function does nothing.
fn text_is_send() {
    is_send::<ReplacedText>()
}
