//! Handles to compiled regular expressions.
ghost use Rattle.std.specs.Coded.{coded_option};
ghost use Rattle.std.specs.Prelude.{◌≡◌, Option, None, Some};
ghost use Rattle.regress.specs.contracts.pattern.Regex.{the_row};
ghost use Rattle.regress.specs.declared.pattern.Regex.{Regex};
ghost use Rattle.regress_capi.specs.Handles.{owned};

use super::loose::Loose;
use regress::Regex;
use std::alloc::Global;
use std::marker::Model;
use std::mem;
use std::ptr::null_mut;

/// The pointer to a regular expression, or nothing, in a variable of the caller. The caller may use it on any thread.
///
/// Dropping it does not free the regular expression.
#[repr(C)]
#[derive(Drop)]
pub struct Handle {
    pub(crate) at: *mut u8,
    /// What the pointer owns.
    pub ghost value: { Option Regex } by { coded_option the_row.coded },
}

impl Model for Handle {
    ghost also_owns = { λ handle. owned the_row handle.at handle.value };
}

impl Handle {
    /// Returns the handle to a regular expression.
    pub fn of(regex: Box<Regex>) -> Handle
        ensures { result.value ≡ Some regex.value }
    {
        regex_is_send();
        regex_is_sync();
        Handle::from_loose(Loose::of(regex))
    }

    /// Returns the regular expression, and leaves nothing.
    ///
    /// # Preconditions
    /// The handle is one of a compiled pattern.
    pub fn take(&mut self, alloc: Global) -> Box<Regex>
        requires { self.old.value ≡ None → ⊥ }
        ensures taken { Some result.value ≡ self.old.value }
        ensures left { self.new.value ≡ None }
    {
        let handle = mem::replace(self, Handle::empty());
        handle.into_loose(alloc).into_box()
    }

    fn empty() -> Handle
        ensures { result.value ≡ None }
    {
        Handle { at: null_mut() }
    }

    fn from_loose(loose: Loose<Regex, Global>) -> Handle
        ensures { result.value ≡ Some loose.value }
    {
        let Loose { at, alloc: _ } = loose;
        Handle { at: at as *mut u8 }
    }

    fn into_loose(self, alloc: Global) -> Loose<Regex, Global>
        requires { self.value ≡ None → ⊥ }
        ensures { Some result.value ≡ self.value }
    {
        let Handle { at } = self;
        Loose {
            at: at as *mut Regex,
            alloc,
        }
    }
}

/// States that any thread may use a regular expression, and so its handle. The function does nothing.
fn regex_is_send() {
    is_send::<Regex>()
}

/// States by its bound that any thread may use a value of the type. The function does nothing.
pub(crate) fn is_send<T: Send>() {}

/// States that any number of threads may read a regular expression at the same time. The function does nothing.
fn regex_is_sync() {
    is_sync::<Regex>()
}

/// States by its bound that any number of threads may read a value of the type. The function does nothing.
fn is_sync<T: Sync>() {}
