//! Handles to searchers.
ghost use Rattle.std.specs.Coded.{coded_option};
ghost use Rattle.std.specs.Prelude.{◌≡◌, Option, None, Some};
ghost use Rattle.regress.specs.contracts.searcher.Searcher.{the_row};
ghost use Rattle.regress.specs.declared.searcher.Searcher.{Searcher};
ghost use Rattle.regress_capi.specs.Handles.{owned};

use super::handle::is_send;
use super::loose::Loose;
use regress::Searcher;
use std::alloc::Global;
use std::marker::Model;
use std::mem;
use std::ptr::null_mut;

/// The pointer to a searcher, or nothing, in a variable of the caller. The caller may use it on any thread.
///
/// Dropping it does not free the searcher.
#[repr(C)]
#[derive(Drop)]
pub struct SearcherHandle {
    pub(crate) at: *mut u8,
    /// What the pointer owns.
    pub ghost value: { Option Searcher } by { coded_option the_row.coded },
}

impl Model for SearcherHandle {
    ghost also_owns = { λ handle. owned the_row handle.at handle.value };
}

impl SearcherHandle {
    /// Returns the handle to a searcher.
    pub fn of(searcher: Box<Searcher>) -> SearcherHandle
        ensures { result.value ≡ Some searcher.value }
    {
        searcher_is_send();
        SearcherHandle::from_loose(Loose::of(searcher))
    }

    /// Returns the searcher, and leaves nothing.
    ///
    /// # Preconditions
    /// The handle is one of a searcher.
    pub fn take(&mut self, alloc: Global) -> Box<Searcher>
        requires { self.old.value ≡ None → ⊥ }
        ensures taken { Some result.value ≡ self.old.value }
        ensures left { self.new.value ≡ None }
    {
        let handle = mem::replace(self, SearcherHandle::empty());
        handle.into_loose(alloc).into_box()
    }

    fn empty() -> SearcherHandle
        ensures { result.value ≡ None }
    {
        SearcherHandle { at: null_mut() }
    }

    fn from_loose(loose: Loose<Searcher, Global>) -> SearcherHandle
        ensures { result.value ≡ Some loose.value }
    {
        let Loose { at, alloc: _ } = loose;
        SearcherHandle { at: at as *mut u8 }
    }

    fn into_loose(self, alloc: Global) -> Loose<Searcher, Global>
        requires { self.value ≡ None → ⊥ }
        ensures { Some result.value ≡ self.value }
    {
        let SearcherHandle { at } = self;
        Loose {
            at: at as *mut Searcher,
            alloc,
        }
    }
}

/// States that any thread may use a searcher, and so its handle. The function does nothing.
fn searcher_is_send() {
    is_send::<Searcher>()
}
