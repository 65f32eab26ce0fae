//! Handles to the matches that a search has found.
ghost use Rattle.std.specs.Coded.{coded_option};
ghost use Rattle.std.specs.Prelude.{◌≡◌, Option, None, Some};
ghost use Rattle.regress_capi.specs.contracts.match_list.MatchList.{the_row};
ghost use Rattle.regress_capi.specs.declared.match_list.MatchList.{MatchList};
ghost use Rattle.regress_capi.specs.Handles.{owned};

use super::handle::is_send;
use super::loose::Loose;
use super::match_list::MatchList;
use std::alloc::Global;
use std::marker::Model;
use std::mem;
use std::ptr::null_mut;

/// The pointer to a list of matches, or nothing, in a variable of the caller. The caller may use it on any thread.
///
/// Dropping it does not free the list.
#[repr(C)]
#[derive(Drop)]
pub struct ListHandle {
    pub(crate) at: *mut u8,
    /// What the pointer owns.
    pub ghost value: { Option MatchList } by { coded_option the_row.coded },
}

impl Model for ListHandle {
    ghost also_owns = { λ handle. owned the_row handle.at handle.value };
}

impl ListHandle {
    /// Returns the handle to a list.
    pub fn of(list: Box<MatchList>) -> ListHandle
        ensures { result.value ≡ Some list.value }
    {
        list_is_send();
        ListHandle::from_loose(Loose::of(list))
    }

    /// Returns the list, and leaves nothing.
    ///
    /// # Preconditions
    /// The handle is one of a list.
    pub fn take(&mut self, alloc: Global) -> Box<MatchList>
        requires { self.old.value ≡ None → ⊥ }
        ensures taken { Some result.value ≡ self.old.value }
        ensures left { self.new.value ≡ None }
    {
        let handle = mem::replace(self, ListHandle::empty());
        handle.into_loose(alloc).into_box()
    }

    fn empty() -> ListHandle
        ensures { result.value ≡ None }
    {
        ListHandle { at: null_mut() }
    }

    fn from_loose(loose: Loose<MatchList, Global>) -> ListHandle
        ensures { result.value ≡ Some loose.value }
    {
        let Loose { at, alloc: _ } = loose;
        ListHandle { at: at as *mut u8 }
    }

    fn into_loose(self, alloc: Global) -> Loose<MatchList, Global>
        requires { self.value ≡ None → ⊥ }
        ensures { Some result.value ≡ self.value }
    {
        let ListHandle { at } = self;
        Loose {
            at: at as *mut MatchList,
            alloc,
        }
    }
}

/// States that any thread may use a list, and so its handle. The function does nothing.
fn list_is_send() {
    is_send::<MatchList>()
}
