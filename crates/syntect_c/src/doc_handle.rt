//! The same for documents as `handle` is for sets.
ghost use Rattle.std.specs.Prelude.{◌≡◌, Option, Some, None, box_value, is_some, option_map, true};
ghost use Rattle.syntect_c.specs.declared.document.DocContent.{DocContent as ADoc};
ghost use Rattle.syntect_c.specs.DocHolding.{doc_owns, doc_coded};

use crate::document::DocContent;
use crate::parts::Parts;
use std::alloc::Global;
use std::marker::Model;
use std::ptr::null_mut;

/// Nothing, or a pointer to what is held.
#[repr(C)]
#[derive(Drop)]
pub struct DocHandle {
    at: *mut (),
    alloc: Global,
    pub ghost held: { Option ADoc } by { doc_coded },
}

impl Model for DocHandle {
    ghost also_owns = { λ h. doc_owns h.alloc h.at h.held };
}

impl DocHandle {
    /// A handle that holds nothing.
    pub fn empty(alloc: Global) -> DocHandle
        ensures { result.held ≡ None }
    {
        DocHandle {
            at: null_mut(),
            alloc,
        }
    }

    /// A handle that holds what stands in a box that was taken apart.
    pub fn of_parts(parts: Parts<DocContent, Global>) -> DocHandle
        ensures { result.held ≡ Some parts.value }
    {
        let Parts { at, alloc } = parts;
        DocHandle {
            at: at as *mut (),
            alloc,
        }
    }

    /// The parts of the box whose content it holds.
    pub fn into_parts(self) -> Parts<DocContent, Global>
        requires { is_some self.held ≡ true }
        ensures { Some result.value ≡ self.held }
    {
        let DocHandle { at, alloc } = self;
        Parts {
            at: at as *mut DocContent,
            alloc,
        }
    }
}

/// A handle as it stands in C's memory: of one that is full of zeros nothing is held.
#[repr(C)]
#[derive(Drop)]
pub struct DocSlot {
    pub handle: DocHandle,
    full: bool,
    ghost tied: { full ≡ is_some handle.held },
}

impl DocSlot {
    /// Nothing.
    pub fn empty(alloc: Global) -> DocSlot
        ensures { result.handle.held ≡ None }
    {
        DocSlot {
            handle: DocHandle::empty(alloc),
            full: false,
        }
    }

    /// What stands in a box.
    pub fn of(content: Box<DocContent>) -> DocSlot
        ensures { result.handle.held ≡ Some (box_value content) }
    {
        DocSlot {
            handle: DocHandle::of_parts(Parts::of(content)),
            full: true,
        }
    }

    /// The box again, if something is held.
    pub fn take(self) -> Option<Box<DocContent>>
        ensures { option_map box_value result ≡ self.handle.held }
    {
        let DocSlot { handle, full } = self;
        if full {
            Some(handle.into_parts().into_box())
        } else {
            None
        }
    }
}
