//! A pointer to what a handle holds, whose type doesn't tell what that is: so a handle can stand in
//! C's memory, which no type may that holds a vector or a map.
ghost use Rattle.std.specs.Prelude.{◌≡◌, Option, Some, None, box_value, is_some, option_map, true};
ghost use Rattle.syntect_c.specs.declared.set.SetContent.{SetContent as ASet};
ghost use Rattle.syntect_c.specs.Holding.{handle_owns, held_coded};

use crate::parts::Parts;
use crate::set::SetContent;
use std::alloc::Global;
use std::marker::Model;
use std::ptr::null_mut;

/// Nothing, or a pointer to what is held.
#[repr(C)]
#[derive(Drop)]
pub struct Handle {
    at: *mut (),
    alloc: Global,
    pub ghost held: { Option ASet } by { held_coded },
}

impl Model for Handle {
    ghost also_owns = { λ h. handle_owns h.alloc h.at h.held };
}

impl Handle {
    /// A handle that holds nothing.
    pub fn empty(alloc: Global) -> Handle
        ensures { result.held ≡ None }
    {
        Handle {
            at: null_mut(),
            alloc,
        }
    }

    /// A handle that holds what stands in a box that was taken apart.
    pub fn of_parts(parts: Parts<SetContent, Global>) -> Handle
        ensures { result.held ≡ Some parts.value }
    {
        let Parts { at, alloc } = parts;
        Handle {
            at: at as *mut (),
            alloc,
        }
    }

    /// The parts of the box whose content it holds.
    pub fn into_parts(self) -> Parts<SetContent, Global>
        requires { is_some self.held ≡ true }
        ensures { Some result.value ≡ self.held }
    {
        let Handle { at, alloc } = self;
        Parts {
            at: at as *mut SetContent,
            alloc,
        }
    }
}

/// A handle as it stands in C's memory: of one that is full of zeros nothing is held.
#[repr(C)]
#[derive(Drop)]
pub struct Slot {
    pub handle: Handle,
    full: bool,
    ghost tied: { full ≡ is_some handle.held },
}

impl Slot {
    /// Nothing.
    pub fn empty(alloc: Global) -> Slot
        ensures { result.handle.held ≡ None }
    {
        Slot {
            handle: Handle::empty(alloc),
            full: false,
        }
    }

    /// What stands in a box.
    pub fn of(content: Box<SetContent>) -> Slot
        ensures { result.handle.held ≡ Some (box_value content) }
    {
        Slot {
            handle: Handle::of_parts(Parts::of(content)),
            full: true,
        }
    }

    /// The box again, if something is held.
    pub fn take(self) -> Option<Box<SetContent>>
        ensures { option_map box_value result ≡ self.handle.held }
    {
        let Slot { handle, full } = self;
        if full {
            Some(handle.into_parts().into_box())
        } else {
            None
        }
    }
}
