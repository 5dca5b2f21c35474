//! The handle that a program in C keeps: null, or a pointer to an open field that it owns.

ghost use Rattle.std.specs.Prelude.{◌≡◌, Option, Some, None, option_map};
ghost use Rattle.play_session.specs.Session.{SessionState};
ghost use Rattle.curlewmetal.specs.Owned.{held_owns};

use crate::parts::BoxParts;
use curlew_calls::OpenField;
use std::alloc::Global;
use std::marker::Model;
use std::{mem, ptr};

/// The type that a handle points to. No code reads it.
#[repr(C)]
#[derive(Drop)]
pub struct Opaque {
    _word: u8,
}

/// A handle. To C it is one pointer, which is null if no field is open.
#[repr(C)]
pub struct Field {
    at: *mut Opaque,
    alloc: Global,
    ghost held: { Option SessionState },
}

impl Model for Field {
    ghost also_owns = { λ f. held_owns f.alloc f.at f.held };
}

impl Drop for Field {
    fn drop(self) {
        let _closed = self.into_box();
    }
}

impl Field {
    /// Creates a handle without a field.
    pub(crate) fn none(alloc: Global) -> Field
        ensures { result.held ≡ None }
    {
        Field {
            at: ptr::null_mut(),
            alloc,
        }
    }

    /// Creates a handle that owns this field.
    pub(crate) fn of(held: Box<OpenField>) -> Field
        ensures { result.held ≡ Some held.value }
    {
        Field::of_parts(BoxParts::of(held))
    }

    /// Takes the field out of a handle, or returns `None` if it has none. An export puts it back with `of` after its call.
    pub(crate) fn take(&mut self, alloc: Global) -> Option<Box<OpenField>>
        ensures taken { option_map (λ held. held.value) result ≡ self.old.held }
        ensures leaves { self.new.held ≡ None }
    {
        mem::replace(self, Field::none(alloc)).into_box()
    }

    /// Returns the field of a handle, or `None` if it has none.
    pub(crate) fn into_box(self) -> Option<Box<OpenField>>
        ensures { option_map (λ held. held.value) result ≡ self.held }
    {
        match self.into_parts() {
            Some(parts) => Some(parts.into_box()),
            None => None,
        }
    }

    /// Creates a handle that owns the field of these parts.
    fn of_parts(parts: BoxParts<OpenField, Global>) -> Field
        ensures { result.held ≡ Some parts.value }
    {
        let BoxParts { ptr, alloc } = parts;
        Field {
            at: ptr as *mut Opaque,
            alloc,
        }
    }

    /// Returns the parts of a handle's field, or `None` if the pointer is null.
    fn into_parts(self) -> Option<BoxParts<OpenField, Global>>
        ensures { option_map (λ parts. parts.value) result ≡ self.held }
    {
        let Field { at, alloc } = self;
        if at == ptr::null_mut() {
            return None;
        }
        Some(BoxParts {
            ptr: at as *mut OpenField,
            alloc,
        })
    }
}
