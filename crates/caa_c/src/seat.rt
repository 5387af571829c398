ghost use Rattle.std.specs.Prelude.{◌≡◌, Option, Some, None, is_some, IsTrue};
ghost use Rattle.caa_c.specs.inner.Kept.{seat_owns, seat_coded, SessionValue};

use crate::parts::Parts;
use crate::session::Session;
use std::alloc::Global;
use std::marker::Model;

/// Where a session lies, if there is one. Letting a seat go frees nothing: take the box out first.
#[derive(Drop)]
#[repr(C)]
pub struct Seat {
    ptr: *mut u8,
    alloc: Global,
    pub ghost value: { Option SessionValue } by { seat_coded },
}

impl Model for Seat {
    ghost also_owns = { λ k. seat_owns k.alloc k.ptr k.value };
}

impl Seat {
    pub fn none(alloc: Global) -> Seat
        ensures { result.value ≡ None }
    {
        Seat {
            ptr: std::ptr::null_mut(),
            alloc,
        }
    }

    pub fn of_box(session: Box<Session, Global>) -> Seat
        ensures { result.value ≡ Some session.value }
    {
        Seat::of_parts(Parts::of(session))
    }

    pub fn into_box(self) -> Box<Session, Global>
        requires { IsTrue (is_some self.value) }
        ensures { Some result.value ≡ self.value }
    {
        self.into_parts().into_box()
    }

    fn of_parts(parts: Parts<Session, Global>) -> Seat
        ensures { result.value ≡ Some parts.value }
    {
        let Parts { ptr, alloc } = parts;
        Seat {
            ptr: ptr as *mut u8,
            alloc,
        }
    }

    fn into_parts(self) -> Parts<Session, Global>
        requires { IsTrue (is_some self.value) }
        ensures { Some result.value ≡ self.value }
    {
        let Seat { ptr, alloc } = self;
        Parts {
            ptr: ptr as *mut Session,
            alloc,
        }
    }
}
