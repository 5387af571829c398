ghost use Rattle.caa_c.specs.inner.Kept.{boxed};
ghost use Rattle.std.specs.Prelude.{◌≡◌, Option, Some, None, is_some};

use crate::seat::Seat;
use crate::session::Session;
use std::alloc::Global;
use std::mem::replace;

/// What the host keeps of a machine: all zero where none is open. It is never copied.
#[repr(C)]
pub struct Caa {
    is_open: bool,
    alloc: Global,
    seat: Seat,
    ghost fits: { is_open ≡ is_some seat.value },
}

impl Caa {
    /// Nothing is open.
    pub fn none(alloc: Global) -> Caa
        ensures { result.seat.value ≡ None }
    {
        Caa {
            is_open: false,
            alloc,
            seat: Seat::none(alloc),
        }
    }

    /// This is open.
    pub fn of_box(alloc: Global, session: Box<Session, Global>) -> Caa
        ensures { result.seat.value ≡ Some session.value }
    {
        Caa {
            is_open: true,
            alloc,
            seat: Seat::of_box(session),
        }
    }

    /// What is open.
    pub fn into_box(self) -> Option<Box<Session, Global>>
        ensures { boxed result ≡ self.seat.value }
    {
        let Caa {
            is_open,
            alloc: _,
            seat,
        } = self;
        if is_open { Some(seat.into_box()) } else { None }
    }

    /// Takes out what is open. It takes no memory.
    pub fn take(&mut self) -> Option<Box<Session, Global>>
        ensures value { boxed result ≡ self.old.seat.value }
        ensures after { self.new.seat.value ≡ None }
    {
        let none = Caa::none(self.alloc);
        replace(self, none).into_box()
    }

    /// Puts back what was taken out. It takes no memory.
    pub fn put_back(&mut self, session: Box<Session, Global>)
        requires free { self.old.seat.value ≡ None }
        ensures { self.new.seat.value ≡ Some session.value }
    {
        *self = Caa::of_box(self.alloc, session);
    }
}

/// Closes what is open.
impl Drop for Caa {
    fn drop(self) {
        drop(self.into_box());
    }
}
