ghost use Rattle.std.specs.Prelude.{IsTrue, IfOk, All, length, ◌≡◌};

use std::alloc::{AllocError, Global};
use std::sync::atomic::{AtomicBool, Ordering};

/// A flag that one thread raises and others see.
///
/// That a flag was seen raised is a fact of contracts that nothing but a look at it gives, and that it began lowered one that
/// nothing but its making gives.
pub trait Flag: Sized {
    /// The flag was seen raised.
    ghost was_raised: { Self → Type 0 } = { λ _. Unit {0} };

    /// The flag was made lowered.
    ghost began_lowered: { Self → Type 0 } = { λ _. Unit {0} };

    /// A flag that isn't raised.
    fn lowered() -> Self
        ensures { began_lowered result };

    /// Raises the flag.
    fn raise(&self);

    /// Whether the flag is raised.
    fn is_raised(&self) -> bool
        ensures { IsTrue result → was_raised self.now };
}

impl Flag for AtomicBool {
    fn lowered() -> AtomicBool {
        AtomicBool::new(false)
    }

    fn raise(&self) {
        self.store(true, Ordering::SeqCst);
    }

    fn is_raised(&self) -> bool {
        self.load(Ordering::SeqCst)
    }
}

/// So many flags that aren't raised.
pub fn lowered_flags<F: Flag + Drop>(alloc: Global, count: usize) -> Result<Vec<F>, AllocError>
    ensures count { IfOk result (λ flags. length flags.items ≡ count) }
    ensures lowered { IfOk result (λ flags. All F.began_lowered flags.items) }
{
    let mut flags = Vec::new(alloc);
    for _made in 0..count {
        flags.push(F::lowered())?;
    }
    Ok(flags)
}
