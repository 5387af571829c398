//! Whether a number is in a list.

ghost use Rattle.std.specs.Prelude.{◌≡◌};
ghost use Rattle.caa_base.specs.Written.Lists.{member};

/// Whether a number is in a list.
pub(crate) fn is_member(number: u32, list: &[u32]) -> bool
    ensures { result ≡ member number list.now }
{
    list.iter().any(|item| *item == number)
}
