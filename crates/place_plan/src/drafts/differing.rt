//! Whether the numbers of a list differ.

ghost use Rattle.std.specs.Prelude.{◌≡◌};
ghost use Rattle.place_plan.specs.Drafts.DraftRules.{all_differ};

use crate::rules::member::is_member;

/// Whether no number stands twice in a list: each is looked for among those behind it. It takes no memory.
pub fn all_differ(numbers: &[u32]) -> bool
    ensures { result ≡ all_differ numbers.now }
{
    for (index, number) in numbers.iter().enumerate() {
        if is_member(*number, &numbers[index + 1..]) {
            return false;
        }
    }
    true
}
