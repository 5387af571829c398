ghost use Rattle.std.specs.Prelude.{◌≡◌, ◌*◌};
ghost use Rattle.place_plan.specs.Plans.Bound.{longest_body, longest_of, longest_handler};
ghost use Rattle.place_plan.specs.Plans.Weights.{counted, own_entries};

use crate::drafts::draft_rows::{ActionRow, HandlerRow, RoleRow};
use crate::plans::tables::{MOST_COUNTED, counted_sum};

/// How many steps the longest body has.
fn longest_body(roles: &[RoleRow]) -> usize
    ensures { result ≡ longest_body roles.now }
{
    let mut longest = 0;
    for role in roles {
        longest = longest.max(role.body.steps.len());
    }
    longest
}

/// How many steps the longest of these handlers has.
fn longest_of(handlers: &[HandlerRow]) -> usize
    ensures { result ≡ longest_of handlers.now }
{
    let mut longest = 0;
    for handler in handlers {
        longest = longest.max(handler.program.steps.len());
    }
    longest
}

/// How many steps the longest handler has.
fn longest_handler(roles: &[RoleRow]) -> usize
    ensures { result ≡ longest_handler roles.now }
{
    let mut longest = 0;
    for role in roles {
        longest = longest.max(longest_of(role.handlers.as_slice()));
    }
    longest
}

/// The product, as far as it is counted.
fn counted_product(left: u64, right: u64) -> u64
    ensures { result ≡ counted (left * right) }
{
    left.saturating_mul(right).min(MOST_COUNTED)
}

/// How many entries an instance of an action may have, what is nested in it aside.
pub(crate) fn own_bound(action: &ActionRow) -> u64
    ensures { result ≡ counted (own_entries action.now) }
{
    let roles = action.roles.as_slice();
    let body = longest_body(roles) as u64;
    let handler = longest_handler(roles) as u64;
    let steps = counted_sum(counted_sum(8, body), handler);
    let played = counted_product(roles.len() as u64, steps);
    counted_sum(counted_sum(played, action.objects.len() as u64), 4)
}
