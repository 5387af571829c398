ghost use Rattle.std.specs.Prelude.{◌≡◌, ◌<◌, IfSome};
ghost use Rattle.message_plays.specs.Turns.{members, order_of, wish, first_wish};

use caa_base::written::entry::Exception;
use place_plan::drafts::draft_rows::Step;
use place_plan::plans::plan::Plan;

/// What a member wishes to raise: what the first step of its body raises.
pub fn wish(plan: &Plan, member: u32) -> Option<Exception>
    requires { member < members plan.now }
    ensures wish { result ≡ wish plan.now member }
    ensures in_range { IfSome result (λ e. e < (order_of plan.now).count) }
{
    plan.is_closed();
    let by = plan.roles_of(0)[member as usize];
    let role = plan.role_of(0, by)?;
    match plan.body(0, role).steps.as_slice().first() {
        Some(Step::Raise(exception)) => Some(*exception),
        _ => None,
    }
}

/// The first member that wishes to raise something, and what it wishes.
pub fn first_wish(plan: &Plan) -> Option<(u32, Exception)>
    ensures wish { result ≡ first_wish plan.now 0 (members plan.now) }
    ensures in_range { IfSome result (λ wish. (wish.0 < members plan.now) × (wish.1 < (order_of plan.now).count)) }
{
    plan.is_closed();
    let count = plan.roles_of(0).len() as u32;
    for member in 0..count {
        if let Some(exception) = wish(plan, member) {
            return Some((member, exception));
        }
    }
    None
}
