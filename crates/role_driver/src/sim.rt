ghost use Rattle.std.specs.Prelude.{◌≡◌, ◌<◌, ◌≤◌, ◌^◌};
ghost use Rattle.caa_base.specs.Written.Mixing.{turn_number};
ghost use Rattle.place_plan.specs.RulesOfJournals.Journals.{IsLegal, IsComplete};
ghost use Rattle.role_driver.specs.Schedule.{GrewBy};

use crate::turn::take_turn;
use caa_base::outside::gate::EmptyGate;
use caa_base::written::work::next_state;
use core_words::crew::nobody;
use journal_laws::is_bounded;
use place_plan::rules::machine::Machine;

/// Plays a machine to its end, by the schedule of a seed. It takes no memory.
///
/// A state begins as the seed, which is below 2^31. For each entry it is mixed once, and the first participant that has an entry
/// makes it, going round from the one of number `state / 65536` modulo the number of participants. A piece of mixing work is done
/// in the turn that needs it. What the machine did before is kept, and its journal is what it had with the new entries after it.
pub fn sim<M: Machine>(mut machine: M, seed: u32) -> M
    requires { seed < 2 ^ 31 }
    ensures plan { M.plan_of result ≡ M.plan_of machine }
    ensures base { M.base_of result ≡ M.base_of machine }
    ensures count { M.count_of machine ≤ M.count_of result }
    ensures legal { IsLegal (M.plan_of machine) (M.journal_of result) }
    ensures complete { IsComplete (M.plan_of machine) (M.journal_of result) }
    ensures scheduled { GrewBy (turn_number seed) (M.plan_of machine) (M.journal_of machine) (M.journal_of result) }
{
    let mut state = next_state(seed);
    let mut asleep = nobody();
    while take_turn(&mut machine, state / 65_536, &mut asleep, &EmptyGate) {
        state = next_state(state);
        is_bounded(machine.plan());
    }
    machine
}
