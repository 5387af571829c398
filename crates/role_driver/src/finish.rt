ghost use Rattle.std.specs.Prelude.{◌≡◌, ◌≤◌};
ghost use Rattle.place_plan.specs.RulesOfJournals.Journals.{IsLegal, IsComplete};
ghost use Rattle.role_driver.specs.Schedule.{GrewBy, always_least};
ghost use Rattle.role_driver.specs.Working.{TellsPlaces};

use crate::turn::take_turn;
use caa_base::outside::gate::Gate;
use core_words::crew::nobody;
use journal_laws::is_bounded;
use place_plan::rules::machine::Machine;

/// Plays a machine to its end: as long as somebody has an entry, the least such participant makes its own. It takes no memory.
///
/// The gate is called before each piece of mixing work, with who does it and where. What the machine did before is kept, and its
/// journal is what it had with the new entries after it.
pub fn finish<M: Machine, G: Gate>(mut machine: M, gate: &G) -> M
    ensures plan { M.plan_of result ≡ M.plan_of machine }
    ensures base { M.base_of result ≡ M.base_of machine }
    ensures count { M.count_of machine ≤ M.count_of result }
    ensures legal { IsLegal (M.plan_of machine) (M.journal_of result) }
    ensures complete { IsComplete (M.plan_of machine) (M.journal_of result) }
    ensures least_first { GrewBy always_least (M.plan_of machine) (M.journal_of machine) (M.journal_of result) }
    ensures told { TellsPlaces (G.was_told gate.now) (M.journal_of machine) (M.journal_of result) }
{
    let mut asleep = nobody();
    while take_turn(&mut machine, 0, &mut asleep, gate) {
        is_bounded(machine.plan());
    }
    machine
}
