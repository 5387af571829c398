ghost use Rattle.std.specs.Prelude.{◌≡◌, ◌<◌, ◌≤◌, ◌+◌, ◌*◌, ◌++◌, [], All, None, length, map, reverse, suc};
ghost use Rattle.caa_base.specs.Written.Limits.{IsValue};
ghost use Rattle.journal_text.specs.Watching.Looks.{AreOfPlan, last_watch};
ghost use Rattle.journal_text.specs.Watching.Right.{first_wrong};
ghost use Rattle.journal_text.specs.Texts.Text.{watched_object};
ghost use Rattle.role_driver.specs.inner.Watchers.{task_of};
ghost use Rattle.role_driver.specs.inner.Gathering.{HasPublished, task_by, with_last, look_of, AreRightSoFar};

use crate::watcher::Watcher;
use action_manager::publishes_committed;
use journal_laws::{ends_commit, is_well_formed};
use journal_text::looks::seens::{Seen, Seens};
use place_plan::rules::machine::Machine;
use shared_views::{CommittedWriter, Reading};

/// A reading, as a look of a watch.
fn look_of(watch: u32, reading: Reading) -> Seen
    ensures { result ≡ look_of watch reading }
{
    Seen {
        watch,
        ends: reading.ends,
        value: reading.value,
    }
}

/// Adds the looks of a watch: the readings that were recorded before the last, and the last.
fn add_looks(seens: &mut Seens, watch: u32, seen: &[Reading], last: Reading)
    requires room { length seens.old.seens + length (with_last seen.now last) ≤ seens.old.room }
    requires order { last_watch 0 seens.old.seens ≤ watch }
    requires values { All (λ r. IsValue r.value) (with_last seen.now last) }
    ensures looks { seens.new.seens ≡ seens.old.seens ++ map (look_of watch) (with_last seen.now last) }
    ensures room { seens.new.room ≡ seens.old.room }
{
    for index in 0..seen.len() {
        let reading = seen[index];
        if reading.ends < last.ends {
            seens.push(look_of(watch, reading));
        }
    }
    seens.push(look_of(watch, last));
}

/// Adds the looks of a watch, once the writer has published all.
fn add_watch<M: Machine>(
    machine: &M,
    writer: &mut CommittedWriter,
    watch: u32,
    watcher: &mut Watcher,
    seens: &mut Seens,
)
    requires published { HasPublished (M.plan_of machine.now) (reverse (M.journal_of machine.now)) writer.old }
    requires watch { watch < length (M.plan_of machine.now).watches }
    requires task { task_of watcher.old ≡ task_by writer.old (watched_object (M.plan_of machine.now) watch) }
    requires right { AreRightSoFar (M.plan_of machine.now) (reverse (M.journal_of machine.now)) watch seens.old.seens }
    requires room { seens.old.room ≡ length (M.plan_of machine.now).watches * suc (length (M.plan_of machine.now).plays) }
    ensures writer { writer.new ≡ writer.old }
    ensures task { task_of watcher.new ≡ task_of watcher.old }
    ensures right { AreRightSoFar (M.plan_of machine.now) (reverse (M.journal_of machine.now)) (suc watch) seens.new.seens }
    ensures room { seens.new.room ≡ seens.old.room }
{
    is_well_formed(machine.plan());
    ends_commit(machine.plan());
    publishes_committed(machine.plan());
    machine.plan().is_closed();
    let last = watcher.last_look(writer);
    add_looks(seens, watch, watcher.seen(), last);
}

/// The looks of all watches, once the writer has published all. They are right looks of the machine's journal.
pub fn gather<M: Machine>(
    machine: &M,
    writer: &mut CommittedWriter,
    watchers: &mut Vec<Watcher>,
    mut seens: Seens,
) -> Seens
    requires published { HasPublished (M.plan_of machine.now) (reverse (M.journal_of machine.now)) writer.old }
    requires tasks { map task_of watchers.old.items ≡ map (task_by writer.old) (M.plan_of machine.now).watches }
    requires none { seens.seens ≡ [] }
    requires room { seens.room ≡ length (M.plan_of machine.now).watches * suc (length (M.plan_of machine.now).plays) }
    ensures of_plan { AreOfPlan (M.plan_of machine.now) result.seens }
    ensures right { first_wrong (M.plan_of machine.now) (M.journal_of machine.now) result.seens ≡ None }
{
    for watch in 0..machine.plan().watches() {
        add_watch(
            machine,
            writer,
            watch,
            &mut watchers[watch as usize],
            &mut seens,
        );
    }
    seens
}
