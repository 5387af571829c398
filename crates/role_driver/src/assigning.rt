ghost use Rattle.std.specs.Prelude.{◌≡◌, ◌<◌, All, length, map, replicate};
ghost use Rattle.shared_views.specs.Committing.{placeless};
ghost use Rattle.role_driver.specs.VectorRoom.{HasRoomFor};
ghost use Rattle.role_driver.specs.inner.Watchers.{task_of};
ghost use Rattle.role_driver.specs.inner.WatchRooms.{task_with, observer_of};

use crate::watch_room::Blank;
use crate::watcher::Watcher;
use action_manager::Manager;
use place_plan::rules::machine::Machine;
use shared_views::Observer;

/// A watcher for each blank, by the manager's observers.
pub fn watchers_for<M: Machine>(
    _manager: &Manager<M>,
    blanks: Vec<Blank>,
    mut observers: Vec<Observer>,
    mut watchers: Vec<Watcher>,
) -> Vec<Watcher>
    requires observers { map placeless observers.items ≡ replicate (length blanks.items) (observer_of _manager.now) }
    requires objects { All (λ b. b.object < length (observer_of _manager.now).initials) blanks.items }
    requires room { HasRoomFor (length blanks.items) watchers }
    ensures { map task_of result.items ≡ map (λ b. task_with (observer_of _manager.now) b.object) blanks.items }
{
    for blank in blanks {
        let Blank { object, seen } = blank;
        match observers.pop() {
            Some(observer) => watchers.push_reserved(Watcher::new(object, observer, seen)),
            None => unreachable!(),
        }
    }
    watchers
}
