ghost use Rattle.std.specs.Prelude.{◌≡◌, ◌<◌, ◌≤◌, false};
ghost use Rattle.cover_table.specs.Cover.{has_bit};
ghost use Rattle.play_orders.specs.Asking.{NotAllSleep};

use caa_base::written::entry::Participant;
use core_words::crew::Crew;

/// Who is asked for an entry, of those who don't sleep.
pub trait Order {
    /// The participant that is asked next. A crew sleeps: those of it who were asked and had no entry, and those who are known to have
    /// none. One of so many participants is awake.
    fn pick(&mut self, asleep: Crew, participants: u32) -> Participant
        requires few { participants ≤ 64 }
        requires awake { NotAllSleep asleep participants }
        ensures known { result < participants }
        ensures awake { has_bit asleep result ≡ false };

    /// Takes note that this participant made the next entry.
    fn went(&mut self, by: Participant);
}
