//! The log that a play is written to as it goes, and its end.

ghost use Rattle.std.specs.Prelude.{◌≡◌, List};
ghost use Rattle.caa_base.specs.declared.written.entry.Entry.{Entry};
ghost use Rattle.place_plan.specs.Plans.PlanValue.{Plan};
ghost use Rattle.journal_text.specs.declared.looks.seens.Seen.{Seen};
ghost use Rattle.entry_log.specs.Logs.{Tells};
ghost use Rattle.caa_commands.specs.OutsideUse.{sink_use};
ghost use Rattle.caa_commands.specs.Calls.{EndsAs};
ghost use Rattle.caa_commands.specs.Logging.{EndsLog};

use crate::finding::{Finding, Text};
use crate::playing::Decision;
use crate::status::Status;
use caa_base::outside::sink::Sink;
use caa_base::written::entry::Failed;
use entry_log::sink_log::{LogState, SinkLog};

/// What became of the sink of a call that writes its journal as it plays.
#[derive(Drop)]
pub enum LogUse<K> {
    /// Nothing was written yet: the sink is as it was.
    Untouched(K),
    /// The first line couldn't be written, so nothing was played.
    Unopened(K),
    /// The entries were told to this log.
    Kept(SinkLog<K>),
}

/// What a call came to, and what became of its sink.
#[derive(Drop)]
pub struct LoggedDecision<P, K> {
    pub decision: Decision<P>,
    pub log: LogUse<K>,
}

/// Writes what stands behind the entries, and gives the status of the call.
pub fn end_log<K: Sink + Drop>(log: &mut SinkLog<K>, finding: &Finding) -> Status
    ensures opened { log.new.opened ≡ log.old.opened }
    ensures ends { (plan : Plan) (journal : List Entry) (seens : List Seen) → Tells ⟦<K as Sink>⟧ log.old plan journal
        → EndsAs plan journal seens finding.now
        → EndsLog plan finding.now journal (sink_use ⟦<K as Sink>⟧ log.old.opened log.new.sink) result }
{
    let Finding::Played {
        failed: _,
        text: Text::OfJournal { plan: _, rest },
    } = finding
    else {
        return Status::OutOfMemory;
    };
    if log.state() == LogState::NoMemory {
        return Status::OutOfMemory;
    }
    match log.complete(rest.as_slice()) {
        Ok(()) => finding.status(),
        Err(Failed) => Status::SinkFault,
    }
}
