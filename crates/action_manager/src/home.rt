ghost use Rattle.std.specs.Prelude.{List};
ghost use Rattle.caa_base.specs.declared.written.entry.Entry.{Entry as JournalEntry};
ghost use Rattle.place_plan.specs.Plans.PlanValue.{Plan as PlanValue};
ghost use Rattle.action_manager.specs.declared.lock_view.Terms.{Terms as TermsValue};

/// What may lie in the slot of a turn lock: it has a journal, and is right by some terms or not.
pub trait Home {
    ghost journal: { Self → List JournalEntry };

    /// The terms that are fixed where it is handed in with a plan.
    ghost terms: { PlanValue → Self → TermsValue };

    ghost right: { TermsValue → Self → Type 0 };
}
