//! The rules by which something is told of a script.

/// A rule. Those of warnings stand first: what they tell is hardly ever meant. What the others tell is shown only where it is asked for.
#[derive(Clone, Copy, PartialEq, Eq)]
pub enum Rule {
    /// Steps stand behind a `raise`.
    BehindRaise,
    /// No alternate before this one can end undone.
    NeverTried,
    /// There are handlers for what can't be resolved.
    NeverBegun,
    /// Each role handles it, and all is set back all the same.
    HandledAndUndone,
    /// Where the way back of an object is refused, it stays away.
    LeftOn,
    /// Two uses share objects and have no order.
    EitherFirst,
    /// What moves first is set back first.
    SetBackOrder,
    /// The restore of a later play is a put that was made before.
    AsksAgain,
    /// An exception is resolved and told nowhere.
    NeverComes,
    /// No play reaches an action.
    NeverPlayed,
    /// `universal` is raised though the action has a graph of its own.
    Unnamed,
    /// A refused put of any of several objects raises the same.
    OneFaultForMany,
    /// Two uses have no order.
    SideBySide,
    /// A role does nothing.
    IdleRole,
    /// A play after a failed one begins with what that one left.
    NextPlay,
}

impl Rule {
    /// Whether it is shown only where it is asked for.
    pub fn is_note(self) -> bool {
        matches!(
            self,
            Rule::NeverPlayed
                | Rule::Unnamed
                | Rule::OneFaultForMany
                | Rule::SideBySide
                | Rule::IdleRole
                | Rule::NextPlay
        )
    }

    /// Of which kind it is, and its name.
    pub fn words(self) -> &'static str {
        match self {
            Rule::BehindRaise => "warning behind-raise",
            Rule::NeverTried => "warning never-tried",
            Rule::NeverBegun => "warning never-begun",
            Rule::HandledAndUndone => "warning handled-and-undone",
            Rule::LeftOn => "warning left-on",
            Rule::EitherFirst => "warning either-first",
            Rule::SetBackOrder => "warning set-back-order",
            Rule::AsksAgain => "warning asks-again",
            Rule::NeverComes => "warning never-comes",
            Rule::NeverPlayed => "note never-played",
            Rule::Unnamed => "note unnamed",
            Rule::OneFaultForMany => "note one-fault-for-many",
            Rule::SideBySide => "note side-by-side",
            Rule::IdleRole => "note idle-role",
            Rule::NextPlay => "note next-play",
        }
    }
}
