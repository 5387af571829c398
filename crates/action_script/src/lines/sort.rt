/// What a name is declared as.
#[derive(Clone, Copy)]
pub enum Sort {
    /// A participant.
    Participant,
    /// An object.
    Object,
    /// A graph.
    Graph,
    /// An action.
    Action,
    /// A role of the action that is open.
    Role,
    /// A nested use of it.
    Nest,
    /// An exception of the graph that is open.
    Own,
    /// An exception of the internal graph of the action that is open.
    Inner,
    /// An exception of its interface graph.
    Outer,
    /// An exception that the actions of this nested use tell outside.
    Told(u32),
}

/// What a name at some place of a line is for.
#[derive(Clone, Copy)]
pub enum Naming {
    /// The line declares it as this.
    New(Sort),
    /// It is declared above as this.
    Used(Sort),
    /// The nested use that the line names first tells it outside.
    ToldOutside,
    /// It is for the same as the name before it.
    Further,
}
