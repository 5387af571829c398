/// What is kept of a participant besides its frames.
#[derive(Clone, Copy)]
pub struct Person {
    /// The number of its next play among all plays: the first with a role of it in which it has not arrived.
    pub turn: u32,
    /// Whether a put of it was refused since it last began a handler. It says something only of a participant that has begun its
    /// handler in the place that it is in.
    pub refused: bool,
}
