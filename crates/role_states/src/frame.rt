use caa_base::written::entry::Place;

/// How far a participant has come in a place.
#[derive(Clone, Copy)]
pub struct Frame {
    pub place: Place,
    /// How many steps it has made there, since its handler began where it has one.
    pub position: u32,
    /// What it read, mixed or wrote last there, since its handler began where it has one; else 0.
    pub register: i64,
    /// Whether it has begun its handler there.
    pub handling: bool,
}
