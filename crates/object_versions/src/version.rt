use caa_base::written::entry::Place;
use caa_base::written::limits::MOST_DEPTH;

/// What is kept of an object.
#[derive(Clone, Copy)]
pub struct Version {
    pub value: i64,
    /// The innermost live place that uses the object.
    pub holder: Option<Place>,
    /// The value at the start of each live place that uses the object, by the number of places round that place.
    pub saved: [i64; MOST_DEPTH as usize],
}
