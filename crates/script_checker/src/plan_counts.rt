/// How large a plan is.
#[derive(Clone, Copy)]
pub struct PlanCounts {
    pub participants: u32,
    pub objects: u32,
    pub places: u64,
    /// How many entries a journal of it has at most.
    pub bound: u64,
}
