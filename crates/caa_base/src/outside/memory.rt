//! The outside in memory: a source, a sink and a plant that never fail by themselves (`Sure..`),
//! and those that fail where that was asked for (`Mem..`).

mod drills;
mod failures;
mod laid;
mod mem_plant;
mod mem_sink;
mod mem_source;
mod sure_plant;
mod sure_sink;
mod sure_source;

pub use mem_plant::MemPlant;
pub use mem_sink::MemSink;
pub use mem_source::MemSource;
pub use sure_plant::SurePlant;
pub use sure_sink::SureSink;
pub use sure_source::SureSource;
