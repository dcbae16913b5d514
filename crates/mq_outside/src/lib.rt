//! Files and sinks: where a command's bytes come from and go to.
#![tactic(auto)]

mod counts;
mod mem_files;
mod mem_sink;
mod names;
mod real;
mod traits;

pub use mem_files::{MemFiles, SureFiles};
pub use mem_sink::{MemSink, SureSink};
pub use real::{RealFiles, RealSink};
pub use traits::{Files, LOAD_LIMIT, LoadRefusal, PutRefusal, SaveRefusal, Sink, put_all};
