//! Pages of the file system: their cells, the pages that a session holds, and shadows of what it writes.
#![tactic(auto)]

mod held;
mod page;
mod shadows;

pub use held::Held;
pub use page::{Kind, PageCell, ShadowPage, Write};
pub use shadows::shadow;
