//! Block texts: reading them, and printing the blocks that a run leaves; and the lines, words, numbers and bytes of any text.
#![tactic(auto)]

mod item;
mod line;
mod number;
mod parts;
mod print;
mod refusal;
mod whole;
mod words;

pub use item::BlockItem;
pub use line::BlockLine;
pub use parts::{cut_at, cut_lines, without_last_line_feed};
pub use print::{block_line, print_blocks};
pub use refusal::{BlockTextCause, BlockTextRefusal};
pub use whole::{BlockText, read_block_text};
pub use words::{are_visible, byte_of, number_of};
