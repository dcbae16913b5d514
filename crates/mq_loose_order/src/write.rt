// Writing a descriptor of the loose order.
ghost use Rattle.std.specs.Prelude.{◌≡◌, ◌≤◌, ◌+◌, ◌*◌, length};
ghost use Rattle.mq_blocks.specs.Descriptor.{header_bytes};
ghost use Rattle.mq_blocks.specs.Windows.{written};
ghost use Rattle.mq_loose_order.specs.Form.{listing, loose_bytes, loose_limit, loose_magic, number_bytes};

use mq_area::Descriptor;
use mq_blocks::bytes::{put, put_list};
use mq_blocks::{Block, TxNo};

/// The first eight bytes of a descriptor of the loose order, "MQFSLSE1", as a number.
pub const LOOSE_MAGIC: u64 = 0x3145_534c_5346_514d;

/// The bytes before the two lists.
const HEADER: usize = 56;

/// Writes the descriptor of a transaction that depends on these numbers over the whole block. It revokes
/// nothing.
pub fn write_loose_descriptor(d: &Descriptor, deps: &[TxNo], into: &mut Block)
    requires logged { length d.now.logged ≤ loose_limit }
    requires deps { length deps.now ≤ loose_limit }
    ensures { into.new ≡ loose_bytes d.now deps.now }
{
    write_bytes(d, deps, into.bytes_mut());
}

fn write_bytes(d: &Descriptor, deps: &[TxNo], block: &mut [u8])
    requires logged { length d.now.logged ≤ loose_limit }
    requires deps { length deps.now ≤ loose_limit }
    requires whole { length block.old ≡ 4096 }
    ensures { block.new ≡ loose_bytes d.now deps.now }
{
    let second = HEADER + 4 * d.logged.len();
    let end = second + 8 * deps.len();
    put_header(d, deps, block);
    put_list(block, HEADER, &d.logged);
    put_numbers(block, second, deps);
    block[end..].fill(0);
}

fn put_header(d: &Descriptor, deps: &[TxNo], block: &mut [u8])
    requires logged { length d.now.logged ≤ loose_limit }
    requires deps { length deps.now ≤ loose_limit }
    requires whole { length block.old ≡ 4096 }
    ensures { block.new ≡ written block.old 0 (header_bytes loose_magic 1 (listing deps.now d.now)) }
{
    put(block, 0, &LOOSE_MAGIC.to_le_bytes());
    put(block, 8, &1u32.to_le_bytes());
    put(block, 12, &d.queue.to_le_bytes());
    put(block, 16, &d.number.to_le_bytes());
    put(block, 24, &d.place.to_le_bytes());
    put(block, 32, &d.prev_place.to_le_bytes());
    put(block, 40, &d.prev_number.to_le_bytes());
    put(block, 48, &(d.logged.len() as u32).to_le_bytes());
    put(block, 52, &(deps.len() as u32).to_le_bytes());
}

/// Writes these numbers from `at` on, eight bytes each.
fn put_numbers(block: &mut [u8], at: usize, numbers: &[TxNo])
    requires { at + 8 * length numbers.now ≤ length block.old }
    ensures { block.new ≡ written block.old at (number_bytes numbers.now) }
{
    for (i, number) in numbers.iter().enumerate() {
        put(block, at + 8 * i, &number.0.to_le_bytes());
    }
}
