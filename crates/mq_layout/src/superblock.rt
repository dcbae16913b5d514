// The superblock, which says the geometry of the drive.
ghost use Rattle.std.specs.Prelude.{◌≡◌, ◌≤◌, IsErrOf, IfErr, IfOk, IsOk, length, nat_eq, ℕ, ◌<◌, slice_index};
ghost use Rattle.mq_blocks.specs.Windows.{number_at, written};
ghost use Rattle.mq_layout.specs.Fields.{Finds, field};
ghost use Rattle.mq_layout.specs.Superblock.{super_bytes, super_header, wrong_super};
ghost use Rattle.mq_layout.specs.declared.refusal.LayoutCause.TheVariants.{Geometry as Shape};

use crate::places::inodes;
use crate::refusal::{LayoutCause, LayoutRefusal, check, check_zeros};
use mq_blocks::bytes::{put, u32_at, u64_at};
use mq_blocks::{Block, Geometry};

const MAGIC: &[u8; 8] = b"MQFSSUP1";

/// Accepts only the superblock of this geometry.
pub fn read_super(geometry: Geometry, block: &Block) -> Result<(), LayoutRefusal>
    ensures sound { IfOk result (λ _. block.now ≡ super_bytes geometry) }
    ensures complete { block.now ≡ super_bytes geometry → IsOk result }
    ensures refused { IfErr result (λ e. wrong_super geometry block.now ≡ Some e) }
    ensures exact { (e : LayoutRefusal) → wrong_super geometry block.now ≡ Some e → IsErrOf result e }
{
    check_super(geometry, block.bytes())
}

#[tactic(auto, unfolding(crate::specs::Superblock::wrong_super, crate::specs::Fields::first))]
fn check_super(geometry: Geometry, block: &[u8]) -> Result<(), LayoutRefusal>
    requires { length block.now ≡ 4096 }
    ensures finds { Finds (wrong_super geometry block.now) result }
    ensures bytes { (k : ℕ) → slice_index block.now k < 256 }
{
    check(
        LayoutCause::Magic,
        0,
        u64_at(block, 0) == u64::from_le_bytes(*MAGIC),
    )?;
    check(LayoutCause::Version, 8, u32_at(block, 8) == 1)?;
    check_number(block, 12, geometry.queues())?;
    check_number(block, 16, geometry.area())?;
    check_number(block, 20, geometry.meta())?;
    check_number(block, 24, geometry.zone())?;
    check_number(block, 28, inodes(geometry))?;
    check_zeros(block, 32, 4064)
}

fn check_number(block: &[u8], at: usize, number: u32) -> Result<(), LayoutRefusal>
    requires whole { length block.now ≡ 4096 }
    requires inside { at ≤ 28 }
    ensures { Finds (field Shape at (nat_eq (number_at 4 at block.now) number)) result }
{
    check(LayoutCause::Geometry, at, u32_at(block, at) == number)
}

/// Writes the superblock of a geometry over the whole block.
pub fn write_super(geometry: Geometry, into: &mut Block)
    ensures { into.new ≡ super_bytes geometry }
{
    into.clear();
    put_super(geometry, into.bytes_mut());
}

fn put_super(geometry: Geometry, block: &mut [u8])
    requires { length block.old ≡ 4096 }
    ensures { block.new ≡ written block.old 0 (super_header geometry) }
{
    put(block, 0, MAGIC);
    put(block, 8, &1u32.to_le_bytes());
    put(block, 12, &geometry.queues().to_le_bytes());
    put(block, 16, &geometry.area().to_le_bytes());
    put(block, 20, &geometry.meta().to_le_bytes());
    put(block, 24, &geometry.zone().to_le_bytes());
    put(block, 28, &inodes(geometry).to_le_bytes());
}
