// Free blocks that a request takes.
ghost use Rattle.std.specs.Prelude.{◌≡◌, ◌<◌, ◌≤◌, ◌++◌, IfErr, IfOk, MatchOption, OnOk, length, take};
ghost use Rattle.std.specs.List.{All};
ghost use Rattle.mq_blocks.specs.Geometry.{queues_of};
ghost use Rattle.mq_inodes.specs.MissingPages.{HasVolume, MissingOf, OfEach};
ghost use Rattle.mq_inodes.specs.Pages.{pages_of};
ghost use Rattle.mq_inodes.specs.Picks.{ArePicked, IsMarkable, IsSearched, free_of};
ghost use Rattle.mq_layout.specs.Places.{zone_bitmap as zone_bitmap_of};
ghost use Rattle.mq_tree.specs.Free.{free_blocks, order, zone_blocks};
ghost use Rattle.mq_tree.specs.Laid.{ShowsMarks, zone_marked};
ghost use Rattle.mq_tree.specs.Volume.{Volume};
ghost use Rattle.std.specs.Prelude.{⊤};

use crate::lack::Missing;
use crate::working::Working;
use mq_blocks::{Block, BlockNo, Geometry, OutOfMemory, QueueNo};
use mq_layout::{first_clear, zone_bitmap};
use std::alloc::Global;

/// Adds the free blocks of a zone by its bitmap, up to `count` picks in all.
fn push_free(
    geometry: Geometry,
    marks: &Block,
    zone: QueueNo,
    count: u32,
    picks: &mut Vec<BlockNo>,
) -> Result<(), OutOfMemory>
    requires zone { zone < queues_of geometry }
    requires few { length picks.old.items ≤ count }
    ensures { OnOk result ((v : Volume)
        → ShowsMarks marks.now (zone_marked geometry v zone)
        → picks.new.items ≡ take count (picks.old.items ++ free_of v (zone_blocks geometry zone))) }
{
    let size = geometry.zone();
    let start = geometry.meta() + zone.0 * size;
    let mut from = 0;
    while picks.len() < count as usize {
        let Some(k) = first_clear(marks, from, size) else {
            return Ok(());
        };
        picks.push(BlockNo(start + k))?;
        from = k + 1;
    }
    Ok(())
}

impl<'a> Working<'a> {
    /// Adds the free blocks of a zone, up to `count` picks in all. If there are that many already, the
    /// bitmap isn't looked at.
    fn search(
        &self,
        alloc: Global,
        zone: QueueNo,
        count: u32,
        picks: &mut Vec<BlockNo>,
    ) -> Result<(), Missing>
        requires possible { HasVolume self.now }
        requires zone { zone < queues_of self.now.geometry }
        requires few { length picks.old.items ≤ count }
        ensures ok { OnOk result (OfEach self.now
            (λ v. picks.new.items ≡ take count
            (picks.old.items ++ free_of v (zone_blocks self.now.geometry zone)))) }
        ensures marks { OnOk result (All (IsMarkable self.now.geometry (pages_of self.now)) picks.old.items
            → All (IsMarkable self.now.geometry (pages_of self.now)) picks.new.items) }
        ensures lack { IfErr result (MissingOf self.now (λ v b. (b ≡ zone_bitmap_of zone)
            × (length picks.old.items < count))) }
    {
        if picks.len() >= count as usize {
            return Ok(());
        }
        let marks = self.content(alloc, zone_bitmap(self.geometry, zone))?;
        push_free(self.geometry, marks, zone, count, picks)?;
        Ok(())
    }

    /// The first free blocks, at most `count`.
    fn found(&self, alloc: Global, queue: QueueNo, count: u32) -> Result<Vec<BlockNo>, Missing>
        requires possible { HasVolume self.now }
        requires queue { queue < queues_of self.now.geometry }
        ensures ok { IfOk result (λ picks. OfEach self.now
            (λ v. picks.items ≡ take count (free_of v (order self.now.geometry queue)))) }
        ensures marks { IfOk result (λ picks. All
            (IsMarkable self.now.geometry (pages_of self.now)) picks.items) }
        ensures lack { IfErr result (MissingOf self.now
            (λ v b. IsSearched self.now.geometry queue v count b)) }
    {
        let mut picks = Vec::new(alloc);
        self.search(alloc, queue, count, &mut picks)?;
        for zone in 0..self.geometry.queues() {
            if zone != queue.0 {
                self.search(alloc, QueueNo(zone), count, &mut picks)?;
            }
        }
        Ok(picks)
    }

    /// The first `count` free blocks: of the zone of the queue, then of the other zones in rising
    /// order. `None` if fewer are free. No further bitmap is looked at once there are enough.
    pub fn pick(
        &self,
        alloc: Global,
        queue: QueueNo,
        count: u32,
    ) -> Result<Option<Vec<BlockNo>>, Missing>
        requires possible { HasVolume self.now }
        requires queue { queue < queues_of self.now.geometry }
        ensures ok { IfOk result (λ found. OfEach self.now
            (λ v. MatchOption found (free_blocks self.now.geometry v < count)
            (λ picks. ArePicked self.now.geometry queue v count picks.items))) }
        ensures marks { IfOk result (λ found. MatchOption found ⊤
            (λ picks. All (IsMarkable self.now.geometry (pages_of self.now)) picks.items)) }
        ensures lack { IfErr result (MissingOf self.now
            (λ v b. IsSearched self.now.geometry queue v count b)) }
    {
        let picks = self.found(alloc, queue, count)?;
        if picks.len() < count as usize {
            return Ok(None);
        }
        Ok(Some(picks))
    }
}
