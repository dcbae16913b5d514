// Where blocks lie.
ghost use Rattle.std.specs.Prelude.{◌≡◌, ◌≢◌, ◌<◌, ◌≤◌, ◌+◌, ◌*◌, ◌^◌, ◌⊎◌, ◌↔◌, IsErrOf, IsOk, IfOk, IsNone, IfSome};

use crate::{BlockNo, LIST_LIMIT, Lba, QueueNo};

/// The shape of a drive: its queues, the blocks of each queue's journal area, and its home blocks,
/// which are a metadata region and one zone for each queue.
#[derive(Clone, Copy, PartialEq, Eq)]
pub struct Geometry {
    queues: u32,
    area: u32,
    meta: u32,
    zone: u32,
    ghost queues_low: { 1 ≤ queues },
    ghost queues_high: { queues ≤ 16 },
    ghost area_low: { 1024 ≤ area },
    ghost area_high: { area ≤ 16384 },
    ghost meta_low: { queues + 3 ≤ meta },
    ghost zone_low: { 1 ≤ zone },
    ghost homes_high: { meta + queues * zone ≤ 32768 },
}

/// Why four numbers are not a geometry: the first that is out of its range.
#[derive(Clone, Copy, PartialEq, Eq)]
pub enum GeometryRefusal {
    Queues { found: u32 },
    Area { found: u32 },
    Homes { meta: u32, zone: u32 },
}

impl Geometry {
    ghost use Rattle.mq_blocks.specs.Geometry.{queues_of, area_of, meta_of, zone_size, homes_of};
    ghost use Rattle.mq_blocks.specs.Geometry.{home_lba, zone_of, area_lba, write_limit, IsQueues, IsArea, AreHomes};

    /// The geometry of these numbers. The first number that is out of its range is refused.
    pub fn new(queues: u32, area: u32, meta: u32, zone: u32) -> Result<Geometry, GeometryRefusal>
        ensures ok { IfOk result (λ g. (queues_of g ≡ queues)
            × (area_of g ≡ area)
            × (meta_of g ≡ meta)
            × (zone_size g ≡ zone)) }
        ensures good { IsQueues queues → IsArea area → AreHomes queues meta zone → IsOk result }
        ensures queues { IsErrOf result (GeometryRefusal.Queues queues) ↔ (IsQueues queues → ⊥) }
        ensures area { IsErrOf result (GeometryRefusal.Area area) ↔ (IsQueues queues × (IsArea area → ⊥)) }
        ensures homes { IsErrOf result (GeometryRefusal.Homes meta zone)
            ↔ (IsQueues queues × IsArea area × (AreHomes queues meta zone → ⊥)) }
    {
        if !(1..=16).contains(&queues) {
            return Err(GeometryRefusal::Queues { found: queues });
        }
        if !(1024..=16384).contains(&area) {
            return Err(GeometryRefusal::Area { found: area });
        }
        let homes = u64::from(meta) + u64::from(queues) * u64::from(zone);
        if meta < queues + 3 || zone == 0 || homes > 32768 {
            return Err(GeometryRefusal::Homes { meta, zone });
        }
        Ok(Geometry {
            queues,
            area,
            meta,
            zone,
        })
    }

    pub fn queues(&self) -> u32
        ensures { result ≡ queues_of self.now }
    {
        self.queues
    }

    /// The number of blocks of one queue's journal area.
    pub fn area(&self) -> u32
        ensures { result ≡ area_of self.now }
    {
        self.area
    }

    /// The number of blocks of the metadata region, which are the first home blocks.
    pub fn meta(&self) -> u32
        ensures { result ≡ meta_of self.now }
    {
        self.meta
    }

    /// The number of home blocks of one queue's zone.
    pub fn zone(&self) -> u32
        ensures { result ≡ zone_size self.now }
    {
        self.zone
    }

    /// The most blocks that one transaction may write.
    #[tactic(auto, unfolding(crate::specs::Geometry::write_limit))]
    pub fn write_limit(&self) -> u32
        ensures { result ≡ write_limit self.now }
    {
        if self.area < LIST_LIMIT + 24 {
            self.area - 24
        } else {
            LIST_LIMIT
        }
    }

    /// The number of home blocks.
    pub fn homes(&self) -> u32
        ensures { result ≡ homes_of self.now }
    {
        self.meta + self.queues * self.zone
    }

    /// The address of a home block in the namespace.
    pub fn home(&self, b: BlockNo) -> Lba
        requires { b < homes_of self.now }
        ensures { result ≡ home_lba self.now b }
    {
        Lba(self.queues * self.area + b.0)
    }

    /// The queue in whose zone a home block is, or `None` for the metadata region.
    pub fn zone_of(&self, b: BlockNo) -> Option<QueueNo>
        requires { b < homes_of self.now }
        ensures { result ≡ zone_of self.now b }
    {
        if b.0 < self.meta {
            return None;
        }
        Some(QueueNo((b.0 - self.meta) / self.zone))
    }

    /// The address of a place of a queue's journal area. Places are absolute counts of blocks,
    /// which wrap around the area.
    pub fn area_lba(&self, q: QueueNo, place: u64) -> Lba
        requires { q < queues_of self.now }
        ensures { result ≡ area_lba self.now q place }
    {
        let index = (place % u64::from(self.area)) as u32;
        Lba(q.0 * self.area + index)
    }
}
