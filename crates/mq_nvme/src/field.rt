// Fields of entries.
use crate::Dwords;

/// A field of entries: `WIDTH` bits of dword `DWORD`, from bit `LOW` on.
pub struct Field<const DWORD: usize, const LOW: u32, const WIDTH: u32>;

impl<const DWORD: usize, const LOW: u32, const WIDTH: u32> Field<DWORD, LOW, WIDTH> {
    ghost use Rattle.std.specs.Prelude.{◌≡◌, ◌<◌, ◌≤◌, ◌↔◌, ◌^◌, IsTrue};
    ghost use Rattle.mq_nvme.specs.Dwords.{AreDwords};
    ghost use Rattle.mq_nvme.specs.Field.{IsWithin, place, get_field, set_field, AreSameOutside};

    /// Whether the field can hold a value.
    pub fn fits(value: u32) -> bool
        requires { WIDTH ≤ 32 }
        ensures { IsTrue result ↔ (value < 2 ^ WIDTH) }
    {
        u64::from(value) < 1 << WIDTH
    }

    /// What the field of an entry holds.
    pub fn get<T: Dwords>(entry: &T) -> u32
        requires { IsWithin T.count (place DWORD LOW WIDTH) }
        ensures is { result ≡ get_field (place DWORD LOW WIDTH) (T.dwords entry.now) }
        ensures fits { result < 2 ^ WIDTH }
        ensures are { AreDwords T.count (T.dwords entry.now) }
    {
        let dword = u64::from(entry.dword(DWORD));
        ((dword >> LOW) % (1 << WIDTH)) as u32
    }

    /// Puts a value into the field of an entry.
    pub fn set<T: Dwords>(entry: &mut T, value: u32)
        requires within { IsWithin T.count (place DWORD LOW WIDTH) }
        requires fits { value < 2 ^ WIDTH }
        ensures is { T.dwords entry.new ≡ set_field (place DWORD LOW WIDTH) value (T.dwords entry.old) }
        ensures value { get_field (place DWORD LOW WIDTH) (T.dwords entry.new) ≡ value }
        ensures others { AreSameOutside (place DWORD LOW WIDTH) (T.dwords entry.new) (T.dwords entry.old) }
    {
        let dword = u64::from(entry.dword(DWORD));
        let below = dword % (1 << LOW);
        let above = dword >> (LOW + WIDTH) << (LOW + WIDTH);
        entry.set_dword(DWORD, (above + ((u64::from(value) << LOW) + below)) as u32);
    }
}
