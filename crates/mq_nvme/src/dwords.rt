// Dwords, and dwords as bytes.
ghost use Rattle.std.specs.Prelude.{◌≡◌, ◌*◌, ◌<◌, ◌≤◌, ℕ, List, length, slice_index, slice_set};
ghost use Rattle.mq_nvme.specs.Dwords.{AreDwords, dword_bytes};

use byteorder::{ByteOrder, LittleEndian};

/// An entry as its dwords.
pub trait Dwords {
    // How many there are.
    ghost count: { ℕ };

    ghost dwords: { Self → List ℕ };

    /// One dword.
    fn dword(&self, at: usize) -> u32
        requires { at < count }
        ensures are { AreDwords count (dwords self.now) }
        ensures is { result ≡ slice_index (dwords self.now) at };

    /// Replaces one dword.
    fn set_dword(&mut self, at: usize, value: u32)
        requires { at < count }
        ensures are { AreDwords count (dwords self.old) }
        ensures is { dwords self.new ≡ slice_set (dwords self.old) at value };
}

// Writes the bytes of dwords.
#[tactic(auto, unfolding(crate::specs::Dwords::dword_bytes))]
pub fn write_dwords(dwords: &[u32], into: &mut [u8])
    requires { length into.old ≡ 4 * length dwords.now }
    ensures dwords { AreDwords (length dwords.now) dwords.now }
    ensures bytes { into.new ≡ dword_bytes dwords.now }
{
    LittleEndian::write_u32_into(dwords, into);
}

// Reads the dwords of bytes.
#[tactic(auto, unfolding(crate::specs::Dwords::dword_bytes))]
pub fn read_dwords(bytes: &[u8], into: &mut [u32])
    requires { length bytes.now ≡ 4 * length into.old }
    ensures dwords { AreDwords (length into.old) into.new }
    ensures bytes { dword_bytes into.new ≡ bytes.now }
{
    LittleEndian::read_u32_into(bytes, into);
}
