// Scripts whose groups and requests can be counted.
ghost use Rattle.std.specs.Prelude.{IsTrue};
ghost use Rattle.std.specs.List.{All};
ghost use Rattle.mq_run.specs.Playing.{IsShort};

use mq_script::Script;

// Whether groups and requests of a script can be counted in 32 bits.
fn is_countable(script: &Script) -> bool
    ensures short { IsTrue result → IsShort script.now.groups }
    ensures exact { IsShort script.now.groups → IsTrue result }
{
    if script.groups.len() > u32::MAX as usize {
        return false;
    }
    for group in &script.groups {
        if group.requests.len() > u32::MAX as usize {
            return false;
        }
    }
    true
}

/// Whether groups and requests of all scripts can be counted in 32 bits.
pub fn are_countable(scripts: &[Script]) -> bool
    ensures short { IsTrue result → All (λ s. IsShort s.groups) scripts.now }
    ensures exact { All (λ s. IsShort s.groups) scripts.now → IsTrue result }
{
    for script in scripts {
        if !is_countable(script) {
            return false;
        }
    }
    true
}
