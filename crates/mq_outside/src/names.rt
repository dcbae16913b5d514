// Names, each with its bytes. Of two entries with one name, the first counts.
ghost use Rattle.std.specs.Prelude.{◌≡◌, OnOk, OnErr, position};
ghost use Rattle.std.specs.Option.{option_map};
ghost use Rattle.mq_outside.specs.Outside.{held_in, is_named, put_held};

use std::alloc::{AllocError, Global};

pub(crate) type Named = (String, Vec<u8>);

// The bytes that the name holds.
pub(crate) fn held<'a>(entries: &'a [Named], name: &str) -> Option<&'a [u8]>
    ensures { option_map (λ bytes. bytes.now) result ≡ held_in entries.now name.now }
{
    entries
        .iter()
        .find(|entry| entry.0.as_str() == name)
        .map(|entry| entry.1.as_slice())
}

// The place of the name's entry.
fn place(entries: &[Named], name: &str) -> Option<usize>
    ensures { result ≡ position (is_named name.now) entries.now }
{
    entries.iter().position(|entry| entry.0.as_str() == name)
}

// Makes the name hold the bytes.
pub(crate) fn put(
    entries: &mut Vec<Named>,
    alloc: Global,
    name: &str,
    bytes: &[u8],
) -> Result<(), AllocError>
    ensures ok { OnOk result (held_in entries.new.items ≡ put_held
        (held_in entries.old.items) name.now bytes.now) }
    ensures err { OnErr result (entries.new.items ≡ entries.old.items) }
{
    let copy = Vec::from_slice(alloc, bytes)?;
    match place(entries.as_slice(), name) {
        Some(at) => entries[at].1 = copy,
        None => entries.push((String::from_str(alloc, name)?, copy))?,
    }
    Ok(())
}
