// The names of files and directories.
ghost use Rattle.std.specs.Prelude.{◌≡◌, ◌↔◌, IsTrue};
ghost use Rattle.std.specs.List.{list_all};
ghost use Rattle.mq_layout.specs.Names.{IsName, is_letter, is_name};

/// The greatest number of bytes of a name.
const NAME_LIMIT: usize = 255;

fn are_letters(name: &[u8]) -> bool
    ensures { result ≡ list_all is_letter name.now }
{
    name.iter().all(|b| *b > 32 && *b < 127 && *b != b'/')
}

/// Whether these bytes are a good name: 1 to 255 bytes from 21h to 7Eh and not `/`, and neither `.`
/// nor `..`.
#[tactic(auto, unfolding(crate::specs::Names::is_name))]
pub fn is_good_name(name: &[u8]) -> bool
    ensures is { result ≡ is_name name.now }
    ensures good { IsTrue result ↔ IsName name.now }
{
    !name.is_empty()
        && name.len() <= NAME_LIMIT
        && are_letters(name)
        && name != b".".as_slice()
        && name != b"..".as_slice()
}
