// Paths, names and bytes, as requests and replies have them.
use std::marker::Model;

/// The name of a file or a directory, which need not be a good one.
#[derive(Drop)]
pub struct Name(pub Vec<u8>);

impl Model for Name {
    ghost use Rattle.std.specs.Prelude.{ℕ, List};

    ghost Value = { List ℕ };

    ghost view = { λ n. n.0.items };
}

/// The names from the root on; none for the path of the root.
#[derive(Drop)]
pub struct Path(pub Vec<Name>);

impl Model for Path {
    ghost use Rattle.std.specs.Prelude.{ℕ, List};

    ghost Value = { List (List ℕ) };

    ghost view = { λ p. p.0.items };
}

/// Bytes of a file.
#[derive(Drop)]
pub struct Bytes(pub Vec<u8>);

impl Model for Bytes {
    ghost use Rattle.std.specs.Prelude.{ℕ, List};

    ghost Value = { List ℕ };

    ghost view = { λ b. b.0.items };
}

/// The names in a directory.
#[derive(Drop)]
pub struct Names(pub Vec<Name>);

impl Model for Names {
    ghost use Rattle.std.specs.Prelude.{ℕ, List};

    ghost Value = { List (List ℕ) };

    ghost view = { λ n. n.0.items };
}
