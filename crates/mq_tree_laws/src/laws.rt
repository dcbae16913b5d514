// What holds of paths and of file numbers.
ghost use Rattle.std.specs.Prelude.{◌≡◌, ◌<◌, ◌↔◌, ℕ, List, Option, Some, IsSome};
ghost use Rattle.mq_blocks.specs.declared.geometry.Geometry.{Geometry};
ghost use Rattle.mq_layout.specs.Places.{inodes_of};
ghost use Rattle.mq_layout.specs.Slots.{Entry};
ghost use Rattle.mq_tree.specs.Sound.{IsSound};
ghost use Rattle.mq_tree.specs.Volume.{Dir, File, Path, Volume, body, node, tree};
ghost use Rattle.mq_tree_laws.specs.Maps.{IsFile, IsFiniteMap, bytes_of, named_at, thing_of};
ghost use Rattle.mq_tree_laws.specs.Paths.{HasPaths};

/// The tree of a sound volume is two finite maps: from paths to directories and file numbers, and from file
/// numbers to bytes. A file number has bytes exactly where some path names it.
pub fn a_tree_is_two_maps()
    ensures tree { (v : Volume) (path : Path) → tree v path ≡ thing_of (bytes_of v) (named_at v path) }
    ensures named { (g : Geometry) (v : Volume) (number : ℕ)
        → IsSound g v
        → IsSome (bytes_of v number) ↔ ((path : Path) × (named_at v path ≡ Some (IsFile number))) }
    ensures paths { (g : Geometry) (v : Volume) → IsSound g v → IsFiniteMap (named_at v) }
    ensures numbers { (g : Geometry) (v : Volume) → IsSound g v → IsFiniteMap (bytes_of v) }
    ensures below { (g : Geometry) (v : Volume) (number : ℕ)
        → IsSound g v
        → IsSome (bytes_of v number)
        → number < inodes_of g }
{}

/// The links that a sound volume stores of a file are the number of its paths. So are a directory's, which
/// has one path.
pub fn links_are_paths()
    ensures files { (g : Geometry) (v : Volume) (i : ℕ) (bytes : List ℕ)
        → IsSound g v
        → body v i ≡ File bytes
        → HasPaths v i (node v i).links }
    ensures directories { (g : Geometry) (v : Volume) (i : ℕ) (slots : List (Option Entry))
        → IsSound g v
        → body v i ≡ Dir slots
        → HasPaths v i (node v i).links }
{}
