// What holds of the trees of maps.
ghost use Rattle.std.specs.Prelude.{◌≡◌, ◌<◌, ℕ, List, [], ◌∷◌, Option, Some, None};
ghost use Rattle.mq_blocks.specs.Blocks.{block_at};
ghost use Rattle.mq_blocks.specs.Geometry.{homes_of};
ghost use Rattle.mq_blocks.specs.Machine.{Map};
ghost use Rattle.mq_blocks.specs.declared.geometry.Geometry.{Geometry};
ghost use Rattle.mq_layout.specs.Empty.{empty_block};
ghost use Rattle.mq_tree.specs.Clean.{IsClean};
ghost use Rattle.mq_tree.specs.Corrupt.{IsCorrupt};
ghost use Rattle.mq_tree.specs.Counts.{counts_in};
ghost use Rattle.mq_tree.specs.Decoded.{Stored, volume_in};
ghost use Rattle.mq_tree.specs.Empty.{ArePages, empty_volume};
ghost use Rattle.mq_tree.specs.Laid.{IsLaid, Laid, map_of};
ghost use Rattle.mq_tree.specs.ListText.{list_text};
ghost use Rattle.mq_tree.specs.Listings.{IsListing};
ghost use Rattle.mq_tree.specs.Requests.{verdict};
ghost use Rattle.mq_tree.specs.Sound.{IsSound};
ghost use Rattle.mq_tree.specs.Trees.{IsAlike};
ghost use Rattle.mq_tree.specs.Volume.{ADir, Layout, Path, Things, Volume, tree};
ghost use Rattle.mq_tree.specs.declared.corrupt.CorruptCause.{CorruptCause};
ghost use Rattle.mq_tree.specs.declared.request.Request.TheVariants.{Read};

/// A map has at most one volume, and so at most one tree, which lies on it in one way.
pub fn one_tree()
    ensures volume { (g : Geometry) (map : Map) (v w : Volume) → IsLaid g map v → IsLaid g map w → v ≡ w }
    ensures tree { (g : Geometry) (map : Map) (t u : Things) (a c : Layout)
        → Laid g map t a
        → Laid g map u c
        → (path : Path)
        → (t path ≡ u path) × (a path ≡ c path) }
{}

/// The tree of the blocks of an empty file system has only the root.
pub fn empty_tree()
    ensures laid { (g : Geometry) (stored : List (Option (List ℕ)))
        → ArePages stored
        → ((b : ℕ) → b < homes_of g → block_at stored b ≡ empty_block g b)
        → IsLaid g (map_of g stored) (empty_volume g) }
    ensures root { (g : Geometry) → tree (empty_volume g) [] ≡ Some ADir }
    ensures others { (g : Geometry) (name : List ℕ) (path : Path)
        → tree (empty_volume g) (name ∷ path) ≡ None }
{}

/// Stored blocks have a tree exactly where they are clean, and no cause holds at a block of clean ones.
pub fn clean_blocks()
    ensures laid { (g : Geometry) (s : Stored)
        → ArePages s
        → IsClean g s
        → IsLaid g (map_of g s) (volume_in g s) }
    ensures clean { (g : Geometry) (s : Stored) (v : Volume)
        → ArePages s
        → IsLaid g (map_of g s) v
        → IsClean g s }
    ensures only { (g : Geometry) (s : Stored) (v : Volume) → IsLaid g (map_of g s) v → volume_in g s ≡ v }
    ensures corrupt { (g : Geometry) (s : Stored) (cause : CorruptCause) (b : ℕ)
        → IsCorrupt g s cause b
        → IsClean g s
        → ⊥ }
{}

/// Trees that are alike have the same at each path, are listed and counted alike, and answer requests to
/// read alike.
pub fn alike_trees()
    ensures tree { (v w : Volume) → IsAlike v w → (path : Path) → tree v path ≡ tree w path }
    ensures text { (v w : Volume) → IsAlike v w → list_text v ≡ list_text w }
    ensures counts { (v w : Volume) → IsAlike v w → counts_in v ≡ counts_in w }
    ensures reads { (g : Geometry) (q : ℕ) (v w : Volume)
        → IsAlike v w
        → (path : Path) (at count : ℕ)
        → verdict g q v (Read path at count) ≡ verdict g q w (Read path at count) }
{}

/// The text that lists a sound volume has one line for each path of its tree, in rising order, and nothing
/// else. No other text has.
pub fn a_listing_has_each_path()
    ensures listing { (g : Geometry) (v : Volume) → IsSound g v → IsListing (tree v) (list_text v) }
    ensures only { (t : Things) (a b : List ℕ) → IsListing t a → IsListing t b → a ≡ b }
{}
