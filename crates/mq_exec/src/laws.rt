// What holds of pages and the volumes of which they may be a part.
ghost use Rattle.std.specs.Prelude.{◌≡◌, ◌↔◌, ℕ, List, Option, Some};
ghost use Rattle.std.specs.List.{Contains};
ghost use Rattle.mq_blocks.specs.Machine.{Map, Transaction, after};
ghost use Rattle.mq_blocks.specs.declared.geometry.Geometry.{Geometry};
ghost use Rattle.mq_exec.specs.Moves.{IsChangeOf, KeepsRest, LeadsTo, Moves};
ghost use Rattle.mq_inodes.specs.Fits.{Agrees};
ghost use Rattle.mq_inodes.specs.Differences.{Differs};
ghost use Rattle.mq_inodes.specs.Changes.{IsOfFile};
ghost use Rattle.mq_inodes.specs.Pages.{Pages};
ghost use Rattle.mq_pages.specs.declared.page.Kind.TheVariants.{Data};
ghost use Rattle.mq_pages.specs.declared.page.Write.{Write};
ghost use Rattle.mq_tree.specs.Laid.{IsLaid};
ghost use Rattle.mq_tree.specs.Sound.{IsSound};
ghost use Rattle.mq_tree.specs.Volume.{Volume};

/// Pages of a map may be a part of the volume that lies on it.
pub fn pages_of_a_map()
    ensures { (g : Geometry) (map : Map) (pages : Pages) (v : Volume)
        → IsLaid g map v
        → ((b : ℕ) (page : Option (List ℕ)) → pages b ≡ Some page → map b ≡ page)
        → Agrees g pages v }
{}

/// What a group writes and frees is determined by the volumes before it and after it.
pub fn a_change_is_determined()
    ensures { (g : Geometry) (v w : Volume) (writes others : List Write) (frees rest : List ℕ)
        → Moves g v w writes frees
        → Moves g v w others rest
        → (writes ≡ others) × (frees ≡ rest) }
{}

/// Where pages lead from one volume to the next, it is the difference of the pages, each block with the
/// kind of its use.
pub fn a_difference_is_the_change()
    ensures { (g : Geometry) (view changed : Pages) (v w : Volume) (writes : List Write) (frees : List ℕ)
        → LeadsTo g view changed v w
        → Differs view changed writes frees
        → ((x : Write) → Contains writes x → (x.kind ≡ Data) ↔ IsOfFile w x.block)
        → Moves g v w writes frees }
{}

/// The volume after a group lies on the map after its transaction.
pub fn a_map_follows()
    ensures { (g : Geometry) (map : Map) (v w : Volume) (writes : List Write) (frees : List ℕ)
        (t : Transaction)
        → IsLaid g map v
        → IsSound g w
        → Moves g v w writes frees
        → KeepsRest g v w writes frees
        → IsChangeOf t writes frees
        → IsLaid g (after map t) w }
{}
