// What requests keep, and what they do to the tree.
ghost use Rattle.std.specs.Prelude.{◌≡◌, ◌<◌, ◌⊎◌, ℕ, true, false, List, [], length, take, drop, Some};
ghost use Rattle.std.specs.List.{All, list_all};
ghost use Rattle.mq_blocks.specs.Geometry.{queues_of};
ghost use Rattle.mq_blocks.specs.declared.geometry.Geometry.{Geometry};
ghost use Rattle.mq_layout.specs.Names.{is_name};
ghost use Rattle.mq_tree.specs.Faults.{IsFault, IsFull};
ghost use Rattle.mq_tree.specs.Kept.{HasBytes, IsAdded, IsBare, IsCut, IsLinked, IsListed, IsRemoved, IsRenamed, IsRewritten, IsSpliced};
ghost use Rattle.mq_tree.specs.Requests.{after_group, cut_to, is_change, is_named, spliced, step};
ghost use Rattle.mq_tree.specs.Sound.{AreBytes, IsSound};
ghost use Rattle.mq_tree.specs.Volume.{ADir, AFile, Path, Volume, tree};
ghost use Rattle.mq_tree.specs.declared.request.Fault.{Fault};
ghost use Rattle.mq_tree.specs.declared.request.Fault.TheVariants.{BadName};
ghost use Rattle.mq_tree.specs.declared.request.Reply.TheVariants.{Ok as Done, Data, File as Size, Refused};
ghost use Rattle.mq_tree.specs.declared.request.Request.{Request};
ghost use Rattle.mq_tree.specs.declared.request.Request.TheVariants.{Mkdir, Create, Write, Truncate, Unlink, Rmdir, Rename, Link, Read, Stat};

/// A sound volume stays sound under every request of every queue, and so under every group.
pub fn a_group_keeps_a_volume_sound()
    ensures request { (g : Geometry) (queue : ℕ) (v : Volume) (r : Request)
        → IsSound g v
        → queue < queues_of g
        → HasBytes r
        → IsSound g (step g queue v r).next }
    ensures group { (g : Geometry) (queue : ℕ) (v : Volume) (requests : List Request)
        → IsSound g v
        → queue < queues_of g
        → All HasBytes requests
        → IsSound g (after_group g queue v requests) }
{}

/// Where nothing stood, `Mkdir` and `Create` leave a directory and an empty file, and nothing else
/// changes in the tree.
pub fn new_things_are_added()
    ensures mkdir { (g : Geometry) (queue : ℕ) (v : Volume) (path : Path)
        → IsSound g v
        → queue < queues_of g
        → (step g queue v (Mkdir path)).reply ≡ Done
        → IsAdded v (step g queue v (Mkdir path)).next path ADir }
    ensures create { (g : Geometry) (queue : ℕ) (v : Volume) (path : Path)
        → IsSound g v
        → queue < queues_of g
        → (step g queue v (Create path)).reply ≡ Done
        → IsAdded v (step g queue v (Create path)).next path (AFile []) }
{}

/// The file at the path of a `Write` or a `Truncate` has other bytes, and nothing else changes in the
/// tree.
pub fn files_are_rewritten()
    ensures write { (g : Geometry) (queue : ℕ) (v : Volume) (path : Path) (at : ℕ) (bytes : List ℕ)
        → IsSound g v
        → queue < queues_of g
        → AreBytes bytes
        → (step g queue v (Write path at bytes)).reply ≡ Done
        → IsRewritten v (step g queue v (Write path at bytes)).next path (λ old. spliced at bytes old) }
    ensures truncate { (g : Geometry) (queue : ℕ) (v : Volume) (path : Path) (size : ℕ)
        → IsSound g v
        → queue < queues_of g
        → (step g queue v (Truncate path size)).reply ≡ Done
        → IsRewritten v (step g queue v (Truncate path size)).next path (λ old. cut_to size old) }
    ensures spliced { (at : ℕ) (bytes old : List ℕ) → IsSpliced at bytes old (spliced at bytes old) }
    ensures cut { (size : ℕ) (old : List ℕ) → IsCut size old (cut_to size old) }
{}

/// The file at the path of an `Unlink`, or the empty directory at that of an `Rmdir`, is gone, and
/// nothing else changes in the tree.
pub fn things_are_removed()
    ensures unlink { (g : Geometry) (queue : ℕ) (v : Volume) (path : Path)
        → IsSound g v
        → (step g queue v (Unlink path)).reply ≡ Done
        → (old : List ℕ) × IsRemoved v (step g queue v (Unlink path)).next path (AFile old) }
    ensures rmdir { (g : Geometry) (queue : ℕ) (v : Volume) (path : Path)
        → IsSound g v
        → (step g queue v (Rmdir path)).reply ≡ Done
        → IsRemoved v (step g queue v (Rmdir path)).next path ADir × IsBare v path }
{}

/// What stood at the first path of a `Rename`, and below it, stands at the second, and nothing else
/// changes in the tree.
pub fn things_are_renamed()
    ensures rename { (g : Geometry) (queue : ℕ) (v : Volume) (from to : Path)
        → IsSound g v
        → queue < queues_of g
        → (step g queue v (Rename from to)).reply ≡ Done
        → IsRenamed v (step g queue v (Rename from to)).next from to }
{}

/// The file at the first path of a `Link` has the second path, too, and nothing else changes in the tree.
pub fn files_are_linked()
    ensures link { (g : Geometry) (queue : ℕ) (v : Volume) (from to : Path)
        → IsSound g v
        → queue < queues_of g
        → (step g queue v (Link from to)).reply ≡ Done
        → IsLinked v (step g queue v (Link from to)).next from to }
{}

/// A request that is refused and one that only reads leave the volume as it is. One that may change
/// the tree answers `Ok` or is refused.
pub fn refusals_change_nothing()
    ensures refused { (g : Geometry) (queue : ℕ) (v : Volume) (r : Request) (fault : Fault)
        → (step g queue v r).reply ≡ Refused fault
        → (step g queue v r).next ≡ v }
    ensures reads { (g : Geometry) (queue : ℕ) (v : Volume) (r : Request)
        → is_change r ≡ false
        → (step g queue v r).next ≡ v }
    ensures answers { (g : Geometry) (queue : ℕ) (v : Volume) (r : Request)
        → is_change r ≡ true
        → ((step g queue v r).reply ≡ Done)
        ⊎ ((fault : Fault) × ((step g queue v r).reply ≡ Refused fault)) }
{}

/// `Read`, `Stat` and `List` answer what the tree has at their path.
pub fn replies_are_those_of_the_tree()
    ensures read { (g : Geometry) (queue : ℕ) (v : Volume) (path : Path) (at count : ℕ) (bytes : List ℕ)
        → IsSound g v
        → list_all is_name path ≡ true
        → tree v path ≡ Some (AFile bytes)
        → (step g queue v (Read path at count)).reply ≡ Data (take count (drop at bytes)) }
    ensures size { (g : Geometry) (queue : ℕ) (v : Volume) (path : Path) (bytes : List ℕ)
        → IsSound g v
        → list_all is_name path ≡ true
        → tree v path ≡ Some (AFile bytes)
        → (step g queue v (Stat path)).reply ≡ Size (length bytes) }
    ensures listed { (g : Geometry) (queue : ℕ) (v : Volume) (path : Path)
        → IsSound g v
        → list_all is_name path ≡ true
        → tree v path ≡ Some ADir
        → IsListed g queue v path }
{}

/// A request is refused exactly for what stands at its paths, or, where nothing there is in the way,
/// because there is no room.
pub fn refusals_are_those_of_the_tree()
    ensures names { (g : Geometry) (queue : ℕ) (v : Volume) (r : Request)
        → is_named r ≡ false
        → (step g queue v r).reply ≡ Refused BadName }
    ensures refused { (g : Geometry) (queue : ℕ) (v : Volume) (r : Request) (fault : Fault)
        → IsSound g v
        → is_named r ≡ true
        → IsFault v r fault
        → (step g queue v r).reply ≡ Refused fault }
    ensures room { (g : Geometry) (queue : ℕ) (v : Volume) (r : Request) (fault : Fault)
        → IsSound g v
        → is_named r ≡ true
        → IsFull g queue v r fault
        → (step g queue v r).reply ≡ Refused fault }
    ensures only { (g : Geometry) (queue : ℕ) (v : Volume) (r : Request) (fault : Fault)
        → IsSound g v
        → is_named r ≡ true
        → (step g queue v r).reply ≡ Refused fault
        → IsFault v r fault ⊎ IsFull g queue v r fault }
{}
