// What holds of every geometry.
ghost use Rattle.std.specs.Prelude.{◌≡◌, ◌≢◌, ◌<◌, ◌≤◌, ◌+◌, ◌*◌, ◌%◌, ℕ};
ghost use Rattle.mq_blocks.specs.Geometry.{queues_of, area_of, homes_of, home_lba, area_lba, blocks_of_drive};
ghost use Rattle.mq_blocks.specs.declared.geometry.Geometry.{Geometry};

/// Two places have one address only where they are the same block of the same area: places of two
/// queues never, and of one queue only where they are a multiple of the area apart. Two home blocks
/// never have one address, nor a place and a home block. All addresses are those of blocks of the
/// drive, the areas' before the home blocks', and there are at most 294,912 blocks.
pub fn addresses_are_apart()
    ensures areas { (g : Geometry) (q r place other : ℕ)
        → area_lba g q place ≡ area_lba g r other
        → (q ≡ r) × (place % area_of g ≡ other % area_of g) }
    ensures places { (g : Geometry) (q place other : ℕ)
        → place < other
        → other < place + area_of g
        → area_lba g q place ≢ area_lba g q other }
    ensures homes { (g : Geometry) (b c : ℕ) → home_lba g b ≡ home_lba g c → b ≡ c }
    ensures kinds { (g : Geometry) (q place b : ℕ) → q < queues_of g → area_lba g q place < home_lba g b }
    ensures range { (g : Geometry) (b : ℕ) → b < homes_of g → home_lba g b < blocks_of_drive g }
    ensures size { (g : Geometry) → blocks_of_drive g ≤ 294912 }
{}
