// A run on an image.
ghost use Rattle.std.specs.Prelude.{◌≤◌, ◌^◌, ℕ, List, IfErr, IfOk, IsOkUnless};
ghost use Rattle.std.specs.Option.{ForSome};
ghost use Rattle.mq_blocks.specs.Descriptor.{Descriptor};
ghost use Rattle.mq_image.specs.Drives.{IsDrive};
ghost use Rattle.mq_image_run.specs.Drives.{AreKept, IsReady};
ghost use Rattle.mq_image_run.specs.Runs.{IsPlayedOn};
ghost use Rattle.mq_kv_run.specs.Drives.{IsNotPlayed, PlaysGroups};
ghost use Rattle.mq_kv_run.specs.Endings.{drive_options, finishes};
ghost use Rattle.mq_kv_run.specs.Limits.{HoldsStore};
ghost use Rattle.mq_kv_run.specs.Refusals.{RefusesStore};
ghost use Rattle.mq_kv_run.specs.Runs.{IsRunOf};

use crate::driving::{Played, play_on_ports};
use crate::ending::last_line;
use crate::options::KvOptions;
use crate::ran::KvRun;
use crate::refusal::KvRunRefusal;
use mq_image::DriveImage;
use mq_image_ops::a_recovered_image_holds_what_stood;
use mq_image_run::{PlayedImage, play_on_image};
use mq_kv_buckets::one_offset_is_the_first_bad;
use mq_kv_text::{KvGroup, KvReport};
use std::alloc::Global;
use std::sync::Wait;

// Plays groups on an image.
fn play_or_refuse<R: Wait>(
    rt: &R,
    alloc: Global,
    image: DriveImage,
    groups: &[KvGroup],
    options: KvOptions,
) -> Result<PlayedImage<Played>, KvRunRefusal>
    requires image { IsDrive image }
    requires cut { ForSome options.cut (λ k. k ≤ 2 ^ 63) }
    ensures ok { IfOk result (IsPlayedOn (PlaysGroups image.geometry groups.now (finishes options.cut))
        image (drive_options options)) }
    ensures refused { IfErr result (RefusesStore image) }
{
    let geometry = image.geometry;
    let finish = options.finishes();
    a_recovered_image_holds_what_stood();
    let played = play_on_image(
        alloc,
        image,
        options.drive(),
        |ports|
            requires { IsReady geometry ports }
            ensures ok { IfOk result (λ r. PlaysGroups geometry groups.entry.now finish ports.entry r.0 r.1) }
            ensures kept { IfOk result (λ r. AreKept geometry ports.entry r.1) }
            ensures refused { IfErr result (IsNotPlayed geometry ports.entry) }
        { play_on_ports(rt, alloc, geometry, ports, groups, finish) },
    );
    match played {
        Ok(left) => Ok(left),
        Err(unplayed) => Err(KvRunRefusal::from(unplayed)),
    }
}

// Recovers an image, and does groups on the drive that starts from it.
fn run_or_refuse<R: Wait>(
    rt: &R,
    alloc: Global,
    image: DriveImage,
    groups: &[KvGroup],
    options: KvOptions,
) -> Result<KvRun, KvRunRefusal>
    requires image { IsDrive image }
    requires cut { ForSome options.cut (λ k. k ≤ 2 ^ 63) }
    ensures ok { IfOk result (IsRunOf image groups.now options) }
    ensures refused { IfErr result (RefusesStore image) }
{
    a_recovered_image_holds_what_stood();
    let left = play_or_refuse(rt, alloc, image, groups, options)?;
    let played = left.played;
    let last = last_line(options.cut, left.events, played.finished)?;
    let report = KvReport {
        groups: played.reports,
        last,
    };
    Ok(KvRun {
        image: left.image,
        report,
    })
}

/// Recovers the drive that starts from an image, and does groups on the store that stands there, one after
/// another on one session, each durably. The power is that of the drive after the recovery. Once the run has
/// ended as it is asked to, the power of the drive is cut, and what that leaves is the new image. On out of
/// memory nothing is left of the run.
pub fn run_groups<R: Wait>(
    rt: &R,
    alloc: Global,
    image: DriveImage,
    groups: &[KvGroup],
    options: KvOptions,
) -> Result<KvRun, KvRunRefusal>
    requires image { IsDrive image }
    requires cut { ForSome options.cut (λ k. k ≤ 2 ^ 63) }
    ensures ok { IfOk result (IsRunOf image groups.now options) }
    ensures refused { IfErr result (RefusesStore image) }
    // An image within the limits on which a store stands is refused only as out of memory.
    ensures complete { (ds : List Descriptor) (top : ℕ)
        → HoldsStore image ds top
        → IsOkUnless result KvRunRefusal.OutOfMemory }
{
    one_offset_is_the_first_bad();
    run_or_refuse(rt, alloc, image, groups, options)
}
