// A replica.
ghost use Rattle.std.specs.Prelude.{◌≡◌, ◌⊎◌, ◌<◌, ◌^◌, ◌+◌, ℕ, [], false, IfErr, IfOk, MatchResult, vec_capacity, Ok, Err};
ghost use Rattle.mq_replica.specs.Held.{IsKeeping};

use crate::certain::CertainPort;
use crate::held::Held;
use crate::number::number_in;
use crate::offering::try_update;
use crate::plan::last_home;
use crate::update::{OfferRefusal, Update};
use crate::wrapping::{held_ports, unwrap_ports, wrap_ports};
use mq_blocks::{Block, Geometry, OutOfMemory, TxNo};
use mq_drive::{Port, Ports};
use mq_recover::{ImageFault, RecoverRefusal, read_home, recover};
use std::alloc::Global;

/// A drive of one queue that follows a history of updates, which are offered to it in any order and any
/// number of times. Its last home block says how far it has come.
pub type Replica<P> = Follower<CertainPort<P>, P>;

/// A replica over ports `Q`, each of which stands over a port `P`.
#[derive(Drop)]
pub struct Follower<Q: Port, P> {
    geometry: Geometry,
    reached: TxNo,
    offers: u64,
    // only a call under way holds nothing
    held: Option<Held<Q>>,
    // where the queue's port goes at the end, so that this takes no memory
    spare: Vec<P>,
    ghost keeping: { ∥ IsKeeping Q.state Q.faults geometry offers held ∥₁ },
    ghost empty: { spare.items ≡ [] },
    ghost room: { 0 < vec_capacity spare },
}

impl<P: Port + Drop> Replica<P> {
    ghost use Rattle.mq_recover.specs.Drives.{IsQuiescentDrive, drive_of, faults_on};
    ghost use Rattle.mq_recover.specs.Images.{RefusesImage};
    ghost use Rattle.mq_recover.specs.RecoverCauses.{HasDriveCause};
    ghost use Rattle.mq_replica.specs.Offers.{IsOpenRefused, IsOpenedOn, MayOpen, Offers};
    ghost use Rattle.mq_replica.specs.Replicas.{replica_state};
    ghost use Rattle.mq_replica.specs.Updates.{AreWritesRising};
    ghost use Rattle.mq_replica.specs.Views.{below, faults_below};

    /// Recovers a drive, and reads how far it has come. A refusal gives the ports back; after `Off` and
    /// `Failed` it may be opened again on what a power cut leaves.
    pub fn open(
        alloc: Global,
        geometry: Geometry,
        ports: Ports<P>,
    ) -> Result<Replica<P>, (Ports<P>, RecoverRefusal)>
        requires { MayOpen geometry (drive_of P.state ports) }
        ensures ok { IfOk result (λ r. IsOpenedOn geometry (drive_of P.state ports)
            (replica_state (below P.state) (faults_below P.faults) r)) }
        ensures faults { IfOk result (λ r.
            (replica_state (below P.state) (faults_below P.faults) r).faults ≡ faults_on P.faults ports) }
        ensures refused { IfErr result (λ e.
            IsOpenRefused geometry (drive_of P.state ports) e.1 (drive_of P.state e.0)) }
        ensures image { (fault : ImageFault)
            → IfErr result (λ e. e.1 ≡ RecoverRefusal.Image fault
            → (fault ≡ ImageFault.OutOfMemory) ⊎ RefusesImage geometry (drive_of P.state ports) fault) }
        ensures exact { (fault : ImageFault)
            → RefusesImage geometry (drive_of P.state ports) fault
            → MatchResult result (λ _. ⊥) (λ e. (e.1 ≡ RecoverRefusal.Image fault)
            ⊎ (e.1 ≡ RecoverRefusal.Image ImageFault.OutOfMemory)) }
        ensures cause { IfErr result (λ e. HasDriveCause {A = Unit {0}} geometry (Err e.1)
            (faults_on P.faults ports) (faults_on P.faults e.0)) }
    {
        let mut block = match Block::zeroed(alloc) {
            Ok(block) => block,
            Err(OutOfMemory) => {
                return Err((ports, RecoverRefusal::Image(ImageFault::OutOfMemory)));
            }
        };
        let (mut ports, spare) = match wrap_ports(alloc, ports) {
            Ok(wrapped) => wrapped,
            Err(ports) => {
                return Err((ports, RecoverRefusal::Image(ImageFault::OutOfMemory)));
            }
        };
        if let Err(refusal) = recover(alloc, geometry, &mut ports) {
            return Err((unwrap_ports(ports, spare), refusal));
        }
        read_home(geometry, &ports, last_home(geometry), &mut block);
        Ok(Follower {
            geometry,
            reached: number_in(&block),
            offers: 0,
            held: Some(Held::Apart(ports)),
            spare,
        })
    }

    /// The number of the last update that was applied.
    pub fn reached(&self) -> TxNo
        ensures { result ≡ (replica_state (below P.state) (faults_below P.faults) self.now).reached }
    {
        self.reached
    }

    /// How many updates were offered to it since it was opened.
    pub fn offers(&self) -> u64
        ensures { result ≡ (replica_state (below P.state) (faults_below P.faults) self.now).offers }
    {
        self.offers
    }

    /// Offers an update. It is applied where its number is the next, and drained; else nothing is done.
    /// Returns the number that was reached. After `Off` and `Failed` the replica takes no more, and its
    /// ports may be opened again on what a power cut leaves; after each other refusal the call may be made
    /// again.
    pub fn offer(&mut self, alloc: Global, update: &Update) -> Result<TxNo, OfferRefusal>
        requires rising { AreWritesRising update.now.writes }
        requires few { (replica_state (below P.state) (faults_below P.faults) self.old).offers < 2 ^ 48 }
        ensures { Offers (replica_state (below P.state) (faults_below P.faults) self.old) update.now result
            (replica_state (below P.state) (faults_below P.faults) self.new) }
    {
        self.offers += 1;
        if self.reached.0.checked_add(1) != Some(update.number.0) {
            return Ok(self.reached);
        }
        let geometry = self.geometry;
        let reached = self.reached;
        let place = &mut self.held;
        let Some(held) = place.take() else {
            unreachable!()
        };
        let (held, answer) = try_update(alloc, geometry, reached, held, update);
        *place = Some(held);
        if let Ok(number) = answer {
            self.reached = number;
        }
        answer
    }

    /// The ports, as they are. It takes no memory. Unless the drive stopped the replica, nothing is under way on
    /// them.
    pub fn into_ports(self) -> Ports<P>
        ensures drive { drive_of P.state result
            ≡ (replica_state (below P.state) (faults_below P.faults) self).drive }
        ensures faults { faults_on P.faults result
            ≡ (replica_state (below P.state) (faults_below P.faults) self).faults }
        ensures quiet { (replica_state (below P.state) (faults_below P.faults) self).stopped ≡ false
            → IsQuiescentDrive (replica_state (below P.state) (faults_below P.faults) self).geometry
            (drive_of P.state result) }
    {
        let Follower { held, spare, .. } = self;
        match held {
            Some(held) => unwrap_ports(held_ports(held), spare),
            None => unreachable!(),
        }
    }
}
