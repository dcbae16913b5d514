// The sessions of a run and their helpers, each with room for what is reported, and with a line of notices.
ghost use Rattle.std.specs.Prelude.{◌≡◌, ◌≤◌, ◌+◌, ◌^◌, ℕ, [], Some, IfOk, IfErr, length, map, slice_get, vec_len, vec_capacity};
ghost use Rattle.std.specs.List.{All};
ghost use Rattle.mq_blocks.specs.Geometry.{queues_of};
ghost use Rattle.mq_calls.specs.Helpers.{IsNewHelper};
ghost use Rattle.mq_calls.specs.Opening.{IsNewSession, IsOpenedOver, MayOpen};
ghost use Rattle.mq_recover.specs.Drives.{drive_of};
ghost use Rattle.mq_run.specs.Pairs.{AreOpen};
ghost use Rattle.mq_run.specs.Playing.{IsShort};
ghost use Rattle.mq_run.specs.Seating.{kit_of, room_for, room_of};
ghost use Rattle.mq_turns.specs.AtDesk.{AtDesk, chairs_of, start_of, view};

use crate::halves::Halves;
use crate::runner::{Assistant, HelperHalf, Pair, Runner, SessionHalf};
use mq_blocks::{Geometry, OutOfMemory};
use mq_calls::{FileMachine, Helper, Mqfs, Session};
use mq_drive::{Port, Ports};
use mq_notices::{HelperEnd, Line as NoticeLine, SessionEnd};
use mq_recover::Standing;
use mq_report::{Line, Told};
use mq_script::Script;
use std::alloc::Global;

// What a session and its helper need memory for: the answers, the lines of what is read, and the notices.
#[derive(Drop)]
struct Kit {
    told: Vec<Told>,
    reads: Vec<Line>,
    line: NoticeLine,
    announcing: SessionEnd,
    listening: HelperEnd,
}

// What the session of a script and its helper need.
fn make_kit(alloc: Global, script: &Script) -> Result<Kit, OutOfMemory>
    requires short { IsShort script.now.groups }
    ensures room { IfOk result (λ k. room_of k.told k.reads k.line ≡ room_for (length script.now.groups)) }
    ensures open { IfOk result (λ k. AreOpen k.line k.announcing k.listening) }
{
    let count = script.groups.len();
    let told = Vec::with_capacity(alloc, count)?;
    let reads = Vec::with_capacity(alloc, count)?;
    let (line, announcing, listening) = NoticeLine::open(alloc, count as u32)?;
    Ok(Kit {
        told,
        reads,
        line,
        announcing,
        listening,
    })
}

// What all sessions and their helpers need.
fn make_kits(alloc: Global, scripts: &[Script]) -> Result<Vec<Kit>, OutOfMemory>
    requires short { All (λ s. IsShort s.groups) scripts.now }
    ensures room { IfOk result (λ kits. map (λ k. room_of k.told k.reads k.line) kits.items
        ≡ map (λ s. room_for (length s.groups)) scripts.now) }
    ensures open { IfOk result (λ kits. All (λ k. AreOpen k.line k.announcing k.listening) kits.items) }
{
    let mut kits = Vec::with_capacity(alloc, scripts.len())?;
    for script in scripts {
        kits.push(make_kit(alloc, script)?)?;
    }
    Ok(kits)
}

// A pair for each session and each helper, in their order.
fn seat<P: Port + Drop>(
    sessions: Vec<Session<P>>,
    helpers: Vec<Helper<P>>,
    kits: Vec<Kit>,
    pairs: Vec<Pair<FileMachine<P>>>,
) -> Vec<Pair<FileMachine<P>>>
    requires helpers { vec_len helpers ≡ vec_len sessions }
    requires kits { vec_len kits ≡ vec_len sessions }
    requires room { (pairs.items ≡ []) × (vec_len sessions ≤ vec_capacity pairs) }
    ensures users { map (λ p. p.session.runner.user) result.items ≡ sessions.items }
    ensures helpers { map (λ p. p.helper.assistant.helper) result.items ≡ helpers.items }
    ensures queues { All (λ p. p.helper.assistant.queue ≡ p.session.runner.user.queue) result.items }
    ensures kits { map (λ p. kit_of p.session.runner.told p.session.runner.reads p.line p.session.announcing p.helper.listening) result.items
        ≡ kits.items }
{
    let mut sessions = sessions;
    let mut helpers = helpers;
    let mut kits = kits;
    let mut pairs = pairs;
    while let Some(user) = sessions.pop() {
        let Some(helper) = helpers.pop() else {
            unreachable!()
        };
        let Some(kit) = kits.pop() else {
            unreachable!()
        };
        let Kit {
            told,
            reads,
            line,
            announcing,
            listening,
        } = kit;
        let queue = user.queue();
        pairs.push_reserved(Halves {
            line,
            session: SessionHalf {
                announcing,
                runner: Runner { user, told, reads },
            },
            helper: HelperHalf {
                listening,
                assistant: Assistant { helper, queue },
            },
        });
    }
    pairs.reverse();
    pairs
}

/// A file system over the ports of a drive that was recovered, and for each script a session with its
/// helper. All memory for what is reported and for the notices is taken before the file system is opened.
/// On out of memory the ports are given back.
pub(crate) fn open_pairs<P: Port + Drop>(
    alloc: Global,
    geometry: Geometry,
    ports: Ports<P>,
    standing: Standing,
    scripts: &[Script],
) -> Result<(Mqfs<P>, Vec<Pair<FileMachine<P>>>), (Ports<P>, OutOfMemory)>
    requires drive { MayOpen geometry (drive_of P.state ports) standing }
    requires base { standing.base ≤ 2 ^ 62 }
    requires scripts { (1 ≤ length scripts.now) × (length scripts.now ≤ queues_of geometry) }
    requires short { All (λ s. IsShort s.groups) scripts.now }
    ensures desk { IfOk result (λ o. IsOpenedOver P.state P.faults geometry ports standing
        (start_of o.0.desk)) }
    ensures chairs { IfOk result (λ o. chairs_of o.0.desk ≡ length scripts.now + length scripts.now) }
    ensures geometry { IfOk result (λ o. o.0.geometry ≡ geometry) }
    ensures count { IfOk result (λ o. vec_len o.1 ≡ length scripts.now) }
    ensures each { IfOk result (λ o. (i : ℕ) (p : _)
        → slice_get o.1.items i ≡ Some p
        → AtDesk o.0.desk p.session.runner.user.chair
        × IsNewSession geometry (start_of o.0.desk) i p.session.runner.user.queue p.session.runner.user.calls
        p.session.runner.user.wanted.items p.session.runner.user.held (view p.session.runner.user.chair)) }
    ensures helpers { IfOk result (λ o. (i : ℕ) (p : _)
        → slice_get o.1.items i ≡ Some p
        → AtDesk o.0.desk p.helper.assistant.helper.chair
        × IsNewHelper (start_of o.0.desk) (length scripts.now + i) (view p.helper.assistant.helper.chair)
        × (p.helper.assistant.queue ≡ i)) }
    ensures room { IfOk result (λ o. map (λ p. room_of p.session.runner.told p.session.runner.reads p.line) o.1.items
        ≡ map (λ s. room_for (length s.groups)) scripts.now) }
    ensures open { IfOk result (λ o. All (λ p. AreOpen p.line p.session.announcing p.helper.listening) o.1.items) }
    ensures err { IfErr result (λ e. (e.0.queues.items ≡ ports.queues.items) × (e.0.root ≡ ports.root)) }
{
    let Ok(kits) = make_kits(alloc, scripts) else {
        return Err((ports, OutOfMemory));
    };
    let Ok(pairs) = Vec::with_capacity(alloc, scripts.len()) else {
        return Err((ports, OutOfMemory));
    };
    let count = scripts.len() as u32;
    match Mqfs::open_with(alloc, geometry, ports, standing, count, count) {
        Ok((files, sessions, helpers)) => Ok((files, seat(sessions, helpers, kits, pairs))),
        Err(refused) => Err(refused),
    }
}
