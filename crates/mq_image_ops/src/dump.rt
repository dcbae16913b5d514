// The words and the chains of an image, as a text.
ghost use Rattle.std.specs.Prelude.{◌≡◌, ◌<◌, ◌++◌, ◌⊎◌, ℕ, List, length, IfErr, IfOk, IsOkUnless};
ghost use Rattle.std.specs.List.{flat_map};
ghost use Rattle.mq_blocks.specs.Descriptor.{Descriptor as Text};
ghost use Rattle.mq_blocks.specs.Geometry.{queues_of};
ghost use Rattle.mq_blocks.specs.Journal.{AreWhole};
ghost use Rattle.mq_image.specs.Drives.{IsDrive};
ghost use Rattle.mq_image_ops.specs.Dump.{IsDump, IsDumpOf, base_line, descriptor_line, dump_text, prefix_line};
ghost use Rattle.mq_image_ops.specs.Dump.{queue_line, queue_text, queues_text, transaction_line};
ghost use Rattle.mq_image_ops.specs.Standing.{Reads, RefusesDrive};
ghost use Rattle.mq_recover.specs.Drives.{IsQuiescentDrive, drive_of, view_over};
ghost use Rattle.mq_recover.specs.Images.{IsReadableImage, RefusesImage};

use crate::ports::{drive_power, start_ports};
use mq_area::Descriptor;
use mq_blocks::{Geometry, OutOfMemory, TxNo};
use mq_drive::{Port, Ports};
use mq_image::DriveImage;
use mq_recover::{Chain, ChainRefusal, ImageFault, find_prefix, read_chain};
use std::alloc::Global;

// Appends a transaction's line.
fn put_transaction(
    alloc: Global,
    text: &mut Vec<u8>,
    descriptor: &Descriptor,
) -> Result<(), OutOfMemory>
    ensures { IfOk result (λ _. text.new.items ≡ text.old.items ++ descriptor_line descriptor.now) }
{
    let number = descriptor.number;
    let place = descriptor.place;
    let logged = descriptor.logged.len();
    let revoked = descriptor.revoked.len();
    let line = format!(in alloc; "tx {number} place {place} logged {logged} revoked {revoked}\n")?;
    text.extend_from_slice(line.as_bytes())?;
    Ok(())
}

// Appends the lines of a chain.
fn put_chain(alloc: Global, text: &mut Vec<u8>, chain: &[Descriptor]) -> Result<(), OutOfMemory>
    ensures { IfOk result (λ _. text.new.items ≡ text.old.items ++ flat_map descriptor_line chain.now) }
{
    for descriptor in chain {
        put_transaction(alloc, text, descriptor)?;
    }
    Ok(())
}

// Appends the line of a queue's words.
fn put_words(
    alloc: Global,
    text: &mut Vec<u8>,
    queue: u32,
    doorbell: u64,
    head: u64,
) -> Result<(), OutOfMemory>
    ensures { IfOk result (λ _. text.new.items ≡ text.old.items ++ queue_line queue doorbell head) }
{
    let line = format!(in alloc; "queue {queue} doorbell {doorbell} head {head}\n")?;
    text.extend_from_slice(line.as_bytes())?;
    Ok(())
}

// Appends the line of the base.
fn put_base(alloc: Global, text: &mut Vec<u8>, base: u64) -> Result<(), OutOfMemory>
    ensures { IfOk result (λ _. text.new.items ≡ text.old.items ++ base_line base) }
{
    let line = format!(in alloc; "base {base}\n")?;
    text.extend_from_slice(line.as_bytes())?;
    Ok(())
}

// Appends the line of the prefix.
fn put_prefix(alloc: Global, text: &mut Vec<u8>, prefix: u64) -> Result<(), OutOfMemory>
    ensures { IfOk result (λ _. text.new.items ≡ text.old.items ++ prefix_line prefix) }
{
    let line = format!(in alloc; "prefix {prefix}\n")?;
    text.extend_from_slice(line.as_bytes())?;
    Ok(())
}

// The chain of a readable queue is refused only as out of memory.
fn only_memory(refusal: ChainRefusal) -> OutOfMemory
    requires { refusal ≡ ChainRefusal.OutOfMemory }
{
    match refusal {
        ChainRefusal::OutOfMemory => OutOfMemory,
        _ => unreachable!(),
    }
}

// The chain of a queue of a readable drive.
fn readable_chain<P: Port>(
    alloc: Global,
    geometry: Geometry,
    ports: &Ports<P>,
    queue: u32,
) -> Result<Chain, OutOfMemory>
    requires still { IsQuiescentDrive geometry (drive_of P.state ports.now) }
    requires whole { (chains : ℕ → List Text)
        × AreWhole geometry (view_over geometry (drive_of P.state ports.now)) chains }
    requires within { queue < queues_of geometry }
    ensures { IfOk result (λ c. (chains : ℕ → List Text)
        → AreWhole geometry (view_over geometry (drive_of P.state ports.now)) chains
        → c ≡ chains queue) }
{
    let base = TxNo(ports.root.base());
    match read_chain(alloc, geometry, &ports.queues[queue as usize], base) {
        Ok(chain) => Ok(chain),
        Err(refusal) => Err(only_memory(refusal)),
    }
}

// Appends a queue's words, and its chain.
fn put_queue<P: Port>(
    alloc: Global,
    text: &mut Vec<u8>,
    geometry: Geometry,
    ports: &Ports<P>,
    queue: u32,
) -> Result<(), OutOfMemory>
    requires still { IsQuiescentDrive geometry (drive_of P.state ports.now) }
    requires whole { (chains : ℕ → List Text)
        × AreWhole geometry (view_over geometry (drive_of P.state ports.now)) chains }
    requires within { queue < queues_of geometry }
    ensures { IfOk result (λ _. (chains : ℕ → List Text)
        → AreWhole geometry (view_over geometry (drive_of P.state ports.now)) chains
        → text.new.items ≡ text.old.items ++ queue_text
        (view_over geometry (drive_of P.state ports.now)) chains queue) }
{
    let port = &ports.queues[queue as usize];
    put_words(alloc, text, queue, port.doorbell(), port.head())?;
    let chain = readable_chain(alloc, geometry, ports, queue)?;
    put_chain(alloc, text, &chain.transactions)
}

// Appends the words and the chains of all queues.
fn put_queues<P: Port>(
    alloc: Global,
    text: &mut Vec<u8>,
    geometry: Geometry,
    ports: &Ports<P>,
) -> Result<(), OutOfMemory>
    requires still { IsQuiescentDrive geometry (drive_of P.state ports.now) }
    requires whole { (chains : ℕ → List Text)
        × AreWhole geometry (view_over geometry (drive_of P.state ports.now)) chains }
    ensures { IfOk result (λ _. (chains : ℕ → List Text)
        → AreWhole geometry (view_over geometry (drive_of P.state ports.now)) chains
        → text.new.items ≡ text.old.items ++ queues_text
        (view_over geometry (drive_of P.state ports.now)) chains (queues_of geometry)) }
{
    for queue in 0..geometry.queues() {
        put_queue(alloc, text, geometry, ports, queue)?;
    }
    Ok(())
}

// The words and the chains of a readable drive, of which the given number of transactions stand.
fn dump_ports<P: Port>(
    alloc: Global,
    geometry: Geometry,
    ports: &Ports<P>,
    prefix: u64,
) -> Result<Vec<u8>, OutOfMemory>
    requires still { IsQuiescentDrive geometry (drive_of P.state ports.now) }
    requires whole { (chains : ℕ → List Text)
        × AreWhole geometry (view_over geometry (drive_of P.state ports.now)) chains }
    ensures { IfOk result (λ v. (chains : ℕ → List Text)
        → AreWhole geometry (view_over geometry (drive_of P.state ports.now)) chains
        → v.items ≡ dump_text geometry (view_over geometry (drive_of P.state ports.now)) chains prefix) }
{
    let mut text = Vec::new(alloc);
    put_base(alloc, &mut text, ports.root.base())?;
    put_queues(alloc, &mut text, geometry, ports)?;
    put_prefix(alloc, &mut text, prefix)?;
    Ok(text)
}

// The words and the chains of a drive, where it is readable.
fn dump_drive<P: Port>(
    alloc: Global,
    geometry: Geometry,
    ports: &Ports<P>,
) -> Result<Vec<u8>, ImageFault>
    requires { IsQuiescentDrive geometry (drive_of P.state ports.now) }
    ensures ok { IfOk result (λ v. IsDumpOf geometry
        (view_over geometry (drive_of P.state ports.now)) v.items) }
    ensures refused { IfErr result (λ e. (e ≡ ImageFault.OutOfMemory)
        ⊎ RefusesImage geometry (drive_of P.state ports.now) e) }
    ensures complete { IsReadableImage geometry (drive_of P.state ports.now)
        → IsOkUnless result ImageFault.OutOfMemory }
{
    let found = find_prefix(alloc, geometry, ports)?;
    Ok(dump_ports(alloc, geometry, ports, found.prefix)?)
}

/// The text that shows the words and the chains of an image: its base, for each queue the doorbell, the
/// head and the transactions of its chain, newest first, and how many transactions stand.
pub fn dump_image(alloc: Global, image: DriveImage) -> Result<Vec<u8>, ImageFault>
    requires { IsDrive image }
    ensures ok { IfOk result (λ text. IsDump image text.items) }
    ensures refused { IfErr result (λ e. (e ≡ ImageFault.OutOfMemory) ⊎ RefusesDrive image e) }
    ensures complete { (ds : List Text) (top : ℕ)
        → Reads image ds top
        → IsOkUnless result ImageFault.OutOfMemory }
{
    let geometry = image.geometry;
    let (fuse, seats) = drive_power(alloc, geometry, None)?;
    let ports = start_ports(alloc, &fuse, seats, image, None, 0)?;
    dump_drive(alloc, geometry, &ports)
}
