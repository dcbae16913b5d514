// What the program says of itself and of each command.
ghost use Rattle.std.specs.Prelude.{◌≡◌};
ghost use Rattle.mq_cli.specs.Help.{audit_help, blocks_help, cat_help, check_help, dump_help, format_help, gen_help, help_text, loose_help, ls_help, program_help, recover_help, replicate_help, run_help, version_line as version_text};

use crate::verb::Verb;

#[tactic(auto, unfolding(crate::specs::Help::program_help))]
fn program_text() -> &'static str
    ensures { result.now ≡ program_help }
{
    "mqfs runs a crash-consistent journal on an emulated drive.

  mqfs blocks FILE [--cut K] [--pick S] [--again J] [--save NAME] [--trace NAME]
  mqfs format IMAGE QUEUES AREA META ZONE
  mqfs run IMAGE SCRIPT.. [--cut K] [--pick S] [--fail Q:N]
  mqfs recover IMAGE [--cut K] [--pick S]
  mqfs ls IMAGE
  mqfs cat IMAGE PATH
  mqfs gen SEED THREADS GROUPS [--save NAME]
  mqfs dump IMAGE
  mqfs check IMAGE
  mqfs audit TRACE
  mqfs replicate FILE [--seed S] [--save NAME]
  mqfs loose FILE [--cut K] [--pick S] [--save NAME]

mqfs COMMAND --help says more of a command.
"
}

#[tactic(auto, unfolding(crate::specs::Help::blocks_help))]
fn blocks_text() -> &'static str
    ensures { result.now ≡ blocks_help }
{
    "mqfs blocks FILE [--cut K] [--pick S] [--again J] [--save NAME] [--trace NAME]

Commits each line of the block text FILE as a transaction on a fresh drive,
cuts the power, recovers, and prints what stands.

  --cut K       the power goes off after K events, else at the end
  --pick S      chooses what a cut leaves of what is not certain, else 0
  --again J     a first recovery is cut after J events
  --save NAME   saves the image that the cut left, before the recovery
  --trace NAME  saves the trace of the events up to the cut

The items of a line are separated by one space, and name each block once:

  5=ab 7=01     sets block 5 to 4096 bytes ab and block 7 to 4096 bytes 01
  -7 9=ff       frees block 7 and sets block 9; blocks are 0 to 255

All lines take at most 1024 places, one for each set block and each line.

Status: 0 done, 2 a line that is not in the form, 4 a file or the output failed
or a file is too long, 6 out of memory.

Example: mqfs blocks examples/frees.txt --cut 10
"
}

#[tactic(auto, unfolding(crate::specs::Help::format_help))]
fn format_text() -> &'static str
    ensures { result.now ≡ format_help }
{
    "mqfs format IMAGE QUEUES AREA META ZONE

Saves as IMAGE a fresh drive with an empty file system. The numbers are:

  QUEUES  the queues, 1 to 16: so many sessions can commit at once
  AREA    the blocks of each queue's journal area, 1024 to 16384
  META    the blocks of metadata, at least QUEUES + 3
  ZONE    the blocks of each queue's zone of data, at least 1

META + QUEUES * ZONE is at most 32768. A block has 4096 bytes.

Status: 0 done, 3 a number is out of its range, 4 the image could not be saved
or the output failed, 6 out of memory.

Example: mqfs format d 2 1024 64 256
"
}

#[tactic(auto, unfolding(crate::specs::Help::run_help))]
fn run_text() -> &'static str
    ensures { result.now ≡ run_help }
{
    "mqfs run IMAGE SCRIPT.. [--cut K] [--pick S] [--fail Q:N]

Recovers the drive of IMAGE, runs each SCRIPT on a session and a thread of its
own, saves what that left as IMAGE, and prints a report.

  --cut K      the power goes off after K events, or at the end of the sessions
  --pick S     chooses the order of commands and what a cut leaves, else 0
  --fail Q:N   command N of port Q, counted from 1, ends with an error

A SCRIPT has a request on each line, its words one space apart, and a line that
ends each group. A group is carried out whole or not at all. Paths begin with /.

  mkdir /a                a new directory
  create /a/f             a new empty file
  write /a/f 0 \"hi\"       bytes from offset 0 on; a gap before is filled with 0
  write /a/f 2 hex:6869   bytes in hexadecimal
  write /a/f 4 fill:7a:9  9 times the byte 7a
  truncate /a/f 8         the file cut, or filled with zeros, to 8 bytes
  link /a/f /g            a further name, the second, for a file
  rename /g /h            a file or directory moved; the new name must be free
  read /a/f 0 8           8 bytes from offset 0 on
  list /a                 the names in a directory
  fsync                   ends a group: what is answered ok survives any cut
  unlink /a/f             a name of a file gone, with the last one the file
  rmdir /a                an empty directory gone
  fatomic                 ends a group: whole or not at all, durable later
  stat /h                 how long a file is, or how many names a directory has
  ask                     ends a group that may only look

Status: 0 done, 2 a script is not in the form or there are too many, 3 the image
is refused, 4 a file or the output failed or a file is too long, 5 the command
of --fail was executed, 6 out of memory.

Example: mqfs run d a b --cut 40
"
}

#[tactic(auto, unfolding(crate::specs::Help::recover_help))]
fn recover_text() -> &'static str
    ensures { result.now ≡ recover_help }
{
    "mqfs recover IMAGE [--cut K] [--pick S]

Recovers the drive of IMAGE, saves what that left as IMAGE, and prints how many
transactions stood on it and its base.

  --cut K      the power goes off after K events of the recovery, if it has more
  --pick S     chooses what a cut leaves of what is not certain, else 0

Status: 0 done, 3 the image is refused, 4 a file or the output failed or a file
is too long, 6 out of memory.

Example: mqfs recover d --cut 3
"
}

#[tactic(auto, unfolding(crate::specs::Help::ls_help))]
fn ls_text() -> &'static str
    ensures { result.now ≡ ls_help }
{
    "mqfs ls IMAGE

Prints the tree of files that stands on IMAGE: a line \"d PATH\" for each
directory and \"f SIZE PATH\" for each file. Nothing is saved.

Status: 0 done, 3 the image is refused, 4 a file or the output failed or a file
is too long, 6 out of memory.

Example: mqfs ls d
"
}

#[tactic(auto, unfolding(crate::specs::Help::cat_help))]
fn cat_text() -> &'static str
    ensures { result.now ≡ cat_help }
{
    "mqfs cat IMAGE PATH

Prints the bytes of the file at PATH of the tree that stands on IMAGE. PATH
begins with a slash. Nothing is saved.

Status: 0 done, 3 the image or the path is refused, 4 a file or the output
failed or a file is too long, 6 out of memory.

Example: mqfs cat d /a/f
"
}

#[tactic(auto, unfolding(crate::specs::Help::gen_help))]
fn gen_text() -> &'static str
    ensures { result.now ≡ gen_help }
{
    "mqfs gen SEED THREADS GROUPS [--save NAME]

Runs a workload that the number SEED chooses on a fresh drive in memory, each of
1 to 16 THREADS with 0 to 10000 GROUPS of requests, and prints how much the tree
of files then has.

  --save NAME  saves the image that a cut at the end of the sessions leaves

Status: 0 done, 4 the image could not be saved or the output failed, 6 out of
memory.

Example: mqfs gen 7 4 2000
"
}

#[tactic(auto, unfolding(crate::specs::Help::dump_help))]
fn dump_text() -> &'static str
    ensures { result.now ≡ dump_help }
{
    "mqfs dump IMAGE

Prints the words and the chains of transactions of IMAGE, and how many of them
stand. Nothing is saved.

Status: 0 done, 3 the image is refused, 4 a file or the output failed or a file
is too long, 6 out of memory.

Example: mqfs dump d
"
}

#[tactic(auto, unfolding(crate::specs::Help::check_help))]
fn check_text() -> &'static str
    ensures { result.now ≡ check_help }
{
    "mqfs check IMAGE

Checks the home blocks that stand on IMAGE: prints how many directories, files
and blocks their file system has, or what is wrong with it first. Nothing is
saved.

Status: 0 done, whatever it found, 3 the image is refused, 4 a file or the
output failed or a file is too long, 6 out of memory.

Example: mqfs check d
"
}

#[tactic(auto, unfolding(crate::specs::Help::audit_help))]
fn audit_text() -> &'static str
    ensures { result.now ≡ audit_help }
{
    "mqfs audit TRACE

Runs the events of TRACE on the state machine of the journal: prints how many it
took and which transactions a cut after them may leave, or the line of the first
that it does not allow. Nothing is saved.

The first two lines are the drive and its live blocks, and each further line is
an event, in the order in which they happened:

  geometry 2 1024 64 256 0   queues, area, metadata, zone, base
  start 65=11                block 65 is live, and its first byte is 11
  clear 0 1                  queue 0 has done all its numbers below 1
  draw 0 logged 65=22 direct revoked freed
                             number 1 is queue 0's, and logs block 65
  stage 0                    an entry of queue 0 is in its ring
  flush 0                    the entries of queue 0 are durable
  ring 0                     the doorbell of queue 0 is to be written
  complete 0 2               command 2 of queue 0, from 0, has succeeded
  failed 0 2                 or it has failed
  storehead 0 2              the head of queue 0 is to be written: 2
  flushhead 0                the head of queue 0 is durable
  ack 1                      somebody is told that all up to 1 survives
  home 65, homedone 65       block 65 is written home: begun, and done
  storebase 1, flushbase     the base is to be written: 1; it is durable

Two digits behind a block stand for its contents: one byte, or a checksum.

Status: 0 done, whatever it found, 2 a line is not in the form, 4 a file or the
output failed or a file is too long, 6 out of memory.

Example: mqfs audit examples/driver.txt
"
}

#[tactic(auto, unfolding(crate::specs::Help::replicate_help))]
fn replicate_text() -> &'static str
    ensures { result.now ≡ replicate_help }
{
    "mqfs replicate FILE [--seed S] [--save NAME]

Sends each line of the block text FILE as an update to a replica on a fresh
drive, over a link that loses and repeats updates, and prints how many the
replica has reached and the blocks that stand on it. For the lines of FILE see
mqfs blocks --help.

  --seed S     chooses what the link loses and repeats, else 0
  --save NAME  saves the image of the replica

Status: 0 done, 2 a line that is not in the form, 4 a file or the output failed
or a file is too long, 6 out of memory.

Example: mqfs replicate examples/frees.txt --seed 3
"
}

#[tactic(auto, unfolding(crate::specs::Help::loose_help))]
fn loose_text() -> &'static str
    ensures { result.now ≡ loose_help }
{
    "mqfs loose FILE [--cut K] [--pick S] [--save NAME]

Runs FILE on a fresh drive of four queues in the loose order. A line is a queue
and the items of a transaction, or done and a queue, which drains it. Cuts the
power, and prints the transactions that were acknowledged, those that stand, and
the blocks that these leave.

  --cut K      the power goes off after K events, else at the end
  --pick S     chooses what a cut leaves of what is not certain, else 0
  --save NAME  saves the image that the cut left

  0 5=ab 7=01   queue 0 sets block 5 to bytes ab and block 7 to bytes 01
  1 -7          queue 1 frees block 7; queues are 0 to 3, blocks 0 to 255
  done 0        queue 0 waits for all that it sent

Status: 0 done, 2 a line that is not in the form, 4 a file or the output failed
or a file is too long, 6 out of memory.

Example: mqfs loose examples/loose.txt --cut 9
"
}

/// The help on a command, or on the program.
pub fn help_on(topic: Option<Verb>) -> &'static str
    ensures { result.now ≡ help_text topic }
{
    match topic {
        None => program_text(),
        Some(Verb::Blocks) => blocks_text(),
        Some(Verb::Format) => format_text(),
        Some(Verb::Run) => run_text(),
        Some(Verb::Recover) => recover_text(),
        Some(Verb::Ls) => ls_text(),
        Some(Verb::Cat) => cat_text(),
        Some(Verb::Gen) => gen_text(),
        Some(Verb::Dump) => dump_text(),
        Some(Verb::Check) => check_text(),
        Some(Verb::Audit) => audit_text(),
        Some(Verb::Replicate) => replicate_text(),
        Some(Verb::Loose) => loose_text(),
    }
}

/// The program's name and version.
pub fn version_line() -> &'static str
    ensures { result.now ≡ version_text }
{
    "mqfs 0.1.0\n"
}
