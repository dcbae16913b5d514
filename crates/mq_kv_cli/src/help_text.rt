// What the program says of itself and of each command.
ghost use Rattle.std.specs.Prelude.{◌≡◌};
ghost use Rattle.mq_kv_cli.specs.Help.{apply_help, help_text, new_help, program_help, version_line as version_text};

use crate::verb::Verb;

#[tactic(auto, unfolding(crate::specs::Help::program_help))]
fn program_text() -> &'static str
    ensures { result.now ≡ program_help }
{
    "mq_kv_tool keeps a key-value store on an emulated drive.

  mq_kv_tool new IMAGE
  mq_kv_tool apply IMAGE FILE [--cut K] [--pick S]

mq_kv_tool COMMAND --help says more of a command.
"
}

#[tactic(auto, unfolding(crate::specs::Help::new_help))]
fn new_text() -> &'static str
    ensures { result.now ≡ new_help }
{
    "mq_kv_tool new IMAGE

Saves as IMAGE a fresh drive with an empty store: one queue, and 64 buckets of
4096 bytes, over which the keys are spread.

Status: 0 done, 4 the image could not be saved or the output failed, 6 out of
memory.

Example: mq_kv_tool new d
"
}

#[tactic(auto, unfolding(crate::specs::Help::apply_help))]
fn apply_text() -> &'static str
    ensures { result.now ≡ apply_help }
{
    "mq_kv_tool apply IMAGE FILE [--cut K] [--pick S]

Recovers the drive of IMAGE, does the groups of FILE one after another, saves
what that left as IMAGE, and prints a report.

  --cut K      the power goes off after K events, or at the end of the groups
  --pick S     chooses the order of commands and what a cut leaves, else 0

Each line of FILE is an operation, or ends a group, which is done whole or not
at all. The last line ends a group.

  put alice 100   the key alice has the value 100 from now on
  get alice       prints value 100
  del alice       the key is gone; where it is not there, prints missing
  sync            ends a group: what is printed as synced survives any cut

Keys and values are words of visible ASCII: a key of 1 to 255 bytes, a value of
1 to 1024. A bucket has room for 4096 bytes, 4 for each key, the key, and its
value. An operation that does not fit is refused, and the others are done.

Status: 0 done, refused and large groups too, 2 a line that is not in the form,
3 the image is refused, 4 a file or the output failed or a file is too long,
6 out of memory.

Example: mq_kv_tool apply d f --cut 8
"
}

/// The help on a command, or on the program.
pub fn help_on(topic: Option<Verb>) -> &'static str
    ensures { result.now ≡ help_text topic }
{
    match topic {
        None => program_text(),
        Some(Verb::New) => new_text(),
        Some(Verb::Apply) => apply_text(),
    }
}

/// The program's name and version.
pub fn version_line() -> &'static str
    ensures { result.now ≡ version_text }
{
    "mq_kv_tool 0.1.0\n"
}
