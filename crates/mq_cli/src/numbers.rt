// The numbers of words.
ghost use Rattle.std.specs.Prelude.{◌≡◌, ◌≤◌, ◌<◌, ◌^◌, None, Some, IfOk, IfSome, MatchResult, option_map};
ghost use Rattle.mq_cli.specs.Asked.{NamesCommand, failing_in, failing_option, number_end, number_from, number_option, number_within, word_end, word_in};

use crate::command::FailingCommand;
use crate::refusal::WordsRefusal;
use mq_block_text::number_of;

/// The exclusive upper limit of the numbers of options.
pub const NUMBER_END: u64 = 1 << 63;

/// The exclusive upper limit of the numbers of a geometry.
const WORD_END: u64 = 1 << 32;

/// The exclusive upper limit of the number of threads of a workload.
pub const THREADS_END: u64 = 17;

/// The exclusive upper limit of the number of groups of each of its threads.
pub const GROUPS_END: u64 = 10_001;

/// The number of a word, below a limit.
fn number_below(limit: u64, word: &str) -> Option<u64>
    ensures { result ≡ number_within limit word.now }
{
    match number_of(word.as_bytes()) {
        Some(value) if value < limit => Some(value),
        _ => None,
    }
}

/// The number of an option, if the option is given.
pub fn optional_number(word: Option<&str>) -> Result<Option<u64>, WordsRefusal>
    ensures small { IfOk result (λ o. IfSome o (λ n. n < number_end)) }
    ensures reads { MatchResult result (λ n. number_option (option_map (λ s. s.now) word.entry) ≡ Some n)
        (λ e. (e ≡ WordsRefusal.Unknown) × (number_option (option_map (λ s. s.now) word.entry) ≡ None)) }
{
    match word {
        None => Ok(None),
        Some(word) => match number_below(NUMBER_END, word) {
            Some(value) => Ok(Some(value)),
            None => Err(WordsRefusal::Unknown),
        },
    }
}

/// The command of a port that a word names: the two numbers, with a colon between.
fn failing_command(word: &str) -> Option<FailingCommand>
    ensures small { IfSome result NamesCommand }
    ensures reads { result ≡ failing_in word.now }
{
    let (port, command) = word.split_once(':')?;
    let port = number_below(NUMBER_END, port)?;
    let command = number_below(NUMBER_END, command)?;
    Some(FailingCommand { port, command })
}

/// The command of a port that an option names, if the option is given.
pub fn optional_command(word: Option<&str>) -> Result<Option<FailingCommand>, WordsRefusal>
    ensures small { IfOk result (λ o. IfSome o NamesCommand) }
    ensures reads { MatchResult result (λ f. failing_option (option_map (λ s. s.now) word.entry) ≡ Some f)
        (λ e. (e ≡ WordsRefusal.Unknown) × (failing_option (option_map (λ s. s.now) word.entry) ≡ None)) }
{
    match word {
        None => Ok(None),
        Some(word) => match failing_command(word) {
            Some(command) => Ok(Some(command)),
            None => Err(WordsRefusal::Unknown),
        },
    }
}

/// The number of a name of a geometry.
pub fn geometry_word(word: Option<&str>) -> Result<u32, WordsRefusal>
    ensures { MatchResult result (λ n. word_in (option_map (λ s. s.now) word.entry) ≡ Some n)
        (λ e. (e ≡ WordsRefusal.Unknown) × (word_in (option_map (λ s. s.now) word.entry) ≡ None)) }
{
    let Some(word) = word else {
        return Err(WordsRefusal::Unknown);
    };
    match number_below(WORD_END, word) {
        Some(value) => Ok(value as u32),
        None => Err(WordsRefusal::Unknown),
    }
}

// The number of a word, from a least one on, and below a limit.
fn number_from_to(least: u64, limit: u64, word: Option<&str>) -> Option<u64>
    ensures small { IfSome result (λ n. (least ≤ n) × (n < limit)) }
    ensures reads { result ≡ number_from least limit (option_map (λ s. s.now) word.entry) }
{
    let value = number_below(limit, word?)?;
    if value < least {
        return None;
    }
    Some(value)
}

/// The number of a word that must not be below `least` and must be below `limit`.
pub fn number_in_bounds(least: u64, limit: u64, word: Option<&str>) -> Result<u64, WordsRefusal>
    ensures small { IfOk result (λ n. (least ≤ n) × (n < limit)) }
    ensures reads { MatchResult result (λ n. number_from least limit (option_map (λ s. s.now) word.entry) ≡ Some n)
        (λ e. (e ≡ WordsRefusal.Unknown)
        × (number_from least limit (option_map (λ s. s.now) word.entry) ≡ None)) }
{
    match number_from_to(least, limit, word) {
        Some(value) => Ok(value),
        None => Err(WordsRefusal::Unknown),
    }
}
