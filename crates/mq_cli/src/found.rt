// What `clap` found of names and options.
ghost use Rattle.std.specs.Prelude.{◌≡◌, ◌<◌, None, Some, IfOk, IfSome, MatchResult, option_map};
ghost use Rattle.clap.specs.Words.{first_of, found_of, rows_of};
ghost use Rattle.mq_cli.specs.Asked.{number_end, number_option};

use crate::numbers::optional_number;
use crate::refusal::WordsRefusal;
use clap::ArgMatches;

/// The value of a name or an option, where one was found.
pub fn found_word<'a>(matches: &ArgMatches<'a>, id: &str) -> Option<&'a str>
    ensures { option_map (λ s. s.now) result ≡ first_of id.now (rows_of (found_of matches.now)) }
{
    matches.get_str(id)
}

/// A name that was found.
pub fn found_name<'a>(matches: &ArgMatches<'a>, id: &str) -> Result<&'a str, WordsRefusal>
    ensures { MatchResult result (λ s. first_of id.now (rows_of (found_of matches.now)) ≡ Some s.now)
        (λ e. (e ≡ WordsRefusal.Unknown) × (first_of id.now (rows_of (found_of matches.now)) ≡ None)) }
{
    match found_word(matches, id) {
        Some(word) => Ok(word),
        None => Err(WordsRefusal::Unknown),
    }
}

/// The number of an option.
pub fn found_number(matches: &ArgMatches, id: &str) -> Result<Option<u64>, WordsRefusal>
    ensures small { IfOk result (λ o. IfSome o (λ n. n < number_end)) }
    ensures reads { MatchResult result
        (λ n. number_option (first_of id.now (rows_of (found_of matches.now))) ≡ Some n)
        (λ e. (e ≡ WordsRefusal.Unknown)
        × (number_option (first_of id.now (rows_of (found_of matches.now))) ≡ None)) }
{
    optional_number(found_word(matches, id))
}
