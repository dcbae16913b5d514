// A line cut into its words.
ghost use Rattle.std.specs.Prelude.{◌≡◌, ◌∷◌};
ghost use Rattle.std.specs.Option.{option_map};
ghost use Rattle.mq_block_text.specs.Words.{words_of, one_of, two_of};
ghost use Rattle.mq_script.specs.Words.{words_after, three_of, rest_of};

/// The first word of a line, and what follows the space after it.
pub fn cut_word(text: &[u8]) -> (&[u8], Option<&[u8]>)
    ensures { words_of text.now ≡ result.0.now ∷ words_after result.1 }
{
    match text.iter().position(|b| *b == b' ') {
        Some(at) => (&text[..at], Some(&text[at + 1..])),
        None => (text, None),
    }
}

/// The only word.
pub fn one_word(text: Option<&[u8]>) -> Option<&[u8]>
    ensures { option_map (λ w. w.now) result ≡ one_of (words_after text.entry) }
{
    let (word, rest) = cut_word(text?);
    match rest {
        None => Some(word),
        Some(_) => None,
    }
}

/// The only two words.
pub fn two_words(text: Option<&[u8]>) -> Option<(&[u8], &[u8])>
    ensures { option_map (λ w. (w.0.now, w.1.now)) result ≡ two_of (words_after text.entry) }
{
    let (first, rest) = cut_word(text?);
    Some((first, one_word(rest)?))
}

/// The only three words.
pub fn three_words(text: Option<&[u8]>) -> Option<(&[u8], &[u8], &[u8])>
    ensures { option_map (λ w. (w.0.now, w.1.now, w.2.now)) result ≡ three_of (words_after text.entry) }
{
    let (first, rest) = cut_word(text?);
    let (second, third) = two_words(rest)?;
    Some((first, second, third))
}

/// Two words, and all that follows the space after them.
pub fn two_words_and_rest(text: Option<&[u8]>) -> Option<(&[u8], &[u8], &[u8])>
    ensures { option_map (λ w. (w.0.now, w.1.now, w.2.now)) result ≡ rest_of (words_after text.entry) }
{
    let (first, rest) = cut_word(text?);
    let (second, rest) = cut_word(rest?);
    Some((first, second, rest?))
}
