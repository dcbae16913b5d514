// A line of a file.
ghost use Rattle.std.specs.Prelude.{◌≡◌, ◌∷◌, [], ℕ, List, IfErr, IfOk, true, false, map};
ghost use Rattle.mq_kv_text.specs.Files.{IsLine, is_word, line_text, line_words};
ghost use Rattle.mq_kv_text.specs.Verbs.{verb_text};
ghost use Rattle.mq_kv_text.specs.declared.line.Line.{Line as AnyLine};
ghost use Rattle.mq_kv_text.specs.declared.refusal.Misread.TheVariants.{Form as form};

use crate::refusal::Misread;
use crate::verb::{Verb, read_verb};
use crate::word::is_word;
use mq_block_text::cut_at;
use mq_kv_buckets::{Key, KvOp, Value};
use std::alloc::Global;

/// What a line says: an operation, or the end of a group.
#[derive(Drop)]
pub enum Line {
    Asks(KvOp),
    Syncs,
}

/// The bytes of a word that may be a key or a value.
fn read_word(alloc: Global, word: &[u8]) -> Result<Vec<u8>, Misread>
    ensures ok { IfOk result (λ v. (v.items ≡ word.now) × (is_word word.now ≡ true)) }
    ensures refused { IfErr result (λ e. e ≡ form → is_word word.now ≡ false) }
{
    if !is_word(word) {
        return Err(Misread::Form);
    }
    Ok(Vec::from_slice(alloc, word)?)
}

/// The key that is the only word.
fn read_key(alloc: Global, words: &[&[u8]]) -> Result<Key, Misread>
    ensures ok { IfOk result (λ k. (is_word k ≡ true) × (map (λ w. w.now) words.now ≡ k ∷ [])) }
    ensures refused { IfErr result (λ e. e ≡ form
        → (k : List ℕ) → is_word k ≡ true → map (λ w. w.now) words.now ≡ k ∷ [] → ⊥) }
{
    let [word] = words else {
        return Err(Misread::Form);
    };
    Ok(Key(read_word(alloc, word)?))
}

/// The key and the value that are the only two words.
fn read_pair(alloc: Global, words: &[&[u8]]) -> Result<(Key, Value), Misread>
    ensures ok { IfOk result (λ p. (is_word p.0 ≡ true)
        × (is_word p.1 ≡ true)
        × (map (λ w. w.now) words.now ≡ p.0 ∷ p.1 ∷ [])) }
    ensures refused { IfErr result (λ e. e ≡ form
        → (k v : List ℕ)
        → is_word k ≡ true
        → is_word v ≡ true
        → map (λ w. w.now) words.now ≡ k ∷ v ∷ []
        → ⊥) }
{
    let [key, value] = words else {
        return Err(Misread::Form);
    };
    let key = read_word(alloc, key)?;
    let value = read_word(alloc, value)?;
    Ok((Key(key), Value(value)))
}

/// The end of a group, which takes no words.
fn read_end(words: &[&[u8]]) -> Result<Line, Misread>
    ensures ok { IfOk result (λ l. (l ≡ Line.Syncs) × (map (λ w. w.now) words.now ≡ [])) }
    ensures refused { IfErr result (λ e. map (λ w. w.now) words.now ≡ [] → ⊥) }
{
    if words.is_empty() {
        Ok(Line::Syncs)
    } else {
        Err(Misread::Form)
    }
}

/// What a line says that has this verb and these words after it.
fn read_arguments(alloc: Global, verb: Verb, words: &[&[u8]]) -> Result<Line, Misread>
    ensures ok { IfOk result (λ l. IsLine l × (verb_text verb ∷ map (λ w. w.now) words.now ≡ line_words l)) }
    ensures refused { IfErr result (λ e. e ≡ form
        → (l : AnyLine)
        → IsLine l
        → verb_text verb ∷ map (λ w. w.now) words.now ≡ line_words l
        → ⊥) }
{
    match verb {
        Verb::Put => {
            let (key, value) = read_pair(alloc, words)?;
            Ok(Line::Asks(KvOp::Put(key, value)))
        }
        Verb::Delete => Ok(Line::Asks(KvOp::Delete(read_key(alloc, words)?))),
        Verb::Get => Ok(Line::Asks(KvOp::Get(read_key(alloc, words)?))),
        Verb::Sync => read_end(words),
    }
}

/// What a line says.
pub fn read_line(alloc: Global, text: &[u8]) -> Result<Line, Misread>
    ensures ok { IfOk result (λ l. IsLine l × (text.now ≡ line_text l)) }
    ensures refused { IfErr result (λ e. e ≡ form
        → (l : AnyLine) → IsLine l → text.now ≡ line_text l → ⊥) }
{
    let words = cut_at(alloc, text, b' ')?;
    let Some((word, words)) = words.split_first() else {
        return Err(Misread::Form);
    };
    match read_verb(word) {
        Some(verb) => read_arguments(alloc, verb, words),
        None => Err(Misread::Form),
    }
}
