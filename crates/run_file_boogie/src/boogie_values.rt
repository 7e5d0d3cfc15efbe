// The values and entries that words spell in a run file of Boogie.
ghost use Rattle.std.specs.Prelude.{◌≡◌, IfOk, MatchOption};
ghost use Rattle.std.specs.Option.{option_map};
ghost use Rattle.boogie_tree.specs.Values as bases;
ghost use Rattle.boogie_tree.specs.Whole.{scalar_of, entry_of};
ghost use Rattle.run_file_boogie.specs.BoogieReading as reading;
ghost use Rattle.run_file_boogie.specs.BoogieRun.{fits_entry};
ghost use Rattle.run_file_words.specs.Text.{words_of};

use boogie_tree::{BBase, BScalar, BType, Entry, base_of_scalar, default_of, fits_key};
use moves::scalar as as_scalar;
use run_file_words::{any_value, argument, is_word, next_word, single, whole_content};
use std::alloc::Global;
use vb_base::Memory;
use vb_value::{Key, KeyPart};

/// The value that all the words of a line are: one word, or a content.
pub(crate) fn scalar(alloc: Global, words: &[u8]) -> Result<Option<BScalar>, Memory>
    ensures { IfOk result (λ v. option_map scalar_of v ≡ reading.scalar_from (words_of words.now)) }
{
    let Some((word, _)) = next_word(words) else {
        return Ok(None);
    };
    if opens_content(word) {
        content_scalar(alloc, words)
    } else {
        Ok(word_scalar(words))
    }
}

fn content_scalar(alloc: Global, words: &[u8]) -> Result<Option<BScalar>, Memory>
    ensures { IfOk result (λ v. option_map scalar_of v ≡ reading.content_scalar (words_of words.now)) }
{
    match whole_content(alloc, words)? {
        Some(content) => Ok(Some(BScalar::Snap(content))),
        None => Ok(None),
    }
}

fn word_scalar(words: &[u8]) -> Option<BScalar>
    ensures { option_map scalar_of result ≡ reading.word_scalar (words_of words.now) }
{
    Some(as_scalar(any_value(single(words)?)?))
}

/// Whether a content begins with this word.
fn opens_content(word: &[u8]) -> bool
    ensures { result ≡ reading.opens_content word.now }
{
    is_word(word, b"unit".as_slice())
        || is_word(word, b"leaf".as_slice())
        || is_word(word, b"pair".as_slice())
}

/// The key and value that all the words of a line are.
pub(crate) fn entry(alloc: Global, words: &[u8]) -> Result<Option<Entry>, Memory>
    ensures { IfOk result (λ e. option_map entry_of e ≡ reading.entry_from (words_of words.now)) }
{
    let mut parts = Vec::new(alloc);
    let mut rest = words;
    while let Some((part, after)) = next_part(rest) {
        parts.push(part)?;
        rest = after;
    }
    if parts.is_empty() {
        return Ok(None);
    }
    let key = Key::new(parts);
    match scalar(alloc, rest)? {
        Some(value) => Ok(Some(Entry { key, value })),
        None => Ok(None),
    }
}

/// The part of a key with which the words of a line begin, where other words stand behind it, and these.
fn next_part(words: &[u8]) -> Option<(KeyPart, &[u8])>
    ensures { option_map (λ r. (r.0, words_of r.1.now)) result ≡ reading.part_from (words_of words.now) }
{
    let (word, rest) = next_word(words)?;
    match next_word(rest) {
        Some(_) => Some((part_of(word)?, rest)),
        None => None,
    }
}

fn part_of(word: &[u8]) -> Option<KeyPart>
    ensures { result ≡ reading.part_of word.now }
{
    argument(any_value(word)?)
}

// ---- types

/// Whether a value has a type.
pub(crate) fn has_base(value: &BScalar, base: BBase) -> bool
    ensures { result ≡ bases.same_base (bases.base_of_scalar (scalar_of value.now)) base }
{
    base_of_scalar(value) == base
}

/// Whether a value is the default of its own type.
pub(crate) fn is_default(value: &BScalar) -> bool
    ensures { result ≡ bases.is_default (scalar_of value.now) }
{
    *value == default_of(base_of_scalar(value))
}

/// Whether an entry is one of a map of this type.
pub(crate) fn fits_entry(ty: &BType, entry: &Entry) -> bool
    ensures { result ≡ fits_entry (record { keys = ty.now.keys.items; base = ty.now.base }) (entry_of entry.now) }
{
    fits_key(&ty.keys, entry.key.parts()) && has_base(&entry.value, ty.base)
}
