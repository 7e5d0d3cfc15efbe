// The keys and contents that words spell.
ghost use Rattle.std.specs.Prelude.{◌≡◌, ◌<◌, ◌+◌, ℕ, List, Some, IfOk, MatchOption};
ghost use Rattle.std.specs.Option.{option_map};
ghost use Rattle.vb_value.specs.Content as tree;
ghost use Rattle.vb_value.specs.Content.{nodes};
ghost use Rattle.vb_value.specs.View.{content_of};
ghost use Rattle.run_file_words.specs.Text.{words_of};
ghost use Rattle.run_file_words.specs.Values.{BeginsWithContent};
ghost use Rattle.run_file_words.specs.Found.{IsFound, IsLeafFound, IsPairFound};
ghost use Rattle.run_file_words.specs.Reading.{argument_from, key_from, whole_content};

use crate::texts::{is_word, next_word};
use crate::values::{any_value, argument, value};
use std::alloc::Global;
use std::rc::Rc;
use vb_base::Memory;
use vb_base::limits::MAX_CONTENT_NODES;
use vb_value::{Content, Key, KeyPart, Ty};

/// The arguments of these types with which the words of a line begin, and the rest of the line.
pub fn key<'a>(
    alloc: Global,
    types: &[Ty],
    words: &'a [u8],
) -> Result<Option<(Key, &'a [u8])>, Memory>
    ensures { IfOk result (λ r. option_map (λ k. (k.0, words_of k.1.now)) r ≡ key_from types.now (words_of words.now)) }
{
    let mut parts = Vec::with_capacity(alloc, types.len())?;
    let mut rest = words;
    for ty in types {
        let Some((part, after)) = argument_of(*ty, rest) else {
            return Ok(None);
        };
        parts.push(part)?;
        rest = after;
    }
    Ok(Some((Key::new(parts), rest)))
}

/// The argument of this type with which the words of a line begin, and the rest of the line.
fn argument_of(ty: Ty, words: &[u8]) -> Option<(KeyPart, &[u8])>
    ensures { option_map (λ r. (r.0, words_of r.1.now)) result ≡ argument_from ty (words_of words.now) }
{
    let (word, rest) = next_word(words)?;
    Some((argument(value(ty, word)?)?, rest))
}

/// The content that all the words of a line are.
pub fn whole_content(alloc: Global, words: &[u8]) -> Result<Option<Content>, Memory>
    ensures { IfOk result (λ c. option_map content_of c ≡ whole_content (words_of words.now)) }
{
    let Some((content, rest, _)) = content(alloc, words, MAX_CONTENT_NODES)? else {
        return Ok(None);
    };
    match next_word(rest) {
        Some(_) => Ok(None),
        None => Ok(Some(content)),
    }
}

/// The content of at most so many nodes with which the words of a line begin, the rest of the line, and how many more nodes
/// there might have been.
#[cycle(contents)]
fn content(alloc: Global, words: &[u8], room: u32) -> Result<Option<(Content, &[u8], u32)>, Memory>
    ensures { IfOk result (λ r. IsFound (words_of words.now) room r) }
{
    let Some((word, rest)) = next_word(words) else {
        return Ok(None);
    };
    let Some(room) = room.checked_sub(1) else {
        return Ok(None);
    };
    if is_word(word, b"unit".as_slice()) {
        Ok(Some((Content::Unit, rest, room)))
    } else if is_word(word, b"leaf".as_slice()) {
        Ok(leaf(rest, room))
    } else if is_word(word, b"pair".as_slice()) {
        pair(alloc, rest, room)
    } else {
        Ok(None)
    }
}

/// The leaf of the value with which the words begin.
fn leaf(words: &[u8], room: u32) -> Option<(Content, &[u8], u32)>
    ensures { IsLeafFound (words_of words.now) room result }
{
    let (word, rest) = next_word(words)?;
    Some((Content::Leaf(any_value(word)?), rest, room))
}

/// The pair of the two contents with which the words begin. While the left one is read, a node is kept back for the right
/// one.
#[cycle(contents)]
fn pair(alloc: Global, words: &[u8], room: u32) -> Result<Option<(Content, &[u8], u32)>, Memory>
    ensures { IfOk result (λ r. IsPairFound (words_of words.now) room r) }
{
    let Some(kept) = room.checked_sub(1) else {
        return Ok(None);
    };
    let Some((left, rest, room)) = content(alloc, words, kept)? else {
        return Ok(None);
    };
    let Some((right, rest, room)) = content(alloc, rest, room + 1)? else {
        return Ok(None);
    };
    Ok(Some((paired(alloc, left, right)?, rest, room)))
}

fn paired(alloc: Global, left: Content, right: Content) -> Result<Content, Memory>
    ensures { IfOk result (λ c. content_of c ≡ tree.Pair (content_of left) (content_of right)) }
{
    let left = Rc::new(alloc, left)?;
    let right = Rc::new(alloc, right)?;
    Ok(Content::Pair(left, right))
}
