// Each reference of the code is below 2^64. It is read off the references of choices one by one.
ghost use Rattle.std.specs.Prelude.{All, map};
ghost use Rattle.vb_value.specs.View.{content_of};
ghost use Rattle.boogie_tree.specs.Whole.{choice_of, entry_of, scalar_of};
ghost use Rattle.moves.specs.Printable.{IsNamed, IsNamedContent, IsNamedEntry, IsNamedKey, IsNamedMove, IsNamedPart, IsNamedScalar, IsNamedValue};

use boogie_tree::{BChoice, BScalar, Entry};
use vb_value::{Content, KeyPart, Value};

pub(crate) fn named_moves(choices: &[BChoice])
    ensures { All IsNamedMove (map choice_of choices.now) }
{
    for choice in choices {
        named_move(choice);
    }
}

fn named_move(choice: &BChoice)
    ensures { IsNamedMove (choice_of choice.now) }
{
    match choice {
        BChoice::Pick(_) => {}
        BChoice::Value(value) => named_scalar(value),
        BChoice::Entries(entries) => named_entries(entries),
    }
}

fn named_entries(entries: &[Entry])
    ensures { All IsNamedEntry (map entry_of entries.now) }
{
    for entry in entries {
        named_entry(entry);
    }
}

fn named_entry(entry: &Entry)
    ensures { IsNamedEntry (entry_of entry.now) }
{
    named_key(entry.key.parts());
    named_scalar(&entry.value);
}

/// Each reference of a key can be named.
pub fn named_key(parts: &[KeyPart])
    ensures { IsNamedKey parts.now }
{
    for part in parts {
        named_part(*part);
    }
}

fn named_part(part: KeyPart)
    ensures { IsNamedPart part }
{
    if let KeyPart::Ref(reference) = part {
        named_reference(reference);
    }
}

/// Each reference of a value can be named.
pub fn named_scalar(value: &BScalar)
    ensures { IsNamedScalar (scalar_of value.now) }
{
    match value {
        BScalar::Ref(reference) => named_reference(*reference),
        BScalar::Snap(content) => named_content(content),
        _ => {}
    }
}

/// Each reference of a content can be named.
pub fn named_content(content: &Content)
    ensures { IsNamedContent (content_of content.now) }
{
    match content {
        Content::Unit => {}
        Content::Leaf(value) => named_value(*value),
        Content::Pair(left, right) => {
            named_content(left);
            named_content(right);
        }
    }
}

/// A value that is a reference can be named.
pub fn named_value(value: Value)
    ensures { IsNamedValue value }
{
    if let Value::Ref(reference) = value {
        named_reference(reference);
    }
}

/// A reference can be named.
pub fn named_reference(_reference: u64)
    ensures { IsNamed _reference }
{}
