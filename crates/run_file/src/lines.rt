// The lines of a run file of Viper.
ghost use Rattle.std.specs.Prelude.{◌≡◌, IfOk, MatchOption, Some};
ghost use Rattle.std.specs.Option.{option_map, option_copied};
ghost use Rattle.viper_state.specs.View.{choice_of};
ghost use Rattle.run_file_words.specs.Reading.{named_line};
ghost use Rattle.run_file_words.specs.Text.{words_of};
ghost use Rattle.run_file.specs.Lines as l;
ghost use Rattle.run_file.specs.Reading as reading;
ghost use Rattle.run_file.specs.LineView.{line_view, scope_view};

use crate::names::UnitScope;
use run_file_words::{
    FirstWord, any_value, fraction, key, next_word, numbered, reference, single, truth, value,
    whole_content,
};
use std::alloc::Global;
use vb_base::Memory;
use vb_value::{Content, Key, Ty, Value};
use viper_state::Choice;

/// What a line names: a variable, a field at a reference, or an instance of a predicate.
#[derive(Drop, PartialEq, Eq, PartialOrd, Ord)]
pub enum LineTarget {
    Variable(usize),
    Place(usize, u64),
    Instance(usize, Key),
}

/// The first word of a line.
#[derive(Clone, Copy)]
pub(crate) enum ViperKeyword {
    Var,
    Heap,
    Content,
    Pick,
    Value,
    Amount,
    Fresh,
    State,
}

impl FirstWord for ViperKeyword {
    ghost spelled = { reading.keyword_text };

    fn text(self) -> &'static str {
        match self {
            ViperKeyword::Var => "var",
            ViperKeyword::Heap => "heap",
            ViperKeyword::Content => "content",
            ViperKeyword::Pick => "pick",
            ViperKeyword::Value => "value",
            ViperKeyword::Amount => "amount",
            ViperKeyword::Fresh => "fresh",
            ViperKeyword::State => "state",
        }
    }
}

/// The first words of lines.
pub(crate) const KEYWORDS: [ViperKeyword; 8] = [
    ViperKeyword::Var,
    ViperKeyword::Heap,
    ViperKeyword::Content,
    ViperKeyword::Pick,
    ViperKeyword::Value,
    ViperKeyword::Amount,
    ViperKeyword::Fresh,
    ViperKeyword::State,
];

/// What a line says.
#[derive(Drop)]
pub(crate) enum ViperLine {
    /// A variable has a value.
    Var(usize, Value),
    /// A field has a value at a reference.
    Heap(usize, u64, Value),
    /// An instance of a predicate has a content.
    Content(usize, Key, Content),
    /// A choice that is no heap and contents.
    Chosen(Choice),
    /// A choice of a heap and contents, which the lines after it fill.
    State,
}

/// The line behind its first word.
pub(crate) fn keyed_line(
    alloc: Global,
    scope: UnitScope,
    keyword: ViperKeyword,
    words: &[u8],
) -> Result<Option<ViperLine>, Memory>
    ensures { IfOk result (λ l. option_map line_view l ≡ reading.keyed_line (scope_view scope.entry) keyword (words_of words.now)) }
{
    match keyword {
        ViperKeyword::Var => Ok(var_line(scope, words)),
        ViperKeyword::Heap => Ok(heap_line(scope, words)),
        ViperKeyword::Content => content_line(alloc, scope, words),
        ViperKeyword::Pick => Ok(chosen(pick_line(words))),
        ViperKeyword::Value => Ok(chosen(value_line(words))),
        ViperKeyword::Amount => Ok(chosen(amount_line(words))),
        ViperKeyword::Fresh => Ok(chosen(fresh_line(words))),
        ViperKeyword::State => Ok(state_line(words)),
    }
}

fn chosen(choice: Option<Choice>) -> Option<ViperLine>
    ensures { option_map line_view result ≡ option_map l.Chosen (option_map choice_of choice) }
{
    Some(ViperLine::Chosen(choice?))
}

/// The value of a type that is the one word.
fn only_value(ty: Ty, words: &[u8]) -> Option<Value>
    ensures { result ≡ reading.only_value ty (words_of words.now) }
{
    value(ty, single(words)?)
}

fn var_line(scope: UnitScope, words: &[u8]) -> Option<ViperLine>
    ensures { option_map line_view result ≡ named_line reading.variable_line (scope_view scope.entry).variables (words_of words.now) }
{
    let (number, rest) = numbered(scope.variables, words)?;
    variable_line(number, scope.types.get(number), rest)
}

fn variable_line(number: usize, ty: Option<&Ty>, words: &[u8]) -> Option<ViperLine>
    ensures { option_map line_view result ≡ reading.variable_line number (option_copied ty.entry) (words_of words.now) }
{
    Some(ViperLine::Var(number, only_value(*ty?, words)?))
}

fn heap_line(scope: UnitScope, words: &[u8]) -> Option<ViperLine>
    ensures { option_map line_view result ≡ named_line reading.place_line (scope_view scope.entry).fields (words_of words.now) }
{
    let (number, rest) = numbered(scope.fields, words)?;
    let layout = scope.layout;
    place_line(number, layout.fields.get(number), rest)
}

fn place_line(number: usize, ty: Option<&Ty>, words: &[u8]) -> Option<ViperLine>
    ensures { option_map line_view result ≡ reading.place_line number (option_copied ty.entry) (words_of words.now) }
{
    let ty = *ty?;
    let (place, rest) = next_word(words)?;
    Some(ViperLine::Heap(number, reference(place)?, only_value(ty, rest)?))
}

fn content_line(alloc: Global, scope: UnitScope, words: &[u8]) -> Result<Option<ViperLine>, Memory>
    ensures { IfOk result (λ l. option_map line_view l ≡ named_line reading.instance_line (scope_view scope.entry).predicates (words_of words.now)) }
{
    let Some((number, rest)) = numbered(scope.predicates, words) else {
        return Ok(None);
    };
    let layout = scope.layout;
    match layout.keys.get(number) {
        Some(types) => instance_line(alloc, number, types, rest),
        None => Ok(None),
    }
}

fn instance_line(
    alloc: Global,
    number: usize,
    types: &[Ty],
    words: &[u8],
) -> Result<Option<ViperLine>, Memory>
    ensures { IfOk result (λ l. option_map line_view l ≡ reading.instance_line number (Some types.now) (words_of words.now)) }
{
    let Some((key, rest)) = key(alloc, types, words)? else {
        return Ok(None);
    };
    match whole_content(alloc, rest)? {
        Some(content) => Ok(Some(ViperLine::Content(number, key, content))),
        None => Ok(None),
    }
}

fn pick_line(words: &[u8]) -> Option<Choice>
    ensures { option_map choice_of result ≡ reading.pick_line (words_of words.now) }
{
    Some(Choice::Branch(truth(single(words)?)?))
}

fn value_line(words: &[u8]) -> Option<Choice>
    ensures { option_map choice_of result ≡ reading.value_line (words_of words.now) }
{
    Some(Choice::Took(any_value(single(words)?)?))
}

fn amount_line(words: &[u8]) -> Option<Choice>
    ensures { option_map choice_of result ≡ reading.amount_line (words_of words.now) }
{
    Some(Choice::Amount(fraction(single(words)?)?))
}

fn fresh_line(words: &[u8]) -> Option<Choice>
    ensures { option_map choice_of result ≡ reading.fresh_line (words_of words.now) }
{
    Some(Choice::Fresh(reference(single(words)?)?))
}

fn state_line(words: &[u8]) -> Option<ViperLine>
    ensures { option_map line_view result ≡ reading.state_line (words_of words.now) }
{
    match next_word(words) {
        Some(_) => None,
        None => Some(ViperLine::State),
    }
}
