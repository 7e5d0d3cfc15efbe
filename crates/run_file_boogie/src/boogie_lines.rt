// The lines of a run file of Boogie.
ghost use Rattle.std.specs.Prelude.{◌≡◌, IfOk, MatchOption, map};
ghost use Rattle.std.specs.Option.{option_map};
ghost use Rattle.boogie_tree.specs.Program.{Local as Plain};
ghost use Rattle.vb_base.specs.Names.{NamesDiffer};
ghost use Rattle.boogie_tree.specs.Whole.{choice_of, locals_of, scalar_of, local_of};
ghost use Rattle.run_file_boogie.specs.BoogieLines as l;
ghost use Rattle.run_file_boogie.specs.BoogieLines.{known};
ghost use Rattle.run_file_boogie.specs.BoogieReading as reading;
ghost use Rattle.run_file_boogie.specs.BoogieView.{line_view, scope_view};
ghost use Rattle.run_file_words.specs.Reading.{named_line};
ghost use Rattle.run_file_words.specs.Text.{words_of};

use crate::boogie_values::{entry, has_base, scalar};
use boogie_tree::{BChoice, BScalar, Entry, Local};
use run_file_words::{FirstWord, RunFileNames, next_word, numbered, single, truth};
use std::alloc::Global;
use symbol_table::{Digest, NameKey, SymbolTable};
use vb_base::Memory;

/// What the lines of a file for one procedure may name: its variables.
#[derive(Clone, Copy)]
pub(crate) struct ProcedureScope<'a> {
    pub(crate) names: &'a RunFileNames,
    pub(crate) locals: &'a [Local],
}

/// The names of the variables of a procedure in order.
pub(crate) fn local_names(alloc: Global, locals: &[Local]) -> Result<RunFileNames, Memory>
    requires { NamesDiffer (known (locals_of locals.now)).names }
    ensures { IfOk result (λ x. x ≡ (known (locals_of locals.now)).names) }
{
    let mut known = SymbolTable::new(alloc, key_of(locals));
    for local in locals {
        known.add(local.name.copy()?)?;
    }
    Ok(RunFileNames::of_table(known))
}

/// A key that comes of the names of all these.
fn key_of(locals: &[Local]) -> NameKey {
    let mut digest = Digest::new();
    for local in locals {
        digest.add(local.name.bytes());
    }
    digest.key()
}

/// The first word of a line.
#[derive(Clone, Copy)]
pub(crate) enum BoogieKeyword {
    Var,
    Entries,
    At,
    Pick,
    Value,
}

impl FirstWord for BoogieKeyword {
    ghost spelled = { reading.keyword_text };

    fn text(self) -> &'static str {
        match self {
            BoogieKeyword::Var => "var",
            BoogieKeyword::Entries => "entries",
            BoogieKeyword::At => "at",
            BoogieKeyword::Pick => "pick",
            BoogieKeyword::Value => "value",
        }
    }
}

/// The first words of lines.
pub(crate) const KEYWORDS: [BoogieKeyword; 5] = [
    BoogieKeyword::Var,
    BoogieKeyword::Entries,
    BoogieKeyword::At,
    BoogieKeyword::Pick,
    BoogieKeyword::Value,
];

/// What a line says.
#[derive(Drop)]
pub(crate) enum BoogieLine {
    /// A variable that is no map has a value.
    Var(usize, BScalar),
    /// A map, which the lines after it fill.
    Map(usize),
    /// The map that is filled has a value at a key.
    At(Entry),
    /// A choice that is no entries.
    Chosen(BChoice),
    /// A choice of entries, which the lines after it fill.
    Opened,
}

/// The line behind its first word.
pub(crate) fn keyed_line(
    alloc: Global,
    scope: ProcedureScope,
    keyword: BoogieKeyword,
    words: &[u8],
) -> Result<Option<BoogieLine>, Memory>
    ensures { IfOk result (λ l. option_map line_view l ≡ reading.keyed_line (scope_view scope.entry) keyword (words_of words.now)) }
{
    match keyword {
        BoogieKeyword::Var => var_line(alloc, scope, words),
        BoogieKeyword::Entries => Ok(entries_line(scope, words)),
        BoogieKeyword::At => at_line(alloc, words),
        BoogieKeyword::Pick => Ok(chosen(pick_line(words))),
        BoogieKeyword::Value => value_line(alloc, words),
    }
}

fn chosen(choice: Option<BChoice>) -> Option<BoogieLine>
    ensures { option_map line_view result ≡ option_map l.Chosen (option_map choice_of choice) }
{
    Some(BoogieLine::Chosen(choice?))
}

fn var_line(
    alloc: Global,
    scope: ProcedureScope,
    words: &[u8],
) -> Result<Option<BoogieLine>, Memory>
    ensures { IfOk result (λ l. option_map line_view l ≡ named_line reading.variable_line (scope_view scope.entry) (words_of words.now)) }
{
    match numbered(scope.names, words) {
        Some((number, rest)) => variable_line(alloc, number, scope.locals.get(number), rest),
        None => Ok(None),
    }
}

fn variable_line(
    alloc: Global,
    number: usize,
    local: Option<&Local>,
    words: &[u8],
) -> Result<Option<BoogieLine>, Memory>
    ensures { IfOk result (λ l. option_map line_view l ≡ reading.variable_line number (option_map (λ x. (local_of x.now).ty) local.entry) (words_of words.now)) }
{
    let Some(local) = local else {
        return Ok(None);
    };
    match scalar(alloc, words)? {
        Some(value) => Ok(variable_given(number, local, value)),
        None => Ok(None),
    }
}

fn variable_given(number: usize, local: &Local, value: BScalar) -> Option<BoogieLine>
    ensures { option_map line_view result ≡ reading.variable_given number (local_of local.now).ty (scalar_of value) }
{
    if local.ty.keys.is_empty() && has_base(&value, local.ty.base) {
        Some(BoogieLine::Var(number, value))
    } else {
        None
    }
}

fn entries_line(scope: ProcedureScope, words: &[u8]) -> Option<BoogieLine>
    ensures { option_map line_view result ≡ reading.entries_line (scope_view scope.entry) (words_of words.now) }
{
    if next_word(words).is_none() {
        return Some(BoogieLine::Opened);
    }
    match numbered(scope.names, words) {
        Some((number, rest)) => map_line(number, scope.locals.get(number), rest),
        None => None,
    }
}

fn map_line(number: usize, local: Option<&Local>, words: &[u8]) -> Option<BoogieLine>
    ensures { option_map line_view result ≡ reading.map_line number (option_map (λ x. (local_of x.now).ty) local.entry) (words_of words.now) }
{
    let local = local?;
    if local.ty.keys.is_empty() || next_word(words).is_some() {
        return None;
    }
    Some(BoogieLine::Map(number))
}

fn at_line(alloc: Global, words: &[u8]) -> Result<Option<BoogieLine>, Memory>
    ensures { IfOk result (λ x. option_map line_view x ≡ option_map l.At (reading.entry_from (words_of words.now))) }
{
    match entry(alloc, words)? {
        Some(entry) => Ok(Some(BoogieLine::At(entry))),
        None => Ok(None),
    }
}

fn pick_line(words: &[u8]) -> Option<BChoice>
    ensures { option_map choice_of result ≡ reading.pick_line (words_of words.now) }
{
    Some(BChoice::Pick(truth(single(words)?)?))
}

fn value_line(alloc: Global, words: &[u8]) -> Result<Option<BoogieLine>, Memory>
    ensures { IfOk result (λ x. option_map line_view x ≡ option_map l.Chosen (reading.value_line (words_of words.now))) }
{
    match scalar(alloc, words)? {
        Some(value) => Ok(Some(BoogieLine::Chosen(BChoice::Value(value)))),
        None => Ok(None),
    }
}
