// The reader of run files of Boogie.
ghost use Rattle.std.specs.Prelude.{◌≡◌, ◌≤◌, ◌<◌, ◌^◌, List, ℕ, true, false, Some, IfOk, IfErr, OnOk, MatchResult, length, map, option_and_then};
ghost use Rattle.std.specs.Option.{option_map};
ghost use Rattle.vb_base.specs.Limits.{max_boogie_bytes};
ghost use Rattle.vb_base.specs.Names.{NamesDiffer};
ghost use Rattle.vb_base.specs.declared.places.Pos.{Pos};
ghost use Rattle.boogie_tree.specs.Value as v;
ghost use Rattle.boogie_tree.specs.Value.{BRun as Plain};
ghost use Rattle.boogie_tree.specs.Whole.{choice_of, entry_of, proc_of, run_of, scalar_of, local_of};
ghost use Rattle.run_file_boogie.specs.BoogieLines as l;
ghost use Rattle.run_file_boogie.specs.BoogieLines.{known};
ghost use Rattle.run_file_boogie.specs.BoogieProgress as progress;
ghost use Rattle.run_file_boogie.specs.BoogieRun as r;
ghost use Rattle.run_file_boogie.specs.BoogieView.{line_view, scope_view, filling_of, progress_of};
ghost use Rattle.run_file_words.specs.Answers.{Gives, GivesPlace};
ghost use Rattle.run_file_words.specs.Machine.{Steps};
ghost use Rattle.run_file_words.specs.Answers.{UnlessMemory};
ghost use Rattle.run_file_words.specs.Text.{words_of};
ghost use Rattle.run_file_boogie.specs.declared.boogie_reader.BoogieStage.TheVariants as stage;

use crate::boogie_lines::{BoogieLine, KEYWORDS, ProcedureScope, keyed_line, local_names};
use crate::boogie_names::header_name;
use crate::boogie_values::{fits_entry, is_default};
use boogie_tree::{BChoice, BRun, BScalar, BSetting, BValue, Entry, Local, Proc, default_of};
use run_file_words::{LineReader, RunFileFault, first_word, read_lines};
use sorted_set::Rising;
use sparse::Builder;
use std::alloc::Global;
use std::collections::BTreeSet;
use std::mem;
use vb_base::{Ident, Memory};
use vb_value::{Content, Key};

/// The run of a procedure that the bytes of a run file spell, or else where they go wrong: at the first line that may not
/// stand there, or at the last where the header is missing. `Memory` where there is no memory.
pub fn read_boogie_run(alloc: Global, bytes: &[u8], proc: &Proc) -> Result<BRun, RunFileFault>
    requires few { length bytes.now ≤ max_boogie_bytes }
    requires names { NamesDiffer (known (proc_of proc.now).locals).names }
    ensures run { IfOk result (λ run. r.SpellsBoogieRun bytes.now (proc_of proc.now) (run_of run)) }
    ensures fault { IfErr result (UnlessMemory (r.GoesWrongAt bytes.now (proc_of proc.now))) }

    // and so no other run, and no other place
    ensures only_run { (run : Plain) → r.SpellsBoogieRun bytes.now (proc_of proc.now) run → Gives (λ x. r.SameRun (proc_of proc.now).locals (run_of x) run) result }
    ensures only_place { (at : Pos) → r.GoesWrongAt bytes.now (proc_of proc.now) at → GivesPlace at result }
{
    let names = local_names(alloc, &proc.locals)?;
    let scope = ProcedureScope {
        names: &names,
        locals: &proc.locals,
    };
    let reader = BoogieReader::new(alloc)?;
    let scoped = BoogieScoped {
        reader,
        name: &proc.name,
        scope,
    };
    read_lines(alloc, scoped, bytes)
}

/// What may stand next in a file.
#[derive(Clone, Copy)]
enum BoogieStage {
    Header,
    /// Variables get their values.
    Settings,
    /// The variable of this number is a map, which is filled.
    Map(usize),
    Choices,
    /// The entries of a choice are filled.
    Entries,
}

/// How far a file is read.
#[derive(Drop)]
struct BoogieReader {
    stage: BoogieStage,
    /// The variables that lines have named.
    named: BTreeSet<usize>,
    /// The keys that lines have named in the map that is filled. A printed run gives them in ascending order.
    keys: Rising<Key>,
    /// The map that is filled.
    filling: Builder<Key, BScalar>,
    run: BRun,
}

impl BoogieReader {
    /// Nothing is read yet.
    fn new(alloc: Global) -> Result<BoogieReader, Memory>
        ensures { IfOk result (λ x. progress_of x ≡ progress.begun) }
    {
        Ok(BoogieReader {
            stage: BoogieStage::Header,
            named: BTreeSet::new(alloc),
            keys: Rising::new(alloc),
            filling: Builder::make(alloc, nothing()),
            run: BRun {
                settings: Vec::new(alloc),
                choices: Vec::new(alloc),
            },
        })
    }

    /// Reads the header. False where the line is none, or names another procedure.
    fn read_header(&mut self, name: &Ident, text: &[u8]) -> bool
        ensures { Steps result (progress.header_read name.now (progress_of self.old) (words_of text.now)) (progress_of self.new) }
    {
        let header = is_named(name, header_name(text));
        if header {
            self.stage = BoogieStage::Settings;
        }
        header
    }

    /// Takes in what a line says. False where the line may not stand.
    fn follow(
        &mut self,
        alloc: Global,
        scope: ProcedureScope,
        line: BoogieLine,
    ) -> Result<bool, Memory>
        ensures { IfOk result (λ ok. Steps ok (progress.followed (scope_view scope.entry) (progress_of self.old) (line_view line)) (progress_of self.new)) }
    {
        match line {
            BoogieLine::Var(number, value) => self.set_variable(alloc, number, value),
            BoogieLine::Map(number) => self.open_map(alloc, scope, number),
            BoogieLine::At(entry) => self.set_entry(scope, entry),
            BoogieLine::Chosen(choice) => self.choose(alloc, choice),
            BoogieLine::Opened => self.open_entries(alloc),
        }
    }

    /// Gives a variable a value, before the first choice and once.
    fn set_variable(&mut self, alloc: Global, number: usize, value: BScalar) -> Result<bool, Memory>
        ensures { IfOk result (λ ok. Steps ok (progress.variable_set (progress_of self.old) number (scalar_of value)) (progress_of self.new)) }
    {
        if !may_set(self.stage) || !self.named.insert(number)? {
            return Ok(false);
        }
        self.open(alloc, BoogieStage::Settings, nothing())?;
        self.run.settings.push(BSetting {
            var: number,
            value: BValue::One(value),
        })?;
        Ok(true)
    }

    /// Begins to fill a map, before the first choice and once.
    fn open_map(
        &mut self,
        alloc: Global,
        scope: ProcedureScope,
        number: usize,
    ) -> Result<bool, Memory>
        ensures { IfOk result (λ ok. Steps ok (progress.map_opened (scope_view scope.entry) (progress_of self.old) number) (progress_of self.new)) }
    {
        if !may_set(self.stage) || !self.named.insert(number)? {
            return Ok(false);
        }
        let zero = default_at(scope.locals.get(number));
        self.open(alloc, BoogieStage::Map(number), zero)?;
        Ok(true)
    }

    /// Gives the map that is filled a value, once for each key.
    fn set_entry(&mut self, scope: ProcedureScope, entry: Entry) -> Result<bool, Memory>
        ensures { IfOk result (λ ok. Steps ok (progress.entry_set (scope_view scope.entry) (progress_of self.old) (entry_of entry)) (progress_of self.new)) }
    {
        if !may_fill(scope, self.stage, &entry) || !self.keys.insert(entry.key.clone()?)? {
            return Ok(false);
        }
        fill(&mut self.filling, entry)?;
        Ok(true)
    }

    /// Takes in a choice.
    fn choose(&mut self, alloc: Global, choice: BChoice) -> Result<bool, Memory>
        ensures { IfOk result (λ ok. Steps ok (Some (progress.opened stage.Choices (progress_of self.old).named r.nothing (progress.run_chosen (choice_of choice) (progress.closed (progress_of self.old))))) (progress_of self.new)) }
    {
        self.open(alloc, BoogieStage::Choices, nothing())?;
        self.run.choices.push(choice)?;
        Ok(true)
    }

    /// Begins to fill the entries of a choice.
    fn open_entries(&mut self, alloc: Global) -> Result<bool, Memory>
        ensures { IfOk result (λ ok. Steps ok (Some (progress.opened stage.Entries (progress_of self.old).named r.nothing (progress.closed (progress_of self.old)))) (progress_of self.new)) }
    {
        self.open(alloc, BoogieStage::Entries, nothing())?;
        Ok(true)
    }

    /// Puts the map that was filled into the run. What is filled next has this default.
    fn open(&mut self, alloc: Global, next: BoogieStage, zero: BScalar) -> Result<(), Memory>
        ensures { OnOk result (progress_of self.new ≡ progress.opened next (progress_of self.old).named (scalar_of zero) (progress.closed (progress_of self.old))) }
    {
        let filled = mem::replace(&mut self.filling, Builder::make(alloc, zero));
        put_filled(alloc, &mut self.run, self.stage, filled)?;
        self.keys.clear();
        self.stage = next;
        Ok(())
    }

    /// The run.
    fn finish(self, alloc: Global) -> Result<BRun, Memory>
        ensures { IfOk result (λ run. run_of run ≡ progress.closed (progress_of self)) }
    {
        // The keys give back their memory before the map takes its own.
        drop(self.keys);
        let mut run = self.run;
        put_filled(alloc, &mut run, self.stage, self.filling)?;
        Ok(run)
    }
}

/// The default of maps that nothing is put into.
fn nothing() -> BScalar
    ensures { scalar_of result ≡ r.nothing }
{
    BScalar::Snap(Content::Unit)
}

/// The default of the type of the values of a map.
fn default_at(local: Option<&Local>) -> BScalar
    ensures { scalar_of result ≡ progress.default_at (option_map (λ x. (local_of x.now).ty) local.entry) }
{
    match local {
        Some(local) => default_of(local.ty.base),
        None => nothing(),
    }
}

/// Puts an entry into a map, unless its value is the default of its own type.
fn fill(map: &mut Builder<Key, BScalar>, entry: Entry) -> Result<(), Memory>
    ensures { OnOk result (filling_of map.new ≡ r.entry_with (filling_of map.old) (entry_of entry)) }
{
    if is_default(&entry.value) {
        return Ok(());
    }
    map.set(entry.key, entry.value)
}

/// Puts a map that was filled into a run.
fn put_filled(
    alloc: Global,
    run: &mut BRun,
    stage: BoogieStage,
    map: Builder<Key, BScalar>,
) -> Result<(), Memory>
    ensures { OnOk result (run_of run.new ≡ progress.with_filled stage (filling_of map) (run_of run.old)) }
{
    match stage {
        BoogieStage::Map(var) => put_map(run, var, map),
        BoogieStage::Entries => put_entries(alloc, run, map),
        _ => Ok(()),
    }
}

fn put_map(run: &mut BRun, var: usize, map: Builder<Key, BScalar>) -> Result<(), Memory>
    ensures { OnOk result (run_of run.new ≡ progress.run_set var (v.Many (filling_of map)) (run_of run.old)) }
{
    let map = map.finish()?;
    run.settings.push(BSetting {
        var,
        value: BValue::Map(map),
    })?;
    Ok(())
}

fn put_entries(alloc: Global, run: &mut BRun, map: Builder<Key, BScalar>) -> Result<(), Memory>
    ensures { OnOk result (run_of run.new ≡ progress.run_chosen (v.Entries (r.entries_of (filling_of map))) (run_of run.old)) }
{
    let entries = entries_of(alloc, map)?;
    run.choices.push(BChoice::Entries(entries))?;
    Ok(())
}

/// The entries of a map, in ascending order of the keys.
fn entries_of(alloc: Global, filled: Builder<Key, BScalar>) -> Result<Vec<Entry>, Memory>
    ensures { IfOk result (λ list. map entry_of list.items ≡ r.entries_of (filling_of filled)) }
{
    let pairs = filled.into_entries()?;
    let mut entries = Vec::with_capacity(alloc, pairs.len())?;
    for (key, value) in pairs {
        entries.push(Entry { key, value })?;
    }
    Ok(entries)
}

/// Whether a variable's line may stand.
fn may_set(stage: BoogieStage) -> bool
    ensures { result ≡ progress.may_set stage }
{
    match stage {
        BoogieStage::Settings | BoogieStage::Map(_) => true,
        _ => false,
    }
}

/// Whether an entry may stand.
fn may_fill(scope: ProcedureScope, stage: BoogieStage, entry: &Entry) -> bool
    ensures { result ≡ progress.may_fill (scope_view scope.entry) stage (entry_of entry.now) }
{
    match stage {
        BoogieStage::Map(var) => fits_local(scope.locals.get(var), entry),
        BoogieStage::Entries => true,
        _ => false,
    }
}

fn fits_local(local: Option<&Local>, entry: &Entry) -> bool
    ensures { result ≡ progress.fits_type (option_map (λ x. (local_of x.now).ty) local.entry) (entry_of entry.now) }
{
    match local {
        Some(local) => fits_entry(&local.ty, entry),
        None => false,
    }
}

fn is_named(name: &Ident, word: Option<&[u8]>) -> bool
    ensures { result ≡ progress.is_named name.now (option_map (λ w. w.now) word.entry) }
{
    match word {
        Some(word) => *word == *name.bytes(),
        None => false,
    }
}

/// A reader, and what the lines of its file may name.
#[derive(Drop)]
struct BoogieScoped<'a> {
    reader: BoogieReader,
    name: &'a Ident,
    scope: ProcedureScope<'a>,
}

impl LineReader for BoogieScoped<'_> {
    type Run = BRun;

    type ReadLine = BoogieLine;

    ghost State = { progress.Progress };

    ghost Said = { l.BoogieLine };

    ghost Plain = { Plain };

    ghost kind = { λ x. progress.file_kind x.name.now (scope_view x.scope) };

    ghost state = { λ x. progress_of x.reader };

    ghost said = { line_view };

    ghost plain = { run_of };

    fn is_headed(&self) -> bool {
        !matches!(self.reader.stage, BoogieStage::Header)
    }

    fn read_header(&mut self, words: &[u8]) -> bool {
        self.reader.read_header(self.name, words)
    }

    fn line_of(&self, alloc: Global, words: &[u8]) -> Result<Option<BoogieLine>, Memory> {
        match first_word(&KEYWORDS, words) {
            Some((keyword, rest)) => keyed_line(alloc, self.scope, keyword, rest),
            None => Ok(None),
        }
    }

    fn follow(&mut self, alloc: Global, line: BoogieLine) -> Result<bool, Memory> {
        self.reader.follow(alloc, self.scope, line)
    }

    fn finish(self, alloc: Global) -> Result<BRun, Memory> {
        self.reader.finish(alloc)
    }
}
