// The reader of run files of Viper.
ghost use Rattle.std.specs.Prelude.{ℕ, ◌≡◌, ◌≤◌, ◌<◌, [], false, Some, IfOk, IfErr, OnOk, MatchResult, length};
ghost use Rattle.vb_base.specs.Limits.{max_boogie_bytes};
ghost use Rattle.vb_base.specs.declared.places.Pos.{Pos};
ghost use Rattle.viper_core.specs.Formed.{IsFormed};
ghost use Rattle.viper_core.specs.View.{program_of};
ghost use Rattle.viper_state.specs.Choice.{Filled};
ghost use Rattle.viper_state.specs.View.{choice_of};
ghost use Rattle.run_file.specs.FillingView.{filling_of};
ghost use Rattle.run_file.specs.Lines as l;
ghost use Rattle.run_file.specs.Run.{ViperRun as Plain, SpellsViperRun, GoesWrongAt, scope_memo};
ghost use Rattle.run_file.specs.LineView.{line_view, scope_view};
ghost use Rattle.run_file_words.specs.Machine.{IsReadBy, StopsBy, Steps};
ghost use Rattle.run_file.specs.Progress as progress;
ghost use Rattle.run_file_words.specs.Answers.{UnlessMemory};
ghost use Rattle.run_file.specs.NamedView.{named_of};
ghost use Rattle.run_file_words.specs.Text.{lines_of, words_of};
ghost use Rattle.run_file.specs.Front.{Front, SpellsFront, front_of};
ghost use Rattle.run_file.specs.View.{front_view, progress_of, run_of};
ghost use Rattle.run_file_words.specs.Answers.{Gives, GivesPlace};
ghost use Rattle.run_file.specs.declared.reader.ViperStage.TheVariants as stage;
ghost use Rattle.run_file_words.specs.declared.faults.RunFileFault.TheVariants as fault;

use crate::lines::{KEYWORDS, LineTarget, ViperLine, keyed_line};
use crate::memos::{Filling, defaults};
use crate::named_sets::NamedSets;
use crate::names::{UnitScope, predicate_names, variables_of};
use crate::runs::{ViperFront, ViperRun};
use run_file_words::{LineReader, RunFileFault, RunFileNames, first_word, next_word, read_lines};
use std::alloc::Global;
use std::mem;
use vb_base::Memory;
use vb_value::Value;
use viper_core::Program;
use viper_state::{Choice, Memo, Opening};

/// The run of a unit that the bytes of a run file spell, or else where they go wrong: at the first line that may not
/// stand there, or at the last where the header is missing. `Memory` where there is no memory.
pub fn read_viper_run(
    alloc: Global,
    bytes: &[u8],
    program: &Program,
    unit: u32,
) -> Result<ViperRun, RunFileFault>
    requires few { length bytes.now ≤ max_boogie_bytes }
    requires formed { IsFormed (program_of program.now) }
    requires unit { unit < length (program_of program.now).units }
    ensures run { IfOk result (λ run. SpellsViperRun bytes.now (program_of program.now) unit (run_of run)) }
    ensures fault { IfErr result (UnlessMemory (GoesWrongAt bytes.now (program_of program.now) unit)) }

    // and so no other run, and no other place
    ensures only_run { (run : Plain) → SpellsViperRun bytes.now (program_of program.now) unit run → Gives (λ x. run_of x ≡ run) result }
    ensures only_place { (at : Pos) → GoesWrongAt bytes.now (program_of program.now) unit at → GivesPlace at result }
{
    match read_viper_front(alloc, bytes, program, unit, usize::MAX) {
        Ok(front) => whole_run(front),
        Err(fault) => Err(fault),
    }
}

/// The run whose prefix this is, if it has all choices. No memory has room for more of them than a prefix may have at most.
fn whole_run(front: ViperFront) -> Result<ViperRun, RunFileFault>
    ensures { MatchResult result (λ run. (front.more ≡ 0) × (run_of run ≡ run_of front.run)) (λ e. e ≡ fault.Memory) }
{
    let ViperFront { run, more } = front;
    if more == 0 {
        Ok(run)
    } else {
        Err(RunFileFault::Memory)
    }
}

/// The prefix, with so many choices, of the run of a unit that the bytes of a run file spell. The choices behind it are checked
/// and counted, and not built: each heap and contents has a map for each field and each predicate. Bytes that spell no run go
/// wrong as for `read_viper_run`. `Memory` where there is no memory for the prefix or for the names of the program.
pub fn read_viper_front(
    alloc: Global,
    bytes: &[u8],
    program: &Program,
    unit: u32,
    many: usize,
) -> Result<ViperFront, RunFileFault>
    requires few { length bytes.now ≤ max_boogie_bytes }
    requires formed { IsFormed (program_of program.now) }
    requires unit { unit < length (program_of program.now).units }
    ensures run { IfOk result (λ x. SpellsFront bytes.now (program_of program.now) unit many (front_view x)) }
    ensures fault { IfErr result (UnlessMemory (GoesWrongAt bytes.now (program_of program.now) unit)) }

    // and so no other prefix, and no other place
    ensures only_run { (run : Plain) → SpellsViperRun bytes.now (program_of program.now) unit run → Gives (λ x. front_view x ≡ front_of many run) result }
    ensures only_place { (at : Pos) → GoesWrongAt bytes.now (program_of program.now) unit at → GivesPlace at result }
{
    let (names, types) = variables_of(program, unit);
    let variables = RunFileNames::of(alloc, names)?;
    let fields = RunFileNames::of(alloc, &program.fields)?;
    let predicates = predicate_names(alloc, &program.predicates)?;
    let scope = UnitScope {
        variables: &variables,
        types,
        fields: &fields,
        predicates: &predicates,
        layout: &program.layout,
    };
    read_front(alloc, scope, many, bytes)
}

/// What may stand next in a file.
#[derive(Clone, Copy)]
enum ViperStage {
    Header,
    Opening,
    /// A heap and contents are filled, which are the next choice. Behind the prefix their lines fill nothing.
    Filling,
    Choosing,
}

/// How far a file is read.
#[derive(Drop)]
struct ViperReader {
    stage: ViperStage,
    /// What the lines that fill the same heap and contents have named.
    named: NamedSets,
    /// The heap and contents that are filled.
    filling: Filling,
    /// The prefix of the run without those.
    front: ViperFront,
}

impl ViperReader {
    /// Nothing is read yet.
    fn new(alloc: Global, scope: UnitScope) -> Result<ViperReader, Memory>
        ensures { (many : ℕ) → IfOk result (λ x. progress_of x ≡ progress.begun (progress.fronts many) (scope_view scope.entry)) }
    {
        let filling = Filling::of(alloc, scope.layout)?;
        let store = defaults(alloc, scope.types)?;
        let memo = Memo {
            heap: Vec::new(alloc),
            content: Vec::new(alloc),
        };
        Ok(ViperReader {
            stage: ViperStage::Header,
            named: NamedSets::nothing(alloc),
            filling,
            front: ViperFront {
                run: ViperRun {
                    opening: Opening { store, memo },
                    choices: Vec::new(alloc),
                },
                more: 0,
            },
        })
    }

    /// Reads the header. False where the line is none.
    fn read_header(&mut self, text: &[u8]) -> bool
        requires { self.old.stage ≡ stage.Header }
        ensures { Steps result (progress.header_read (progress_of self.old) (words_of text.now)) (progress_of self.new) }
    {
        let header = is_header(text);
        if header {
            self.stage = ViperStage::Opening;
        }
        header
    }

    /// Takes in what a line says. False where the line may not stand.
    fn follow(
        &mut self,
        alloc: Global,
        scope: UnitScope,
        many: usize,
        line: ViperLine,
    ) -> Result<bool, Memory>
        ensures { IfOk result (λ ok. Steps ok (progress.followed (progress.fronts many) (scope_view scope.entry) (progress_of self.old) (line_view line)) (progress_of self.new)) }
    {
        match line {
            ViperLine::Var(number, value) => self.set_variable(alloc, number, value),
            ViperLine::Heap(field, reference, value) => {
                let named = LineTarget::Place(field, reference);
                self.set_place(alloc, named, ViperLine::Heap(field, reference, value))
            }
            ViperLine::Content(predicate, key, content) => {
                let named = LineTarget::Instance(predicate, key.clone()?);
                self.set_place(alloc, named, ViperLine::Content(predicate, key, content))
            }
            ViperLine::Chosen(choice) => self.choose(alloc, many, choice),
            ViperLine::State => self.open_state(alloc, scope, many),
        }
    }

    /// Gives a variable a value, in the opening and once.
    fn set_variable(&mut self, alloc: Global, number: usize, value: Value) -> Result<bool, Memory>
        ensures { (many : ℕ) → IfOk result (λ ok. Steps ok (progress.variable_set (progress.fronts many) (progress_of self.old) number value) (progress_of self.new)) }
    {
        if !may_set(self.stage) || !self.named.insert(alloc, LineTarget::Variable(number))? {
            return Ok(false);
        }
        if let Some(slot) = self.front.run.opening.store.get_mut(number) {
            *slot = value;
        }
        Ok(true)
    }

    /// Puts a value or content where a heap and contents are filled, once for each place and instance.
    fn set_place(
        &mut self,
        alloc: Global,
        named: LineTarget,
        line: ViperLine,
    ) -> Result<bool, Memory>
        ensures { (many : ℕ) → IfOk result (λ ok. Steps ok (progress.place_set (progress.fronts many) (progress_of self.old) (line_view line) named) (progress_of self.new)) }
    {
        if !may_place(self.stage) || !self.named.insert(alloc, named)? {
            return Ok(false);
        }
        self.fill(line)?;
        Ok(true)
    }

    /// Puts a value or content into the heap and contents that are filled, where those are within the prefix.
    fn fill(&mut self, line: ViperLine) -> Result<(), Memory>
        ensures { OnOk result (progress_of self.new ≡ record { stage = self.old.stage; named = named_of self.old.named; run = progress.front_with self.old.stage (line_view line) (progress_of self.old).run }) }
    {
        if !may_place(stage_within(self.front.more, self.stage)) {
            return Ok(());
        }
        self.filling.fill(line)?;
        Ok(())
    }

    /// Takes in a choice.
    fn choose(&mut self, alloc: Global, many: usize, choice: Choice) -> Result<bool, Memory>
        ensures { IfOk result (λ ok. Steps ok (Some (progress.chosen (progress.fronts many) stage.Choosing (progress_of self.old) (choice_of choice))) (progress_of self.new)) }
    {
        self.close(alloc)?;
        self.stage = ViperStage::Choosing;
        add_choice(&mut self.front, many, choice)?;
        Ok(true)
    }

    /// Begins to fill a heap and contents, which are a choice.
    fn open_state(&mut self, alloc: Global, scope: UnitScope, many: usize) -> Result<bool, Memory>
        ensures { IfOk result (λ ok. Steps ok (Some (progress.chosen (progress.fronts many) stage.Filling (progress_of self.old) (Filled (scope_memo (scope_view scope.entry))))) (progress_of self.new)) }
    {
        self.close(alloc)?;
        self.stage = ViperStage::Filling;
        if self.front.has_room(many) {
            self.filling = Filling::of(alloc, scope.layout)?;
            return Ok(true);
        }
        self.front.count()?;
        Ok(true)
    }

    /// Puts the heap and contents that were filled into the prefix, and forgets what their lines have named.
    fn close(&mut self, alloc: Global) -> Result<(), Memory>
        ensures run { OnOk result (front_view self.new.front ≡ (progress_of self.old).run) }
        ensures named { OnOk result (named_of self.new.named ≡ []) }
    {
        self.named.clear();
        let stage = stage_within(self.front.more, self.stage);
        if let ViperStage::Choosing = stage {
            return Ok(());
        }
        let filled = mem::replace(&mut self.filling, Filling::none(alloc));
        put_filled(alloc, &mut self.front.run, stage, filled)
    }

    /// The prefix.
    fn finish(self, alloc: Global) -> Result<ViperFront, Memory>
        ensures { IfOk result (λ x. front_view x ≡ (progress_of self).run) }
    {
        // What was named gives back its memory before the heap and contents take their own.
        drop(self.named);
        let mut front = self.front;
        let stage = stage_within(front.more, self.stage);
        put_filled(alloc, &mut front.run, stage, self.filling)?;
        Ok(front)
    }
}

/// Takes in a choice, which is counted alone where it is behind the prefix of so many.
fn add_choice(front: &mut ViperFront, many: usize, choice: Choice) -> Result<(), Memory>
    ensures { OnOk result (front_view front.new ≡ progress.front_chosen many (choice_of choice) (front_view front.old)) }
{
    if front.has_room(many) {
        front.run.choices.push(choice)?;
        return Ok(());
    }
    front.count()
}

/// Puts a heap and contents that were filled into a run.
fn put_filled(
    alloc: Global,
    run: &mut ViperRun,
    stage: ViperStage,
    filling: Filling,
) -> Result<(), Memory>
    ensures { OnOk result (run_of run.new ≡ progress.with_filled stage (filling_of filling) (run_of run.old)) }
{
    match stage {
        ViperStage::Header | ViperStage::Opening => run.opening.memo = filling.finish(alloc)?,
        ViperStage::Filling => run.choices.push(Choice::Memo(filling.finish(alloc)?))?,
        ViperStage::Choosing => {}
    }
    Ok(())
}

/// The stage as the prefix sees it, behind which there are so many choices.
fn stage_within(more: usize, stage: ViperStage) -> ViperStage
    ensures { result ≡ progress.stage_within more stage }
{
    match stage {
        ViperStage::Header => ViperStage::Header,
        ViperStage::Opening => ViperStage::Opening,
        ViperStage::Filling if more == 0 => ViperStage::Filling,
        ViperStage::Filling | ViperStage::Choosing => ViperStage::Choosing,
    }
}

/// Whether a variable's line may stand.
fn may_set(stage: ViperStage) -> bool
    ensures { result ≡ progress.may_set stage }
{
    match stage {
        ViperStage::Opening => true,
        _ => false,
    }
}

/// Whether a line of a heap and contents may stand.
fn may_place(stage: ViperStage) -> bool
    ensures { result ≡ progress.may_place stage }
{
    match stage {
        ViperStage::Opening | ViperStage::Filling => true,
        _ => false,
    }
}

/// Whether the words of a line are the header.
fn is_header(line: &[u8]) -> bool
    ensures { result ≡ progress.is_header (words_of line.now) }
{
    let Some((first, rest)) = next_word(line) else {
        return false;
    };
    let Some((second, rest)) = next_word(rest) else {
        return false;
    };
    first == b"viper".as_slice() && second == b"run".as_slice() && next_word(rest).is_none()
}

/// A reader, what the lines of its file may name, and how many choices it builds.
#[derive(Drop)]
struct ViperScoped<'a> {
    reader: ViperReader,
    scope: UnitScope<'a>,
    many: usize,
}

impl LineReader for ViperScoped<'_> {
    type Run = ViperFront;

    type ReadLine = ViperLine;

    ghost State = { progress.Progress Front };

    ghost Said = { l.ViperLine };

    ghost Plain = { Front };

    ghost kind = { λ x. progress.file_kind (progress.fronts x.many) (scope_view x.scope) };

    ghost state = { λ x. progress_of x.reader };

    ghost said = { line_view };

    ghost plain = { front_view };

    fn is_headed(&self) -> bool {
        !matches!(self.reader.stage, ViperStage::Header)
    }

    fn read_header(&mut self, words: &[u8]) -> bool {
        self.reader.read_header(words)
    }

    fn line_of(&self, alloc: Global, words: &[u8]) -> Result<Option<ViperLine>, Memory> {
        match first_word(&KEYWORDS, words) {
            Some((keyword, rest)) => keyed_line(alloc, self.scope, keyword, rest),
            None => Ok(None),
        }
    }

    fn follow(&mut self, alloc: Global, line: ViperLine) -> Result<bool, Memory> {
        self.reader.follow(alloc, self.scope, self.many, line)
    }

    fn finish(self, alloc: Global) -> Result<ViperFront, Memory> {
        self.reader.finish(alloc)
    }
}

/// The prefix, with so many choices, of the run that the lines of a text are, or where it goes wrong.
fn read_front(
    alloc: Global,
    scope: UnitScope,
    many: usize,
    bytes: &[u8],
) -> Result<ViperFront, RunFileFault>
    requires { length bytes.now ≤ max_boogie_bytes }
    ensures { MatchResult result (λ x. IsReadBy (progress.front_reader many (scope_view scope.entry)) (lines_of bytes.now) (front_view x))
        (UnlessMemory (StopsBy (progress.front_reader many (scope_view scope.entry)) (lines_of bytes.now))) }
{
    let reader = ViperReader::new(alloc, scope)?;
    let scoped = ViperScoped {
        reader,
        scope,
        many,
    };
    read_lines(alloc, scoped, bytes)
}
