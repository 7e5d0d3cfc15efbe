// Each reference of the code is below 2^64. It is read off the references of a run one by one.
ghost use Rattle.std.specs.Prelude.{All, map};
ghost use Rattle.sparse.specs.Map.{values};
ghost use Rattle.vb_value.specs.View.{content_of};
ghost use Rattle.viper_state.specs.View.{choice_of, contents_of, memo_of};
ghost use Rattle.moves.specs.Printable.{IsNamed, IsNamedContent, IsNamedKey, IsNamedValue};
ghost use Rattle.run_file_words.specs.Named.{AreNamed};
ghost use Rattle.run_file.specs.Printable.{NamesChoice, NamesMemo};
ghost use Rattle.run_file.specs.View.{run_of};

use crate::runs::ViperRun;
use moves::{named_content, named_key, named_reference, named_value};
use sparse::Sparse;
use vb_value::{Content, Key, Value};
use viper_state::{Choice, Memo};

pub(crate) fn named_run(run: &ViperRun)
    ensures store { All IsNamedValue (run_of run.now).opening.store }
    ensures memo { NamesMemo (run_of run.now).opening.memo }
    ensures choices { All NamesChoice (run_of run.now).choices }
{
    named_store(&run.opening.store);
    named_memo(&run.opening.memo);
    named_choices(&run.choices);
}

fn named_store(values: &[Value])
    ensures { All IsNamedValue values.now }
{
    for value in values {
        named_value(*value);
    }
}

fn named_memo(memo: &Memo)
    ensures { NamesMemo (memo_of memo.now) }
{
    named_heaps(&memo.heap);
    named_contents(&memo.content);
}

fn named_heaps(heaps: &[Sparse<u64, Value>])
    ensures { All (AreNamed IsNamed IsNamedValue) heaps.now }
{
    for heap in heaps {
        named_heap(heap);
    }
}

fn named_heap(heap: &Sparse<u64, Value>)
    ensures { AreNamed IsNamed IsNamedValue heap.now }
{
    for i in 0..heap.len() {
        let reference = heap.key_at(i);
        named_reference(*reference);
        named_value(*heap.get(reference));
    }
}

fn named_contents(contents: &[Sparse<Key, Content>])
    ensures { All (AreNamed IsNamedKey IsNamedContent) (map contents_of contents.now) }
{
    for map in contents {
        named_instances(map);
    }
}

fn named_instances(contents: &Sparse<Key, Content>)
    ensures { AreNamed IsNamedKey IsNamedContent (contents_of contents.now) }
{
    for i in 0..contents.len() {
        let key = contents.key_at(i);
        named_key(key.parts());
        named_content(contents.get(key));
    }
}

fn named_choices(choices: &[Choice])
    ensures { All NamesChoice (map choice_of choices.now) }
{
    for choice in choices {
        named_choice(choice);
    }
}

fn named_choice(choice: &Choice)
    ensures { NamesChoice (choice_of choice.now) }
{
    match choice {
        Choice::Took(value) => named_value(*value),
        Choice::Fresh(reference) => named_reference(*reference),
        Choice::Memo(memo) => named_memo(memo),
        _ => {}
    }
}
