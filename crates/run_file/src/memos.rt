// Heaps and contents that lines fill.
ghost use Rattle.std.specs.Prelude.{◌≡◌, Ok, None, map, replicate, IfOk, OnOk};
ghost use Rattle.sparse.specs.Map.{empty};
ghost use Rattle.vb_value.specs.Content as tree;
ghost use Rattle.vb_value.specs.Value.{default_of};
ghost use Rattle.viper_state.specs.View.{memo_of, contents_of};
ghost use Rattle.vb_value.specs.View.{content_of};
ghost use Rattle.run_file.specs.Lines as l;
ghost use Rattle.run_file.specs.FillingView.{filling_of};
ghost use Rattle.run_file.specs.LineView.{line_view};
ghost use Rattle.run_file.specs.Run as r;

use crate::lines::ViperLine;
use sparse::{Builder, Sparse};
use std::alloc::Global;
use vb_base::Memory;
use vb_value::{Content, Key, Layout, Ty, Value};
use viper_state::Memo;

/// The default of each variable.
pub(crate) fn defaults(alloc: Global, types: &[Ty]) -> Result<Vec<Value>, Memory>
    ensures { IfOk result (λ v. v.items ≡ map default_of types.now) }
{
    let mut values = Vec::with_capacity(alloc, types.len())?;
    for ty in types {
        values.push(Value::default_of(*ty))?;
    }
    Ok(values)
}

/// A heap and contents that lines fill. Each map is made at once where its keys ascend, whatever is named between them.
#[derive(Drop)]
pub(crate) struct Filling {
    heap: Vec<Builder<u64, Value>>,
    content: Vec<Builder<Key, Content>>,
}

impl Filling {
    /// Those of no field and of no predicate, which no line can fill.
    pub(crate) fn none(alloc: Global) -> Filling {
        Filling {
            heap: Vec::new(alloc),
            content: Vec::new(alloc),
        }
    }

    /// Those in which nothing was named.
    pub(crate) fn of(alloc: Global, layout: &Layout) -> Result<Filling, Memory>
        ensures { IfOk result (λ m. filling_of m ≡ r.empty_memo layout.now.fields layout.now.keys) }
    {
        let heap = empty_heaps(alloc, &layout.fields)?;
        let content = empty_contents(alloc, layout.keys.len())?;
        Ok(Filling { heap, content })
    }

    /// Puts what a line gives into the heap and contents.
    pub(crate) fn fill(&mut self, line: ViperLine) -> Result<(), Memory>
        ensures { OnOk result (filling_of self.new ≡ r.memo_with (filling_of self.old) (line_view line)) }
    {
        match line {
            ViperLine::Heap(field, reference, value) => self.set_value(field, reference, value),
            ViperLine::Content(predicate, key, content) => self.set_content(
                predicate, key, content,
            ),
            _ => Ok(()),
        }
    }

    fn set_value(&mut self, field: usize, reference: u64, value: Value) -> Result<(), Memory>
        ensures { OnOk result (filling_of self.new ≡ r.memo_with (filling_of self.old) (l.Heap field reference value)) }
    {
        match self.heap.get_mut(field) {
            Some(values) => values.set(reference, value),
            None => Ok(()),
        }
    }

    fn set_content(&mut self, predicate: usize, key: Key, content: Content) -> Result<(), Memory>
        ensures { OnOk result (filling_of self.new ≡ r.memo_with (filling_of self.old) (l.Holds predicate key (content_of content))) }
    {
        match self.content.get_mut(predicate) {
            Some(contents) => contents.set(key, content),
            None => Ok(()),
        }
    }

    /// The heap and contents, made of what was filled.
    pub(crate) fn finish(self, alloc: Global) -> Result<Memo, Memory>
        ensures { IfOk result (λ m. memo_of m ≡ filling_of self) }
    {
        let heap = finished(alloc, self.heap)?;
        let content = finished(alloc, self.content)?;
        Ok(Memo { heap, content })
    }
}

/// The maps that were filled.
fn finished<K: Ord + Clone, V: Eq + Clone>(
    alloc: Global,
    filled: Vec<Builder<K, V>>,
) -> Result<Vec<Sparse<K, V>>, Memory>
    ensures { IfOk result (λ v. v.items ≡ filled.items) }
{
    let mut maps = Vec::with_capacity(alloc, filled.len())?;
    for map in filled {
        maps.push(map.finish()?)?;
    }
    Ok(maps)
}

fn empty_heaps(alloc: Global, types: &[Ty]) -> Result<Vec<Builder<u64, Value>>, Memory>
    ensures { IfOk result (λ v. v.items ≡ map (λ u. empty (default_of u)) types.now) }
{
    let mut heaps = Vec::with_capacity(alloc, types.len())?;
    for ty in types {
        heaps.push(Builder::make(alloc, Value::default_of(*ty)))?;
    }
    Ok(heaps)
}

fn empty_contents(alloc: Global, count: usize) -> Result<Vec<Builder<Key, Content>>, Memory>
    ensures { IfOk result (λ v. map contents_of v.items ≡ replicate count (empty tree.Unit)) }
{
    let mut contents = Vec::with_capacity(alloc, count)?;
    for _ in 0..count {
        contents.push(Builder::make(alloc, Content::Unit))?;
    }
    Ok(contents)
}
