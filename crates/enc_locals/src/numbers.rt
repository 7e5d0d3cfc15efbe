// Numbers of locals, one after the other.
ghost use Rattle.std.specs.Prelude.{◌≡◌, ◌+◌, length, IfOk};
ghost use Rattle.std.specs.List.{range_with_len};
ghost use Rattle.enc_expr.specs.Encoding.{maps_from};
ghost use Rattle.enc_expr.specs.Place.{maps_of};
ghost use Rattle.enc_locals.specs.Numbers.{present_from, nothing_from};

use enc_expr::{Maps, add};
use std::alloc::Global;
use vb_base::Memory;
use vb_value::Layout;

/// The number of the next local.
#[derive(Drop)]
pub struct Numbers {
    pub next: usize,
}

impl Numbers {
    /// One number.
    pub fn one(&mut self) -> Result<usize, Memory>
        ensures { IfOk result (λ n. (n ≡ self.old.next) × (self.new.next ≡ self.old.next + 1)) }
    {
        let number = self.next;
        self.next = number.checked_add(1).ok_or(Memory)?;
        Ok(number)
    }

    /// So many numbers.
    pub fn take(&mut self, alloc: Global, many: usize) -> Result<Vec<usize>, Memory>
        ensures { IfOk result (λ ns. (ns.items ≡ range_with_len self.old.next many) × (self.new.next ≡ self.old.next + many)) }
    {
        let mut numbers = Vec::new(alloc);
        for _ in 0..many {
            let number = self.one()?;
            add(&mut numbers, number)?;
        }
        Ok(numbers)
    }

    /// Those of the present state: heaps and contents, and then masks and amounts.
    pub fn present(&mut self, alloc: Global, layout: &Layout) -> Result<Maps, Memory>
        ensures { IfOk result (λ m. (maps_of m ≡ present_from layout.now self.old.next)
            × (self.new.next ≡ self.old.next + length layout.now.fields + length layout.now.keys + length layout.now.fields + length layout.now.keys)) }
    {
        let fields = layout.fields.len();
        let predicates = layout.keys.len();
        let heap = self.take(alloc, fields)?;
        let content = self.take(alloc, predicates)?;
        let mask = self.take(alloc, fields)?;
        let amount = self.take(alloc, predicates)?;
        Ok(Maps {
            heap,
            mask,
            amount,
            content,
        })
    }

    /// Those of another state.
    pub fn state(&mut self, alloc: Global, layout: &Layout) -> Result<Maps, Memory>
        ensures { IfOk result (λ m. (maps_of m ≡ maps_from layout.now self.old.next)
            × (self.new.next ≡ self.old.next + length layout.now.fields + length layout.now.fields + length layout.now.keys + length layout.now.keys)) }
    {
        let fields = layout.fields.len();
        let predicates = layout.keys.len();
        let heap = self.take(alloc, fields)?;
        let mask = self.take(alloc, fields)?;
        let amount = self.take(alloc, predicates)?;
        let content = self.take(alloc, predicates)?;
        Ok(Maps {
            heap,
            mask,
            amount,
            content,
        })
    }

    /// Those of the zero maps: one of all masks, and then one for the amounts of each predicate.
    pub fn nothing(&mut self, alloc: Global, layout: &Layout) -> Result<Maps, Memory>
        ensures { IfOk result (λ m. (maps_of m ≡ nothing_from layout.now self.old.next)
            × (self.new.next ≡ self.old.next + 1 + length layout.now.keys)) }
    {
        let zero = self.one()?;
        let mask = vec![in alloc; zero; layout.fields.len()]?;
        let amount = self.take(alloc, layout.keys.len())?;
        Ok(Maps {
            heap: Vec::new(alloc),
            mask,
            amount,
            content: Vec::new(alloc),
        })
    }
}
