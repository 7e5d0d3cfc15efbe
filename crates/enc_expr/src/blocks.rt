// Statements behind others.
ghost use Rattle.std.specs.Prelude.{◌≡◌, [], ◌∷◌, ◌++◌, OnOk};

use vb_base::Memory;

/// One more at the end.
pub fn add<T: Drop>(items: &mut Vec<T>, item: T) -> Result<(), Memory>
    ensures { OnOk result (items.new.items ≡ items.old.items ++ item ∷ []) }
{
    Ok(items.push(item)?)
}

/// These at the end.
pub fn add_all<T: Drop>(items: &mut Vec<T>, mut more: Vec<T>) -> Result<(), Memory>
    ensures { OnOk result (items.new.items ≡ items.old.items ++ more.items) }
{
    Ok(items.append(&mut more)?)
}
