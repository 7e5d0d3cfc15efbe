// Numbers in order, none of them twice.
ghost use Rattle.std.specs.Prelude.{◌≡◌, ◌++◌, ◌∷◌, [], IfOk, not};
ghost use Rattle.std.specs.Bool.{OnTrue};
ghost use Rattle.viper_types.specs.Stepping.{is_listed};

use indexmap::IndexSet;
use vb_base::Memory;

/// Lists a number last where it is new, and says whether it is.
pub fn list_new(listed: &mut IndexSet<u32>, number: u32) -> Result<bool, Memory>
    ensures is_new { IfOk result (λ added. added ≡ not (is_listed number listed.old.keys)) }
    ensures last { IfOk result (λ added. OnTrue added (listed.new.keys ≡ listed.old.keys ++ number ∷ [])) }
{
    Ok(listed.insert(number)?)
}
