// Where the locals of a unit stand, and how its code begins.
ghost use Rattle.std.specs.Prelude.{◌≡◌, ◌+◌, [], ◌∷◌, length, map, None, IfOk, OnOk};
ghost use Rattle.boogie_meaning.specs.Patterns.{zero_code};
ghost use Rattle.boogie_tree.specs.Whole.{expr_of, stmt_of, stmts_of};
ghost use Rattle.enc_expr.specs.Code.{join, puts};
ghost use Rattle.enc_expr.specs.Emits.{emit_of, Emits};
ghost use Rattle.enc_fold.specs.Saved.{copy_held};
ghost use Rattle.enc_block.specs.Encoding.{keep_old};
ghost use Rattle.enc_units.specs.Units.{first_values};
ghost use Rattle.enc_units.specs.Units as unit;
ghost use Rattle.enc_block.specs.View.{home_of};
ghost use Rattle.viper_core.specs.View.{program_of};

use boogie_tree::{BBase, BExpr, BOp, BStmt};
use enc_block::Home;
use enc_expr::{Emit, add, add_all, binary, copy_state, indexed_map_of};
use enc_fold::copy_held;
use enc_locals::{Numbers, front_types, other_types};
use std::alloc::Global;
use vb_base::{Memory, boxed};
use vb_value::Ty;
use viper_core::{Program, Unit};

/// The layout of the locals of a unit, and the first of its zero maps.
#[derive(Drop)]
struct Placed {
    home: Home,
    zero: usize,
}

fn place_unit(alloc: Global, program: &Program, of: Unit) -> Result<Placed, Memory>
    ensures { IfOk result (λ x. (home_of x.home ≡ unit.home_of (program_of program.now) of)
        × (x.zero ≡ unit.zero_mask (program_of program.now) of)) }
{
    let layout = &program.layout;
    let mut numbers = Numbers { next: 0 };
    let mut vars = numbers.take(alloc, front_types(program, of).len())?;
    let now = numbers.present(alloc, layout)?;
    let old = numbers.state(alloc, layout)?;
    let zero = numbers.next;
    let nothing = numbers.nothing(alloc, layout)?;
    let others = numbers.take(alloc, other_types(program, of).len())?;
    add_all(&mut vars, others)?;
    let home = Home {
        vars,
        now,
        old,
        nothing,
    };
    Ok(Placed { home, zero })
}

/// The layout of the locals of a unit.
pub fn unit_home(alloc: Global, program: &Program, of: Unit) -> Result<Home, Memory>
    ensures { IfOk result (λ h. home_of h ≡ unit.home_of (program_of program.now) of) }
{
    let placed = place_unit(alloc, program, of)?;
    Ok(placed.home)
}

// ---- how the code begins

/// A map is zero everywhere.
fn zero_map(alloc: Global, keys: Vec<BBase>, map: usize) -> Result<BStmt, Memory>
    ensures { IfOk result (λ x. stmt_of x ≡ zero_code keys.items map) }
{
    let none = binary(alloc, BOp::Eq, BExpr::AtBound(map), BExpr::Real(0))?;
    Ok(BStmt::Assume(BExpr::Forall(keys, boxed(alloc, none)?)))
}

/// The zero maps of the amounts of predicates are zero.
fn zeros(
    alloc: Global,
    keys: &[Vec<Ty>],
    numbers: &mut Numbers,
    block: &mut Vec<BStmt>,
) -> Result<(), Memory>
    ensures block { OnOk result (stmts_of block.new.items ≡ join (stmts_of block.old.items)
        (unit.zeros_code numbers.old.next (map (λ us. us.items) keys.now))) }
    ensures next { OnOk result (numbers.new.next ≡ numbers.old.next + length keys.now) }
{
    for params in keys {
        let amounts = indexed_map_of(alloc, params, BBase::Real)?;
        let map = numbers.one()?;
        add(block, zero_map(alloc, amounts.keys, map)?)?;
    }
    Ok(())
}

fn default_of(ty: Ty) -> BExpr
    ensures { expr_of result ≡ unit.default_code ty }
{
    match ty {
        Ty::Int => BExpr::Int(0),
        Ty::Bool => BExpr::Bool(false),
        Ty::Ref => BExpr::Null,
        Ty::Perm => BExpr::Real(0),
    }
}

/// Variables of these types get their defaults.
fn defaults(types: &[Ty], numbers: &mut Numbers, block: &mut Vec<BStmt>) -> Result<(), Memory>
    ensures { OnOk result (stmts_of block.new.items ≡ join (stmts_of block.old.items)
        (unit.defaults_code numbers.old.next types.now)) }
{
    for ty in types {
        let local = numbers.one()?;
        add(block, BStmt::Assign(local, default_of(*ty)))?;
    }
    Ok(())
}

/// What the zero maps and the variables are at first.
fn first_values(
    alloc: Global,
    program: &Program,
    of: Unit,
    zero: usize,
) -> Result<Vec<BStmt>, Memory>
    ensures { IfOk result (λ xs. stmts_of xs.items ≡ first_values zero (program_of program.now) of) }
{
    let mut numbers = Numbers { next: zero };
    let mask = numbers.one()?;
    let keys = vec![in alloc; BBase::Ref]?;
    let mut block = Vec::new(alloc);
    add(&mut block, zero_map(alloc, keys, mask)?)?;
    zeros(alloc, &program.layout.keys, &mut numbers, &mut block)?;
    defaults(other_types(program, of), &mut numbers, &mut block)?;
    Ok(block)
}

/// How the code of a unit begins, where its locals stand so.
fn start_block(
    alloc: Global,
    program: &Program,
    of: Unit,
    home: &Home,
    zero: usize,
) -> Result<Vec<BStmt>, Memory>
    ensures { IfOk result (λ xs. stmts_of xs.items ≡ join (join (first_values zero (program_of program.now) of)
        (copy_held (home_of home.entry.now).now (home_of home.entry.now).nothing)) (keep_old (home_of home.entry.now))) }
{
    let mut block = first_values(alloc, program, of, zero)?;
    add_all(&mut block, copy_held(alloc, &home.now, &home.nothing)?)?;
    add_all(&mut block, copy_state(alloc, &home.old, &home.now)?)?;
    Ok(block)
}

/// Writes how the code of a unit begins.
pub fn start(alloc: Global, program: &Program, of: Unit, out: &mut Emit) -> Result<(), Memory>
    ensures { OnOk result (Emits (puts None (unit.start_code (program_of program.now) of) (length (emit_of out.old).locals))
        (emit_of out.old) (emit_of out.new) tt) }
{
    let placed = place_unit(alloc, program, of)?;
    let block = start_block(alloc, program, of, &placed.home, placed.zero)?;
    out.put(alloc, None, block)
}
