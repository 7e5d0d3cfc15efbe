//! Programs of any size, to measure the front end with.
#![tactic(auto)]

ghost use Rattle.std.specs.Prelude.{◌≡◌, ◌↔◌, ◌++◌, OnOk, IfOk, Err};
ghost use Rattle.std.specs.Fmt.{decimal};
ghost use Rattle.vb_gen.specs.Generated.{odd_of, head_text, conditions_text, returned_text, body_text, method_text, program_text, IsOutOfRange};
ghost use Rattle.vb_gen.specs.declared.GenFault.TheVariants as fault;

use std::alloc::{AllocError, Global};
use vb_base::limits::MAX_MADE_METHODS;

/// Why there is no program.
#[derive(Clone, Copy, Debug, PartialEq, Eq)]
pub enum GenFault {
    /// Memory was refused.
    Memory,
    /// The number of methods is 0 or above `MAX_MADE_METHODS`.
    Range,
}

impl From<AllocError> for GenFault {
    ghost from_gives = { λ _ e. e ≡ fault.Memory };

    fn from(_: AllocError) -> Self {
        GenFault::Memory
    }
}

/// The number itself where it is odd, and else the one before it.
fn odd_of(number: u32) -> u32
    ensures { result ≡ odd_of number }
{
    if number % 2 == 1 {
        number
    } else {
        number.saturating_sub(1)
    }
}

fn put(out: &mut Vec<u8>, bytes: &[u8]) -> Result<(), AllocError>
    ensures { OnOk result (out.new.items ≡ out.old.items ++ bytes.now) }
{
    out.extend_from_slice(bytes)
}

fn put_number(alloc: Global, out: &mut Vec<u8>, number: u32) -> Result<(), AllocError>
    ensures { OnOk result (out.new.items ≡ out.old.items ++ decimal number) }
{
    let text = format!(in alloc; "{number}")?;
    out.extend_from_slice(text.as_bytes())
}

/// What the method of a number returns.
fn put_returned(alloc: Global, out: &mut Vec<u8>, number: u32) -> Result<(), AllocError>
    ensures { OnOk result (out.new.items ≡ out.old.items ++ returned_text number) }
{
    if number % 2 == 1 {
        put(out, b"x.f + ")?;
        put_number(alloc, out, number)
    } else {
        put(out, b"m")?;
        put_number(alloc, out, number.saturating_sub(1))?;
        put(out, b"(x)")
    }
}

fn put_head(alloc: Global, out: &mut Vec<u8>, number: u32) -> Result<(), AllocError>
    ensures { OnOk result (out.new.items ≡ out.old.items ++ head_text number) }
{
    put(out, b"method m")?;
    put_number(alloc, out, number)?;
    put(out, b"(x: Ref) returns (r: Int)\n")
}

fn put_conditions(alloc: Global, out: &mut Vec<u8>, odd: u32) -> Result<(), AllocError>
    ensures { OnOk result (out.new.items ≡ out.old.items ++ conditions_text odd) }
{
    put(out, b"  requires acc(x.f, 1/2)\n")?;
    put(out, b"  ensures acc(x.f, 1/2) && r == x.f + ")?;
    put_number(alloc, out, odd)?;
    put(out, b"\n")
}

fn put_body(alloc: Global, out: &mut Vec<u8>, number: u32) -> Result<(), AllocError>
    ensures { OnOk result (out.new.items ≡ out.old.items ++ body_text number) }
{
    put(out, b"{\n  r := ")?;
    put_returned(alloc, out, number)?;
    put(out, b"\n}\n")
}

fn put_method(alloc: Global, out: &mut Vec<u8>, number: u32) -> Result<(), AllocError>
    ensures { OnOk result (out.new.items ≡ out.old.items ++ method_text number) }
{
    put_head(alloc, out, number)?;
    put_conditions(alloc, out, odd_of(number))?;
    put_body(alloc, out, number)
}

/// A field, and n methods: each odd one adds its number to the field, and each even one calls the one
/// before it. `Memory` where there is no memory.
pub fn make_program(alloc: Global, n: u32) -> Result<Vec<u8>, GenFault>
    ensures text { IfOk result (λ text. text.items ≡ program_text n) }
    ensures range { (result ≡ Err fault.Range) ↔ IsOutOfRange n }
{
    if n == 0 || n > MAX_MADE_METHODS {
        return Err(GenFault::Range);
    }
    let mut out = b"field f: Int\n".to_vec(alloc)?;
    for before in 0..n {
        put_method(alloc, &mut out, before + 1)?;
    }
    Ok(out)
}
