// The text of a procedure, piece by piece.
ghost use Rattle.std.specs.Prelude.{◌≡◌, ◌++◌, ◌≤◌, length, IfOk, OnOk, OnErr, IsErrOf};
ghost use Rattle.std.specs.Option.{option_map};
ghost use Rattle.vb_outer.specs.Faults.{HasCause, Rose};
ghost use Rattle.vb_outer.specs.Sink.{Appends, AppendsPrefix};
ghost use Rattle.boogie_tree.specs.Text.{prelude};
ghost use Rattle.boogie_tree.specs.Whole.{expr_of, stmts_of, locals_of};
ghost use Rattle.boogie_grammar.specs.Grammar.{local_names};
ghost use Rattle.boogie_grammar.specs.Naming.{naming_of, temporary_names};
ghost use Rattle.boogie_grammar.specs.Printed.{naming, stmts_text};
ghost use Rattle.boogie_print.specs.Names.{names_of};
ghost use Rattle.boogie_print.specs.Pieces.{if_piece, head_text, else_text, end_text, piece_text};
ghost use Rattle.boogie_print.specs.declared.pieces.EmitFault.TheVariants as fault;

use crate::put_heads::{put_header, put_locals};
use crate::put_stmts::{put_branch, put_choice, put_statements};
use boogie_grammar::naming::{Naming, taken_names};
use boogie_tree::{BExpr, BStmt, Local, PRELUDE};
use std::alloc::Global;
use vb_base::{Ident, Memory};
use vb_outer::{Failed, Sink, write_all};

/// The locals of a procedure, and the names among them that a bound variable might have.
#[derive(Drop)]
pub struct PrintedNames<'a> {
    /// The first ones.
    pub locals: &'a [Local],
    /// How many temporaries stand behind these. The name of each is `t$` and its number among all locals.
    pub temporaries: usize,
    /// In their order.
    pub taken: Vec<Ident>,
}

impl<'a> PrintedNames<'a> {
    /// Looks through the locals once, for all that is written of the procedure.
    pub fn of(alloc: Global, locals: &'a [Local]) -> Result<PrintedNames<'a>, Memory>
        ensures { IfOk result (λ names. names_of names ≡ naming (local_names (locals_of locals.now))) }
    {
        PrintedNames::with_temporaries(alloc, locals, 0)
    }

    /// The same with so many temporaries behind these locals.
    pub fn with_temporaries(
        alloc: Global,
        locals: &'a [Local],
        temporaries: usize,
    ) -> Result<PrintedNames<'a>, Memory>
        ensures { IfOk result (λ names. names_of names
            ≡ naming (local_names (locals_of locals.now) ++ temporary_names (length locals.now) temporaries)) }
    {
        let taken = taken_names(alloc, locals)?;
        Ok(PrintedNames {
            locals,
            temporaries,
            taken,
        })
    }

    /// What names are written, where no `forall` is around.
    fn naming(&self) -> Naming<'_>
        ensures { naming_of result ≡ names_of self.now }
    {
        Naming {
            locals: self.locals,
            temporaries: self.temporaries,
            taken: &self.taken,
            bound: &[],
        }
    }
}

/// Appends a procedure's text up to its last local.
pub fn put_head(out: &mut Vec<u8>, name: &Ident, locals: &[Local]) -> Result<(), Memory>
    ensures { OnOk result (out.new.items ≡ out.old.items ++ head_text name.now (locals_of locals.now)) }
{
    put_header(out, name.bytes())?;
    put_locals(out, locals)
}

/// Appends whole statements.
pub fn put_code(
    alloc: Global,
    names: &PrintedNames<'_>,
    code: &[BStmt],
    out: &mut Vec<u8>,
) -> Result<(), Memory>
    ensures { OnOk result (out.new.items ≡ out.old.items ++ stmts_text (names_of names.now) (stmts_of code.now)) }
{
    put_statements(alloc, out, &names.naming(), code)
}

/// Appends an `if` up to the `{` of its first block. Where there is no condition, `*` stands for it.
pub fn put_if(
    alloc: Global,
    names: &PrintedNames<'_>,
    condition: Option<&BExpr>,
    out: &mut Vec<u8>,
) -> Result<(), Memory>
    ensures { OnOk result (out.new.items ≡ out.old.items ++ piece_text (names_of names.now) (if_piece (option_map (λ c. expr_of c.now) condition.entry))) }
{
    match condition {
        Some(truth) => put_branch(alloc, out, &names.naming(), truth),
        None => put_choice(out),
    }
}

/// Why a piece was not sent.
#[derive(Clone, Copy, Debug, PartialEq, Eq)]
pub enum EmitFault {
    /// There is no memory for it.
    Memory,
    /// The sink failed.
    Failed,
}

impl From<Memory> for EmitFault {
    ghost from_gives = { λ _ e. e ≡ fault.Memory };

    fn from(_: Memory) -> EmitFault {
        EmitFault::Memory
    }
}

impl From<Failed> for EmitFault {
    ghost from_gives = { λ _ e. e ≡ fault.Failed };

    fn from(_: Failed) -> EmitFault {
        EmitFault::Failed
    }
}

// Each of these sends a piece. One that answers Ok has appended all of it, and one that is refused a prefix of it, which may
// be nothing.

/// Sends the prelude.
#[tactic(auto, unfolding(boogie_tree::specs::Text::prelude))]
pub fn write_prelude<S: Sink>(sink: &mut S) -> Result<(), Failed>
    ensures ok { OnOk result (Appends (S.written sink.old) (S.written sink.new) prelude) }
    ensures front { OnErr result (AppendsPrefix (S.written sink.old) (S.written sink.new) prelude) }
    ensures cause { HasCause (S.faults sink.old) (S.faults sink.new) result }
{
    write_all(sink, PRELUDE)
}

/// Sends a procedure's text up to its last local. `Memory` where there is no memory for that text: then nothing was sent.
pub fn write_head<S: Sink>(
    alloc: Global,
    name: &Ident,
    locals: &Vec<Local>,
    sink: &mut S,
) -> Result<(), EmitFault>
    ensures ok { OnOk result (Appends (S.written sink.old) (S.written sink.new) (head_text name.now (locals_of locals.now.items))) }
    ensures front { OnErr result (AppendsPrefix (S.written sink.old) (S.written sink.new) (head_text name.now (locals_of locals.now.items))) }
    ensures failed { IsErrOf result EmitFault.Failed → Rose (S.faults sink.old) (S.faults sink.new) }
    ensures later { S.faults sink.old ≤ S.faults sink.new }
{
    let text = text_of_head(alloc, name, locals)?;
    Ok(write_all(sink, &text)?)
}

/// Sends whole statements. Where several are sent of one procedure, `put_code` looks through its locals but once. `Memory` where
/// there is no memory for their text: then nothing was sent.
pub fn write_code<S: Sink>(
    alloc: Global,
    locals: &Vec<Local>,
    code: &Vec<BStmt>,
    sink: &mut S,
) -> Result<(), EmitFault>
    ensures ok { OnOk result (Appends (S.written sink.old) (S.written sink.new)
        (stmts_text (naming (local_names (locals_of locals.now.items))) (stmts_of code.now.items))) }
    ensures front { OnErr result (AppendsPrefix (S.written sink.old) (S.written sink.new)
        (stmts_text (naming (local_names (locals_of locals.now.items))) (stmts_of code.now.items))) }
    ensures failed { IsErrOf result EmitFault.Failed → Rose (S.faults sink.old) (S.faults sink.new) }
    ensures later { S.faults sink.old ≤ S.faults sink.new }
{
    let text = text_of_code(alloc, locals, code)?;
    Ok(write_all(sink, &text)?)
}

/// Sends an `if` up to the `{` of its first block. Where there is no condition, `*` stands for it. `Memory` where there is no memory
/// for that text: then nothing was sent.
pub fn write_if<S: Sink>(
    alloc: Global,
    locals: &Vec<Local>,
    condition: Option<&BExpr>,
    sink: &mut S,
) -> Result<(), EmitFault>
    ensures ok { OnOk result (Appends (S.written sink.old) (S.written sink.new)
        (piece_text (naming (local_names (locals_of locals.now.items))) (if_piece (option_map (λ c. expr_of c.now) condition.entry)))) }
    ensures front { OnErr result (AppendsPrefix (S.written sink.old) (S.written sink.new)
        (piece_text (naming (local_names (locals_of locals.now.items))) (if_piece (option_map (λ c. expr_of c.now) condition.entry)))) }
    ensures failed { IsErrOf result EmitFault.Failed → Rose (S.faults sink.old) (S.faults sink.new) }
    ensures later { S.faults sink.old ≤ S.faults sink.new }
{
    let text = text_of_if(alloc, locals, condition)?;
    Ok(write_all(sink, &text)?)
}

/// Sends what stands between the two blocks of an `if`.
pub fn write_else<S: Sink>(sink: &mut S) -> Result<(), Failed>
    ensures ok { OnOk result (Appends (S.written sink.old) (S.written sink.new) else_text) }
    ensures front { OnErr result (AppendsPrefix (S.written sink.old) (S.written sink.new) else_text) }
    ensures cause { HasCause (S.faults sink.old) (S.faults sink.new) result }
{
    write_all(sink, b"} else {\n")
}

/// Sends the end of an `if` or of a procedure.
pub fn write_end<S: Sink>(sink: &mut S) -> Result<(), Failed>
    ensures ok { OnOk result (Appends (S.written sink.old) (S.written sink.new) end_text) }
    ensures front { OnErr result (AppendsPrefix (S.written sink.old) (S.written sink.new) end_text) }
    ensures cause { HasCause (S.faults sink.old) (S.faults sink.new) result }
{
    write_all(sink, b"}\n")
}

fn text_of_head(alloc: Global, name: &Ident, locals: &[Local]) -> Result<Vec<u8>, Memory>
    ensures { IfOk result (λ text. text.items ≡ head_text name.now (locals_of locals.now)) }
{
    let mut text = Vec::new(alloc);
    put_head(&mut text, name, locals)?;
    Ok(text)
}

fn text_of_code(alloc: Global, locals: &[Local], code: &[BStmt]) -> Result<Vec<u8>, Memory>
    ensures { IfOk result (λ text. text.items ≡ stmts_text (naming (local_names (locals_of locals.now))) (stmts_of code.now)) }
{
    let names = PrintedNames::of(alloc, locals)?;
    let mut text = Vec::new(alloc);
    put_code(alloc, &names, code, &mut text)?;
    Ok(text)
}

fn text_of_if(alloc: Global, locals: &[Local], condition: Option<&BExpr>) -> Result<Vec<u8>, Memory>
    ensures { IfOk result (λ text. text.items ≡ piece_text (naming (local_names (locals_of locals.now))) (if_piece (option_map (λ c. expr_of c.now) condition.entry))) }
{
    let names = PrintedNames::of(alloc, locals)?;
    let mut text = Vec::new(alloc);
    put_if(alloc, &names, condition, &mut text)?;
    Ok(text)
}
