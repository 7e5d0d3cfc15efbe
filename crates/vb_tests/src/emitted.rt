// What is told of the code of a procedure, behind whose locals it was written.
use boogie_fixtures::procedures;
use enc_expr::Emit;
use std::alloc::Global;
use std::test::Fail;

/// Nothing is written yet behind the locals of this procedure.
pub fn nothing(alloc: Global, text: &str) -> Result<Emit, Fail> {
    let locals = procedures::locals_of(alloc, text)?;
    Ok(Emit {
        locals,
        code: Vec::new(alloc),
    })
}

/// The statements that were written, or else what is wrong.
pub fn told(alloc: Global, out: Emit) -> Result<String, Fail> {
    let Emit { locals, code } = out;
    procedures::told(alloc, locals, code)
}

/// Whether something is wrong with the code of which this is told.
pub fn is_wrong(told: &str) -> bool {
    matches!(
        told.as_bytes(),
        b"ill-typed" | b"another text" | b"another tree"
    )
}

/// What is told of code, where something is wrong with it.
pub fn if_wrong(told: String) -> Option<String> {
    if is_wrong(told.as_str()) {
        Some(told)
    } else {
        None
    }
}
