// Trees of translated programs: what is printed of one is what is sent of its program.
ghost use Rattle.viper_core.specs.Formed.{IsFormed};
ghost use Rattle.viper_core.specs.View.{program_of};

use crate::programs::PROGRAMS;
use boogie_text::print;
use enc_stmt::{encode, encode_to};
use std::alloc::Global;
use std::test::Fail;
use vb_outer::MemSink;
use viper_core::Program;
use viper_fixtures::files::checked;

/// Whether what is sent of a program is what is printed of its tree.
fn is_sent(alloc: Global, program: &Program) -> Result<bool, Fail>
    requires { IsFormed (program_of program.now) }
{
    let mut sink = MemSink::make(alloc, Vec::new(alloc), 4096)?;
    encode_to(alloc, program, &mut sink)?;
    let tree = encode(alloc, program)?;
    let text = print(alloc, &tree)?;
    Ok(*sink.written() == *text)
}

/// Whether what is sent of the program of a file is what is printed of its tree.
fn is_file_sent(alloc: Global, file: &str) -> Result<bool, Fail> {
    let program = checked(alloc, file.as_bytes())?;
    is_sent(alloc, &program)
}

/// What is printed of the tree of each program is what is sent of it.
#[test]
fn trees_have_the_text_that_is_sent(rt: HostRuntime) -> Result<(), Fail> {
    for file in PROGRAMS.split("\n\n") {
        assert!(rt; is_file_sent(rt.alloc(), file)?, "{file}");
    }
    Ok(())
}
