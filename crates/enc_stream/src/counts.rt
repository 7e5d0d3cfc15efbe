// How much was written.
ghost use Rattle.std.specs.Prelude.{◌≡◌, length};
ghost use Rattle.boogie_print.specs.Asserts.{asserts_in};
ghost use Rattle.boogie_tree.specs.Whole.{stmts_of};
ghost use Rattle.enc_stream.specs.Counts.{counts};

use boogie_print::count_asserts;
use boogie_tree::BStmt;

/// How many bytes and `assert` statements were written. Each count stops at the greatest `u64`.
#[derive(Clone, Copy)]
pub struct Written {
    pub bytes: u64,
    pub asserts: u64,
}

impl Written {
    /// After a text without statements.
    pub fn with_text(self, text: &[u8]) -> Written
        ensures { result ≡ counts self (length text.now) 0 }
    {
        Written {
            bytes: self.bytes.saturating_add(text.len() as u64),
            ..self
        }
    }

    /// After the text of a step and its statements.
    pub fn with_code(self, text: &[u8], code: &[BStmt]) -> Written
        ensures { result ≡ counts self (length text.now) (asserts_in (stmts_of code.now)) }
    {
        Written {
            bytes: self.bytes.saturating_add(text.len() as u64),
            asserts: count_asserts(code, self.asserts),
        }
    }
}
