// Why a file is refused.
ghost use Rattle.std.specs.Prelude.{Some};

use boogie_file::BoogieRefusal;
use std::fmt;
use viper_file::ViperRefusal;
use viper_syntax::LexFault;

/// Why a file is refused: for its text, or where that is accepted for the file of certificates.
#[derive(Clone, Copy, Debug, PartialEq, Eq)]
pub enum ProveRefusal {
    /// The file of Viper is refused.
    Viper(ViperRefusal),
    /// The text of Boogie is refused.
    Boogie(BoogieRefusal),
    /// The section of a unit in the file of certificates has more than `MAX_BOOGIE_BYTES` bytes. What stands behind is not looked at.
    CertificateSize,
    /// A section that no unit takes, of whatever size, begins at this line of the file of certificates, from 1 on: there is one too
    /// many, or it is of another unit.
    Certificate(usize),
}

impl fmt::Display for ProveRefusal {
    ghost use Rattle.prove_tool.specs.Status.{refusal_text};

    ghost output = { λ r. Some (refusal_text r) };

    fn fmt<W: fmt::Write>(&self, f: &mut fmt::Formatter<W>) -> fmt::Result {
        match self {
            ProveRefusal::Viper(ViperRefusal::Size) => f.write_str("size"),
            ProveRefusal::Viper(ViperRefusal::Lex(LexFault::BadByte(at))) => {
                write!(f, "bad-byte {at}")
            }
            ProveRefusal::Viper(ViperRefusal::Lex(LexFault::OpenComment(at))) => {
                write!(f, "open-comment {at}")
            }
            ProveRefusal::Viper(ViperRefusal::Lex(LexFault::BigLiteral(at))) => {
                write!(f, "big-literal {at}")
            }
            ProveRefusal::Viper(ViperRefusal::Lex(LexFault::Braces(at))) => {
                write!(f, "braces {at}")
            }
            ProveRefusal::Viper(ViperRefusal::Lex(LexFault::LongGroup(at))) => {
                write!(f, "long-group {at}")
            }
            ProveRefusal::Viper(ViperRefusal::Lex(LexFault::Unsupported(at))) => {
                write!(f, "unsupported {at}")
            }
            ProveRefusal::Viper(ViperRefusal::Lex(LexFault::Memory)) => f.write_str("memory"),
            ProveRefusal::Viper(ViperRefusal::Syntax(at)) => write!(f, "syntax {at}"),
            ProveRefusal::Viper(ViperRefusal::Rule(at, rule)) => write!(f, "type {at} rule {rule}"),
            ProveRefusal::Viper(ViperRefusal::Weight(weight)) => write!(f, "weight {weight}"),
            ProveRefusal::Boogie(refusal) => write!(f, "{refusal}"),
            ProveRefusal::CertificateSize => f.write_str("certificate-size"),
            ProveRefusal::Certificate(line) => write!(f, "certificate {line} header"),
        }
    }
}
