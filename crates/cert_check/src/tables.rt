// The table of a certificate: the names of the conditions, and its terms behind them.
ghost use Rattle.std.specs.Prelude.{IfOk, OnOk};
ghost use Rattle.boogie_formula.specs.View.{conditions_of};
ghost use Rattle.cert_terms.specs.Lawful.{terms_of, types_of, HasGrown};
ghost use Rattle.cert_check.specs.Shown.{IsTableOf};

use crate::kinds::types_of;
use crate::lines::{next_line, read_line};
use crate::names::NameCounts;
use crate::unshown::{Unshown, at};
use crate::words::{LineWord, word_of};
use boogie_formula::Conditions;
use cert_terms::{LineFault, LineRefusal, TermTable};
use std::alloc::Global;

/// The number of the first line behind the header.
pub(crate) const FIRST: usize = 2;

/// Takes in the term of a line, if it has one.
fn add_line(
    alloc: Global,
    names: NameCounts,
    table: &mut TermTable,
    line: &[u8],
) -> Result<(), LineFault>
    ensures { OnOk result (HasGrown table.old table.new) }
{
    let mut numbers = Vec::new(alloc);
    let text = read_line(line, &mut numbers)?;
    match word_of(text) {
        Some(LineWord::Term(form)) => {
            let term = names.term(alloc, form, &numbers)?;
            table.add(alloc, term)?;
            Ok(())
        }
        Some(_) => Ok(()),
        None => Err(LineFault::Refused(LineRefusal::Word)),
    }
}

/// The table before any term.
fn begun(alloc: Global, conditions: &Conditions) -> Result<TermTable, LineFault>
    ensures { IfOk result (λ t. IsTableOf (conditions_of conditions.now) (terms_of t) (types_of t)) }
{
    let types = types_of(alloc, conditions)?;
    TermTable::begin(alloc, types)
}

/// The table of the terms of all lines. Nothing may stand behind the byte 10 that ends the last one.
pub(crate) fn read_table(
    alloc: Global,
    conditions: &Conditions,
    lines: &[u8],
) -> Result<TermTable, Unshown>
    ensures { IfOk result (λ t. IsTableOf (conditions_of conditions.now) (terms_of t) (types_of t)) }
{
    let names = NameCounts::of(conditions);
    let mut table = match begun(alloc, conditions) {
        Ok(table) => table,
        Err(fault) => return Err(at(1, fault)),
    };
    let mut number = FIRST;
    let mut rest = lines;
    while let Some((line, after)) = next_line(rest) {
        match add_line(alloc, names, &mut table, line) {
            Ok(()) => {}
            Err(fault) => return Err(at(number, fault)),
        }
        number = number.saturating_add(1);
        rest = after;
    }
    if rest.is_empty() {
        Ok(table)
    } else {
        Err(Unshown::Refused(number, LineRefusal::Ending))
    }
}
