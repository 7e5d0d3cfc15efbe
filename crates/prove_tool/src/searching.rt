// What a search shows of the units of a file.
ghost use Rattle.std.specs.Prelude.{◌≡◌, ◌≤◌, IfErr, IfOk};
ghost use Rattle.vb_outer.specs.Shelf.{IsWhole};
ghost use Rattle.prove_tool.specs.Call.{StopsAtFile};
ghost use Rattle.prove_tool.specs.Parts.{StopsAtBytes};
ghost use Rattle.prove_tool.specs.Subject.{IsAnswered};
ghost use Rattle.prove_tool.specs.Written.{AreAnswersOf};

use crate::language::Language;
use crate::status::{ProveStatus, of_boogie, of_file, of_proof};
use search_failures::search_values;
use search_units::{DEFAULT_STEPS, Searched, search};
use std::alloc::Global;
use unit_proof::{CertificateFault, Certificates, Offer, Unfound, UnitAnswer, UnitConditions};
use vb_base::{Memory, put};
use vb_outer::{Shelf, read_file};

/// A search for a certificate of each unit, of so many steps at most for each.
#[derive(Clone, Copy, Debug)]
pub struct Search {
    pub steps: u64,
}

impl Search {
    /// A search within a budget, or else within the one that stands for all files.
    pub fn within(steps: Option<u64>) -> Search {
        Search {
            steps: steps.unwrap_or(DEFAULT_STEPS),
        }
    }

    /// What it finds for a unit.
    pub fn offer(self, alloc: Global, unit: &UnitConditions) -> Result<Offer, Memory> {
        match search(alloc, unit.name.bytes(), &unit.conditions, self.steps)? {
            Searched::Certificate(text) => Ok(Offer::Certificate(text)),
            Searched::Open(label) => Ok(Offer::Nothing(Unfound::Open(label))),
            Searched::Spent => Ok(Offer::Nothing(Unfound::Spent)),
        }
    }

    /// A line with the name of a unit, and what it finds of the labels of its conditions.
    pub fn values(self, alloc: Global, unit: &UnitConditions) -> Result<Vec<u8>, Memory> {
        let found = search_values(alloc, &unit.conditions, self.steps)?;
        let mut text = Vec::new(alloc);
        put(&mut text, b"unit ")?;
        put(&mut text, unit.name.bytes())?;
        put(&mut text, b"\n")?;
        put(&mut text, &found)?;
        Ok(text)
    }
}

impl Certificates for Search {
    fn next_certificate<H: Shelf>(
        &mut self,
        alloc: Global,
        _shelf: &mut H,
        unit: &UnitConditions,
    ) -> Result<Offer, CertificateFault> {
        match self.offer(alloc, unit) {
            Ok(offer) => Ok(offer),
            Err(_) => Err(CertificateFault::Memory),
        }
    }
}

/// What a search shows of the units of the bytes of a file of Viper.
fn viper_answers<H: Shelf>(
    alloc: Global,
    shelf: &mut H,
    bytes: &[u8],
    mut search: Search,
) -> Result<Vec<UnitAnswer>, ProveStatus>
    ensures answered { IfOk result (λ answers. IsAnswered bytes.now Language.Viper answers.items) }
    ensures stops { IfErr result (StopsAtBytes bytes.now Language.Viper (H.faults shelf.old) (H.faults shelf.new)) }
    ensures files { H.files shelf.new ≡ H.files shelf.old }
{
    match viper_proof::proved(alloc, bytes, shelf, &mut search) {
        Ok(answers) => Ok(answers),
        Err(unproved) => Err(of_proof(unproved)),
    }
}

/// What a search shows of the procedures of the bytes of a text of Boogie.
fn boogie_answers<H: Shelf>(
    alloc: Global,
    shelf: &mut H,
    bytes: &[u8],
    mut search: Search,
) -> Result<Vec<UnitAnswer>, ProveStatus>
    ensures answered { IfOk result (λ answers. IsAnswered bytes.now Language.Boogie answers.items) }
    ensures stops { IfErr result (StopsAtBytes bytes.now Language.Boogie (H.faults shelf.old) (H.faults shelf.new)) }
    ensures files { H.files shelf.new ≡ H.files shelf.old }
{
    match boogie_proof::proved(alloc, bytes, shelf, &mut search) {
        Ok(answers) => Ok(answers),
        Err(trouble) => Err(of_boogie(trouble)),
    }
}

/// What a search shows of the units of the bytes of a file of the language.
fn answers_of_bytes<H: Shelf>(
    alloc: Global,
    shelf: &mut H,
    language: Language,
    bytes: &[u8],
    search: Search,
) -> Result<Vec<UnitAnswer>, ProveStatus>
    ensures answered { IfOk result (λ answers. IsAnswered bytes.now language answers.items) }
    ensures stops { IfErr result (StopsAtBytes bytes.now language (H.faults shelf.old) (H.faults shelf.new)) }
    ensures files { H.files shelf.new ≡ H.files shelf.old }
{
    match language {
        Language::Viper => viper_answers(alloc, shelf, bytes, search),
        Language::Boogie => boogie_answers(alloc, shelf, bytes, search),
    }
}

/// Reads a file of the language, and tells what a search shows of its units.
pub fn searched<H: Shelf>(
    alloc: Global,
    shelf: &mut H,
    language: Language,
    file: &str,
    search: Search,
) -> Result<Vec<UnitAnswer>, ProveStatus>
    ensures answered { IfOk result (λ answers. AreAnswersOf (IsWhole (H.files shelf.old)) language file.now answers.items) }
    ensures stops { IfErr result (StopsAtFile (H.files shelf.old) language file.now (H.faults shelf.old) (H.faults shelf.new)) }
    ensures files { H.files shelf.new ≡ H.files shelf.old }
{
    match read_file(alloc, shelf, file, language.most_bytes()) {
        Ok(bytes) => answers_of_bytes(alloc, shelf, language, &bytes, search),
        Err(fault) => Err(of_file(language, fault)),
    }
}
