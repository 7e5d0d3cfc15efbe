// Where certificates come from.
ghost use Rattle.std.specs.Prelude.{◌≡◌, ◌≤◌, IsErrOf};
ghost use Rattle.vb_outer.specs.Faults.{Rose};
ghost use Rattle.unit_proof.specs.declared.faults.CertificateFault.TheVariants as fault;

use crate::answers::Unfound;
use crate::conditions::UnitConditions;
use crate::faults::CertificateFault;
use std::alloc::Global;
use vb_outer::Shelf;

/// A certificate, or why there is none.
#[derive(Drop)]
pub enum Offer {
    Certificate(Vec<u8>),
    Nothing(Unfound),
}

/// Where the certificates of a file's units come from: a search, or a file of them that is begun on the shelf. It is asked of each
/// unit once, in the order of the file. What it offers is checked, so nothing is asked of it.
pub trait Certificates {
    /// A certificate of the next unit, which has these conditions, or why there is none: then the unit stays open.
    ///
    /// `Memory` where there is no memory for it, and `Read` only where the shelf failed. Then no other unit is asked for.
    fn next_certificate<H: Shelf>(
        &mut self,
        alloc: Global,
        shelf: &mut H,
        unit: &UnitConditions,
    ) -> Result<Offer, CertificateFault>
        ensures read { IsErrOf result fault.Read → Rose (H.faults shelf.old) (H.faults shelf.new) }
        ensures later { H.faults shelf.old ≤ H.faults shelf.new }
        ensures files { H.files shelf.new ≡ H.files shelf.old };
}
