// Certificates that stand in a file one behind the other.
ghost use Rattle.std.specs.Prelude.{◌≡◌, ◌≤◌, IsErrOf};
ghost use Rattle.vb_outer.specs.Faults.{Rose};
ghost use Rattle.unit_proof.specs.declared.faults.CertificateFault.TheVariants as fault;

use crate::answers::Unfound;
use crate::certificates::{Certificates, Offer};
use crate::conditions::UnitConditions;
use crate::faults::CertificateFault;
use std::alloc::{AllocError, Global};
use std::mem;
use vb_base::limits::MAX_BOOGIE_BYTES;
use vb_outer::Shelf;

/// With this each section begins.
const HEADER: &[u8] = b"certificate ";

/// In front of this a section ends.
const NEXT_HEADER: &[u8] = b"\ncertificate ";

/// How many bytes are asked for at once.
const PIECE: usize = 65_536;

/// Where as many bytes show no end, the section is too long.
const LONGEST_SEEN: usize = MAX_BOOGIE_BYTES + NEXT_HEADER.len();

/// The certificates of a file that is begun on the shelf, one behind the other in the order of the units. Each is a section: it begins
/// at its line `certificate NAME`, and ends before the next line that begins with `certificate `, or with the file. A unit whose name
/// is not that of the next section has none, and leaves it to the next unit.
///
/// The file is read in pieces, and no more of it is held than a section, twice, and a piece.
#[derive(Drop)]
pub struct Sections {
    /// What was read last, and how much of it units have taken.
    text: Vec<u8>,
    taken: usize,
    /// Whether the file has no more.
    is_read: bool,
    /// How many lines were taken.
    lines: usize,
    /// Whether the next section is of a unit, and has more than `MAX_BOOGIE_BYTES` bytes.
    is_long: bool,
}

/// What stands behind the last unit's section.
#[derive(Clone, Copy, Debug, PartialEq, Eq)]
pub enum Rest {
    Nothing,
    /// A section that no unit has taken begins at this line, from 1 on: there are too many, or it is of no unit of the file, or of one
    /// before the units that have taken theirs.
    Untaken(usize),
    /// The section of a unit has more than `MAX_BOOGIE_BYTES` bytes. The unit does not take it, and no later one takes another.
    Long,
}

/// Where the first section ends, if what is there of the next one shows it. The first `seen` bytes do not show it.
fn end_of_section(text: &[u8], seen: usize) -> Option<usize> {
    let from = seen.saturating_sub(NEXT_HEADER.len()).min(text.len());
    let (_, behind) = text.split_at(from);
    let place = behind
        .windows(NEXT_HEADER.len())
        .position(|window| window == NEXT_HEADER)?;
    Some(from.saturating_add(place).saturating_add(1))
}

/// Whether the first line is the header of a certificate of this name. All of that line is there, or the file ends.
fn is_headed(text: &[u8], name: &[u8]) -> bool {
    let Some(named) = text.strip_prefix(HEADER) else {
        return false;
    };
    match named.strip_prefix(name) {
        Some([]) | Some([b'\n', ..]) => true,
        Some(_) | None => false,
    }
}

/// How many lines end in a text.
fn line_ends(text: &[u8]) -> usize {
    text.iter().filter(|byte| **byte == b'\n').count()
}

impl Sections {
    /// Those of a file that is begun.
    pub fn new(alloc: Global) -> Sections {
        Sections {
            text: Vec::new(alloc),
            taken: 0,
            is_read: false,
            lines: 0,
            is_long: false,
        }
    }

    /// What was read, and no unit has taken.
    fn left(&self) -> &[u8] {
        self.text.split_at(self.taken.min(self.text.len())).1
    }

    /// Gives up what units have taken.
    fn give_up_taken(&mut self, alloc: Global) -> Result<(), AllocError> {
        if self.taken > 0 {
            self.text = self.left().to_vec(alloc)?;
            self.taken = 0;
        }
        Ok(())
    }

    /// Room for a piece, where what units have taken is given up.
    fn piece(&mut self, alloc: Global) -> Result<Vec<u8>, AllocError> {
        self.give_up_taken(alloc)?;
        vec![in alloc; 0; PIECE]
    }

    /// Reads once more.
    fn read_piece<H: Shelf>(&mut self, alloc: Global, shelf: &mut H) -> Result<(), CertificateFault>
        ensures read { IsErrOf result fault.Read → Rose (H.faults shelf.old) (H.faults shelf.new) }
        ensures later { H.faults shelf.old ≤ H.faults shelf.new }
        ensures files { H.files shelf.new ≡ H.files shelf.old }
    {
        let Ok(mut piece) = self.piece(alloc) else {
            return Err(CertificateFault::Memory);
        };
        let Ok(count) = shelf.read(&mut piece) else {
            return Err(CertificateFault::Read);
        };
        self.is_read = count == 0;
        match self.text.extend_from_slice(&piece[..count]) {
            Ok(()) => Ok(()),
            Err(_) => Err(CertificateFault::Memory),
        }
    }

    /// Reads on until so many bytes are left, or the file ends.
    fn read_up_to<H: Shelf>(
        &mut self,
        alloc: Global,
        shelf: &mut H,
        count: usize,
    ) -> Result<(), CertificateFault>
        ensures read { IsErrOf result fault.Read → Rose (H.faults shelf.old) (H.faults shelf.new) }
        ensures later { H.faults shelf.old ≤ H.faults shelf.new }
        ensures files { H.files shelf.new ≡ H.files shelf.old }
    {
        for _piece in 0..u64::MAX {
            if self.is_read || self.left().len() >= count {
                return Ok(());
            }
            match self.read_piece(alloc, shelf) {
                Ok(()) => {}
                Err(fault) => return Err(fault),
            }
        }
        Ok(())
    }

    /// Reads on until the end of the first section is seen, and answers where that is. None: it is too long.
    fn read_section<H: Shelf>(
        &mut self,
        alloc: Global,
        shelf: &mut H,
    ) -> Result<Option<usize>, CertificateFault>
        ensures read { IsErrOf result fault.Read → Rose (H.faults shelf.old) (H.faults shelf.new) }
        ensures later { H.faults shelf.old ≤ H.faults shelf.new }
        ensures files { H.files shelf.new ≡ H.files shelf.old }
    {
        let mut seen = 0;
        for _piece in 0..u64::MAX {
            let left = self.left();
            let end = end_of_section(left, seen);
            seen = left.len();
            if end.is_some() || seen > LONGEST_SEEN {
                return Ok(end);
            }
            if self.is_read {
                return Ok(Some(seen));
            }
            match self.read_piece(alloc, shelf) {
                Ok(()) => {}
                Err(fault) => return Err(fault),
            }
        }
        Ok(None)
    }

    /// Takes the first bytes of what is left, as a certificate.
    fn take(&mut self, alloc: Global, count: usize) -> Result<Vec<u8>, AllocError> {
        let left = self.left();
        let section = left.split_at(count.min(left.len())).0.to_vec(alloc)?;
        self.taken = self.taken.saturating_add(section.len());
        self.lines = self.lines.saturating_add(line_ends(&section));
        Ok(section)
    }

    /// What no unit has taken. It is asked behind the last one.
    ///
    /// `Read` only where the shelf failed, and `Memory` where there is no memory.
    pub fn rest<H: Shelf>(&mut self, alloc: Global, shelf: &mut H) -> Result<Rest, CertificateFault>
        ensures read { IsErrOf result fault.Read → Rose (H.faults shelf.old) (H.faults shelf.new) }
        ensures later { H.faults shelf.old ≤ H.faults shelf.new }
        ensures files { H.files shelf.new ≡ H.files shelf.old }
    {
        if self.is_long {
            return Ok(Rest::Long);
        }
        match self.read_up_to(alloc, shelf, 1) {
            Ok(()) => Ok(self.rest_read()),
            Err(fault) => Err(fault),
        }
    }

    /// What is left, where the file ends or a byte of it is there.
    fn rest_read(&self) -> Rest {
        if self.left().is_empty() {
            Rest::Nothing
        } else {
            Rest::Untaken(self.lines.saturating_add(1))
        }
    }

    /// The section that ends there, if it is not too long.
    fn section(&mut self, alloc: Global, end: Option<usize>) -> Result<Offer, AllocError> {
        match end {
            Some(end) if end <= MAX_BOOGIE_BYTES => Ok(Offer::Certificate(self.take(alloc, end)?)),
            _ => {
                self.is_long = true;
                Ok(Offer::Nothing(Unfound::Missing))
            }
        }
    }
}

impl Certificates for Sections {
    fn next_certificate<H: Shelf>(
        &mut self,
        alloc: Global,
        shelf: &mut H,
        unit: &UnitConditions,
    ) -> Result<Offer, CertificateFault> {
        let name = unit.name.bytes();
        let header = HEADER.len().saturating_add(name.len()).saturating_add(1);
        match self.read_up_to(alloc, shelf, header) {
            Ok(()) => {}
            Err(fault) => return Err(fault),
        }
        if self.is_long || !is_headed(self.left(), name) {
            return Ok(Offer::Nothing(Unfound::Missing));
        }
        match self.read_section(alloc, shelf) {
            Ok(end) => match self.section(alloc, end) {
                Ok(offer) => Ok(offer),
                Err(_) => Err(CertificateFault::Memory),
            },
            Err(fault) => Err(fault),
        }
    }
}
