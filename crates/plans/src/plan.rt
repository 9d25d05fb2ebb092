// What a frame is to hold, and what is refused of it, known before the first byte is written.
ghost use Rattle.std.specs.Prelude.{◌≡◌, ◌+◌, ◌*◌};
ghost use Rattle.plans.specs.Plan.{te};
ghost use Rattle.plans.specs.Refusal.{off_limits, header_inactive, body_wrong, too_late, in_some, write_refusal};
ghost use Rattle.plans.specs.Meant.{meant, cells_of};
ghost use Rattle.plans.specs.Refused.{refused_as};

use super::refusal::Refusal;

// The quiet cycles between frame start and header, the frame's length in cycles, the acknowledgements of outputs 0..3, the cells of inputs 0..3.
#[derive(Clone, Copy)]
pub struct Plan<'a> {
    pub gap: u8,
    pub cycles: u16,
    pub acks: [bool; 4],
    pub cells: [&'a [u8]; 4],
}

fn off_limits(gap: u8, cycles: u16) -> bool
    ensures { result ≡ off_limits gap cycles }
{
    let shortest = u16::from(gap) + 2;
    !(1..=16).contains(&gap) || !(shortest..=4096).contains(&cycles)
}

fn header_inactive(cell: &[u8]) -> bool
    ensures { result ≡ header_inactive cell.now }
{
    match cell {
        [] => false,
        [header, ..] => *header % 2 != 1,
    }
}

// A body of 64 bytes has a header before it.
fn body_wrong(cell: &[u8]) -> bool
    ensures { result ≡ body_wrong cell.now }
{
    match cell {
        [] => false,
        [_] => true,
        [_, .., last] => 65 < cell.len() || *last == 0,
    }
}

// The header is sent in cycle gap + 1. The cycle behind the cell has to come before the next frame start, which falls in cycle `cycles`.
fn too_late(gap: u8, cycles: u16, cell: &[u8]) -> bool
    ensures { result ≡ too_late (gap + 1) cycles cell.now }
{
    !cell.is_empty() && usize::from(cycles) <= usize::from(gap) + 1 + cell.len()
}

impl Plan<'_> {
    fn some_inactive(&self) -> bool
        ensures { result ≡ in_some header_inactive (cells_of self.now) }
    {
        self.cells.iter().any(|cell| header_inactive(cell))
    }

    fn some_wrong(&self) -> bool
        ensures { result ≡ in_some body_wrong (cells_of self.now) }
    {
        self.cells.iter().any(|cell| body_wrong(cell))
    }

    fn some_late(&self) -> bool
        ensures { result ≡ in_some (too_late (self.now.gap + 1) self.now.cycles) (cells_of self.now) }
    {
        let gap = self.gap;
        let cycles = self.cycles;
        self.cells.iter().any(|cell| too_late(gap, cycles, cell))
    }

    // How many bytes the frame's records have.
    pub fn size(&self) -> usize
        ensures { result ≡ 5 * te (meant self.now) }
    {
        5 * usize::from(self.cycles)
    }

    // The first refusal that applies, for a buffer of `room` bytes.
    #[tactic(auto, unfolding(crate::specs::Refusal::write_refusal))]
    pub fn check(&self, room: usize) -> Result<(), Refusal>
        ensures { refused_as result ≡ write_refusal (meant self.now) room }
    {
        if off_limits(self.gap, self.cycles) {
            return Err(Refusal::OffLimits);
        }
        if self.some_inactive() {
            return Err(Refusal::HeaderInactive);
        }
        if self.some_wrong() {
            return Err(Refusal::BodyWrong);
        }
        if self.some_late() {
            return Err(Refusal::TooLate);
        }
        if room < self.size() {
            return Err(Refusal::NoRoom);
        }
        Ok(())
    }
}
