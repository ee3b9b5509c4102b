// The face: the view of a section, and the call that looks an address up and undoes one frame, on any machine.
#![tactic(auto)]

pub mod view;

ghost use Rattle.std.specs.Prelude.{◌≡◌, ℕ};
ghost use Rattle.macho_unwind_info.specs.declared.UnwindError.TheVariants.{NotLookedUp, NotStepped};
ghost use Rattle.lookup.specs.Lookup.{lookup_on, told_with};
ghost use Rattle.macho_unwind_info.specs.Unwind.{error_of, outcome_of, unwound, unwound_told, unwind_by};

pub use crate::view::UnwindInfo;
use entries::Function;
use raw::Error;
use rules::Refusal;
use step::Registers;

// Why the caller's registers aren't there: the lookup's refusal, or the step's.
#[derive(Clone, Copy, Debug, PartialEq, Eq)]
pub enum UnwindError {
    NotLookedUp(Error),
    NotStepped(Refusal),
}

// Whether the caller's registers are there, and the entries that the lookup probed.
#[derive(Clone, Copy, Debug, PartialEq, Eq)]
pub struct Unwound {
    pub probes: u32,
    pub outcome: Result<(), UnwindError>,
}

impl UnwindError {
    // The refusal's number (docs/FORMAT.md, 11).
    pub fn number(self) -> u8
        ensures { result ≡ (error_of self).number }
    {
        match self {
            UnwindError::NotLookedUp(error) => error.number(),
            UnwindError::NotStepped(refusal) => refusal.number(),
        }
    }

    // What the refusal carries: DWARF's 24 bits, or the kind; otherwise 0.
    pub fn value(self) -> u32
        ensures { result ≡ (error_of self).value }
    {
        match self {
            UnwindError::NotLookedUp(_) => 0,
            UnwindError::NotStepped(refusal) => refusal.value(),
        }
    }
}

impl Unwound {
    // The refusal's number, 0 where there is an answer.
    pub fn number(self) -> u8
        ensures { result ≡ (outcome_of self.outcome).number }
    {
        match self.outcome {
            Ok(()) => 0,
            Err(error) => error.number(),
        }
    }

    // What the refusal carries, 0 where there is an answer.
    pub fn value(self) -> u32
        ensures { result ≡ (outcome_of self.outcome).value }
    {
        match self.outcome {
            Ok(()) => 0,
            Err(error) => error.value(),
        }
    }
}

impl From<Error> for UnwindError {
    ghost from_gives = { λ e answer. answer ≡ NotLookedUp e };

    fn from(error: Error) -> UnwindError {
        UnwindError::NotLookedUp(error)
    }
}

impl From<Refusal> for UnwindError {
    ghost from_gives = { λ r answer. answer ≡ NotStepped r };

    fn from(refusal: Refusal) -> UnwindError {
        UnwindError::NotStepped(refusal)
    }
}

// Looks the address up, and undoes one frame: the registers become the caller's. Where the lookup or the step is refused, they stay as they were.
pub fn unwind<R: Registers>(
    section: &[u8],
    address: u32,
    registers: &mut R,
    base: u64,
    window: &[u8],
) -> Unwound
    ensures { unwound_told result (R.told registers.new) ≡ unwind_by (λ w. R.step_of w base window.now (R.told registers.old)) (R.told registers.old) (lookup_on section.now address) }
{
    let found = lookup::lookup(section, address);
    Unwound {
        probes: found.probes,
        outcome: undo(found.function, registers, base, window),
    }
}

// An address with no function has no frame to undo.
fn undo<R: Registers>(
    function: Result<Option<Function>, Error>,
    registers: &mut R,
    base: u64,
    window: &[u8],
) -> Result<(), UnwindError>
    ensures { (probes : ℕ) → unwound (outcome_of result) probes (R.told registers.new) ≡ unwind_by (λ w. R.step_of w base window.now (R.told registers.old)) (R.told registers.old) (told_with probes function) }
{
    let Some(function) = function? else {
        return Err(UnwindError::from(Refusal::Null));
    };
    registers.step(function.opcode, base, window)?;
    Ok(())
}
