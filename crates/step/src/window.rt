// The slots of one frame in a stack window, over their width and any number of registers: one set of functions for every machine.
ghost use Rattle.std.specs.Prelude.{◌≡◌, true, ℕ, ◌+◌, ◌-◌, ◌^◌, ◌≤◌, length};
ghost use Rattle.frame.specs.Memory.{load};
ghost use Rattle.frame.specs.Frame.{inside, all_inside, restored, slot, step_at};
ghost use Rattle.step.specs.Steps.{regs_of, valueless};
ghost use Rattle.step.specs.Slots.{anchor_of, address_of, cfa_of, spot_of, slot_inside, landing};

use rules::{CfaRegister, Refusal};

// The bytes of the stack from the address `base` on, on a machine whose slots have WIDTH bytes and whose last address is TOP.
#[derive(Clone, Copy)]
pub(crate) struct Window<'a, const WIDTH: usize, const TOP: u64> {
    base: u64,
    bytes: &'a [u8],
    ghost machine: { (WIDTH ≤ 8) × (TOP + 1 ≡ 256 ^ WIDTH) },
}

pub(crate) type Window64<'a> = Window<'a, 8, 0xffff_ffff_ffff_ffff>;

// What a step over slots finds; the preserved registers are loaded in place.
#[derive(Clone, Copy, Debug, PartialEq, Eq)]
pub(crate) struct Landed {
    pub pc: u64,
    pub sp: u64,
}

pub(crate) fn choose_anchor(register: CfaRegister, sp: u64, fp: u64) -> u64
    ensures { result ≡ anchor_of register sp fp }
{
    match register {
        CfaRegister::StackPointer => sp,
        CfaRegister::FramePointer => fp,
    }
}

impl<'a> Window64<'a> {
    pub(crate) fn new(base: u64, bytes: &'a [u8]) -> Window64<'a>
        ensures { (result.base ≡ base) × (result.bytes.now ≡ bytes.entry.now) }
    {
        Window { base, bytes }
    }
}

impl<'a, const WIDTH: usize, const TOP: u64> Window<'a, WIDTH, TOP> {
    // The address so far above another, if there is one.
    fn address(from: u64, distance: u64) -> Option<u64>
        ensures { result ≡ address_of TOP from distance }
    {
        let address = from.checked_add(distance)?;
        (address <= TOP).then_some(address)
    }

    // CFA, where it and the window's end are addresses.
    pub(crate) fn find_cfa(self, anchor: u64, distance: u64) -> Option<u64>
        ensures { result ≡ cfa_of TOP self.entry.base (length self.entry.bytes.now) anchor distance }
    {
        Self::address(self.base, self.bytes.len() as u64)?;
        Self::address(anchor, distance)
    }

    // Where the slot so far below CFA starts in the window, if it lies in it.
    fn find_slot(self, cfa: u64, below: u64) -> Option<usize>
        ensures { result ≡ spot_of WIDTH self.entry.base (length self.entry.bytes.now) cfa below }
    {
        let from = cfa.checked_sub(below)?.checked_sub(self.base)?;
        let last = self.bytes.len().checked_sub(WIDTH)?;
        (from <= last as u64).then_some(from as usize)
    }

    #[tactic(auto, using(crate::proofs::Turns::load_start, crate::proofs::Turns::load_end))]
    fn load(self, at: usize) -> u64
        requires { at + WIDTH ≤ length self.bytes.now }
        ensures { result ≡ load WIDTH at self.entry.bytes.now }
    {
        let mut number: u64 = 0;
        for i in (0..WIDTH).rev() {
            number = 256 * number + u64::from(self.bytes[at + i]);
        }
        number
    }

    // Whether a slot lies in the window; a distance 0 has none.
    fn has(self, cfa: u64, below: u16) -> bool
        ensures { result ≡ slot_inside (inside WIDTH self.entry.base (length self.entry.bytes.now) cfa) below }
    {
        below == 0 || self.find_slot(cfa, u64::from(below)).is_some()
    }

    // Whether each slot lies in the window.
    fn all_inside(self, cfa: u64, below: &[u16]) -> bool
        ensures { result ≡ all_inside (inside WIDTH self.entry.base (length self.entry.bytes.now) cfa) below.now }
    {
        below.iter().all(
            |d| -> bool
                ensures { result ≡ slot_inside (inside WIDTH self.entry.base (length self.entry.bytes.now) cfa) d.now }
            { self.has(cfa, *d) },
        )
    }

    // The registers with a slot, loaded from it.
    fn load_all(self, cfa: u64, below: &[u16], kept: &mut [u64])
        requires { (length kept.old ≡ length below.now) × (all_inside (inside WIDTH self.base (length self.bytes.now) cfa) below.now ≡ true) }
        ensures { kept.new ≡ restored (λ (d : ℕ). load WIDTH (cfa - d - self.entry.base) self.entry.bytes.now) below.now kept.old }
    {
        for (i, d) in below.iter().enumerate() {
            if *d != 0 {
                kept[i] = self.load((cfa - u64::from(*d) - self.base) as usize);
            }
        }
    }

    // One step where the return address has a slot, next to CFA. A refusal leaves the registers as they are.
    pub(crate) fn step(
        self,
        anchor: u64,
        distance: u64,
        below: &[u16],
        kept: &mut [u64],
    ) -> Result<Landed, Refusal>
        requires { length kept.old ≡ length below.now }
        ensures { (pc sp : ℕ) → landing result pc sp kept.new ≡ valueless (step_at WIDTH self.entry.base self.entry.bytes.now (anchor + distance) (slot WIDTH) below.now (regs_of pc sp kept.old)) }
    {
        let cfa = self
            .find_cfa(anchor, distance)
            .ok_or(Refusal::AboveAddresses)?;
        let at = self
            .find_slot(cfa, WIDTH as u64)
            .ok_or(Refusal::OutsideWindow)?;
        if !self.all_inside(cfa, below) {
            return Err(Refusal::OutsideWindow);
        }
        self.load_all(cfa, below, kept);
        Ok(Landed {
            pc: self.load(at),
            sp: cfa,
        })
    }
}
