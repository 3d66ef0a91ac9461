// The numbers of the bytes of registers.
ghost use Rattle.std.specs.Prelude.{◌≡◌, ◌<◌, ◌≤◌, ◌+◌, ◌*◌, ◌↔◌, ℕ, IsTrue, false, true, length, slice_index, slice_set, IfOk, OnOk};
ghost use Rattle.taint_spans.specs.Carried.{CarriesOn, HaveNumbers};
ghost use Rattle.taint_pages.specs.Rows.{AreBytes, ClearsBytes, CopiesBytes, PutsBytes, SetsByte, byte_in};

use arn_base::NoMemory;
use rv64_isa::Reg;
use std::alloc::Global;
use std::marker::Model;
use taint_spans::Carrying;

/// The number of the set of each byte of the registers, and which registers are marked. The bytes of x0 have 0, and so have those of
/// each register that isn't marked.
#[derive(Clone, Copy)]
struct Numbers {
    numbers: [u32; 256],
    marked: [bool; 32],
}

/// The number of the set of each byte of the registers. They stand in a box, so tables of rows are small.
#[derive(Drop)]
pub struct Row {
    kept: Box<Numbers>,
}

/// 0 for each byte, and no mark.
const ZEROS: Numbers = Numbers {
    numbers: [0; 256],
    marked: [false; 32],
};

impl Model for Row {
    ghost use Rattle.std.specs.Prelude.{ℕ, List};
    ghost use Rattle.taint_pages.specs.Rows.{AreMarked, IsRow};

    ghost Value = { List ℕ };

    ghost view = { λ r. r.kept.value.numbers };

    ghost invariant = { λ r. IsRow r.kept.value.numbers
        × AreMarked r.kept.value.numbers r.kept.value.marked };
}

impl Numbers {
    /// Sets the numbers of the first bytes of a register, at most eight, and 0 for the others, and its mark.
    #[inline(always)]
    fn put(&mut self, reg: Reg, numbers: &[u32], mark: bool)
        requires few { length numbers.now ≤ 8 }
        ensures puts { PutsBytes reg numbers.now self.old.numbers self.new.numbers }
        ensures len { length self.new.numbers ≡ length self.old.numbers }
        ensures marked { self.new.marked ≡ slice_set self.old.marked reg mark }
    {
        let start = place(reg, 0);
        for byte in 0..8 {
            self.numbers[start + byte] = if byte < numbers.len() {
                numbers[byte]
            } else {
                0
            };
        }
        self.marked[usize::from(reg.number())] = mark;
    }

    /// Gives each byte of a register the number of that of another one in its place, and marks it.
    #[inline(always)]
    fn copy_bytes(&mut self, from: Reg, to: Reg)
        ensures copies { CopiesBytes from to self.old.numbers self.new.numbers }
        ensures len { length self.new.numbers ≡ length self.old.numbers }
        ensures marked { self.new.marked ≡ slice_set self.old.marked to true }
    {
        let source = place(from, 0);
        let start = place(to, 0);
        for byte in 0..8 {
            self.numbers[start + byte] = self.numbers[source + byte];
        }
        self.marked[usize::from(to.number())] = true;
    }
}

/// Whether each of these numbers is 0.
#[inline(always)]
fn are_zero(numbers: &[u32]) -> bool
    ensures { IsTrue result → (i : ℕ) → slice_index numbers.now i ≡ 0 }
{
    numbers.iter().all(|number| *number == 0)
}

impl Row {
    /// 0 for each byte.
    pub fn new(alloc: Global) -> Result<Row, NoMemory>
        ensures { IfOk result (λ row. (r i : ℕ) → byte_in row r i ≡ 0) }
    {
        Ok(Row {
            kept: Box::new(alloc, ZEROS)?,
        })
    }

    /// The same numbers again.
    pub fn copy(&self) -> Result<Row, NoMemory>
        ensures { IfOk result (λ copy. copy ≡ self.now) }
    {
        let alloc = *Box::allocator(&self.kept);
        Ok(Row {
            kept: Box::new(alloc, *self.kept)?,
        })
    }

    /// Gives each byte the number that it has in another row.
    pub fn copy_from(&mut self, other: &Row)
        ensures { self.new ≡ other.now }
    {
        *self.kept = *other.kept;
    }

    /// Sets the number of each byte to 0.
    pub fn clear_all(&mut self)
        ensures { (r i : ℕ) → byte_in self.new r i ≡ 0 }
    {
        *self.kept = ZEROS;
    }

    /// Gives each byte the number that its set has from now on.
    pub fn carry(&mut self, carrying: &mut Carrying) -> Result<(), NoMemory>
        ensures numbers { OnOk result (HaveNumbers carrying.new self.old self.new) }
        ensures on { CarriesOn carrying.old carrying.new }
    {
        carrying.carry_all(self.kept.numbers.as_mut_slice())
    }

    /// The number of a byte of a register.
    #[inline(always)]
    pub fn get(&self, reg: Reg, byte: u8) -> u32
        requires { byte < 8 }
        ensures number { result ≡ byte_in self.now reg byte }
        ensures zero { reg ≡ 0 → result ≡ 0 }
    {
        self.kept.numbers[place(reg, byte)]
    }

    /// Sets the number of a byte of a register that isn't x0.
    #[inline(always)]
    pub fn set(&mut self, reg: Reg, byte: u8, number: u32)
        requires above { 0 < reg }
        requires byte { byte < 8 }
        ensures { SetsByte reg byte number self.old self.new }
    {
        self.kept.numbers[place(reg, byte)] = number;
        self.kept.marked[usize::from(reg.number())] = true;
    }

    /// Whether each byte of a register has 0. False may be answered of one whose bytes have it.
    #[inline(always)]
    pub fn is_clear(&self, reg: Reg) -> bool
        ensures { IsTrue result → (i : ℕ) → i < 8 → byte_in self.now reg i ≡ 0 }
    {
        !self.kept.marked[usize::from(reg.number())]
    }

    /// Sets the number of each byte of a register that isn't x0 to 0.
    #[inline(always)]
    pub fn clear(&mut self, reg: Reg)
        requires above { 0 < reg }
        ensures { ClearsBytes reg self.old self.new }
    {
        if !self.is_clear(reg) {
            self.clear_marked(reg);
        }
    }

    /// The same of one that may have others.
    fn clear_marked(&mut self, reg: Reg)
        requires above { 0 < reg }
        ensures { ClearsBytes reg self.old self.new }
    {
        self.kept.put(reg, &[], false);
    }

    /// The numbers of the eight bytes of a register.
    #[inline(always)]
    pub fn bytes(&self, reg: Reg) -> &[u32]
        ensures { AreBytes self.now reg result.now }
    {
        let start = place(reg, 0);
        &self.kept.numbers[start..start + 8]
    }

    /// Sets the numbers of all bytes of a register that isn't x0.
    #[inline(always)]
    pub fn put(&mut self, reg: Reg, numbers: &[u32])
        requires above { 0 < reg }
        requires eight { length numbers.now ≡ 8 }
        ensures { PutsBytes reg numbers.now self.old self.new }
    {
        self.put_few(reg, &numbers[..8]);
    }

    /// Sets the numbers of the first bytes of a register that isn't x0, at most eight, and 0 for the others. Each length that an
    /// instruction loads is compiled by itself.
    #[inline(always)]
    pub(crate) fn put_first(&mut self, reg: Reg, numbers: &[u32])
        requires above { 0 < reg }
        requires few { length numbers.now ≤ 8 }
        ensures { PutsBytes reg numbers.now self.old self.new }
    {
        match numbers.len() {
            1 => self.put_few(reg, &numbers[..1]),
            2 => self.put_few(reg, &numbers[..2]),
            4 => self.put_few(reg, &numbers[..4]),
            8 => self.put_few(reg, &numbers[..8]),
            _ => self.put_few(reg, numbers),
        }
    }

    /// The same, for one length.
    #[inline(always)]
    fn put_few(&mut self, reg: Reg, numbers: &[u32])
        requires above { 0 < reg }
        requires few { length numbers.now ≤ 8 }
        ensures { PutsBytes reg numbers.now self.old self.new }
    {
        if are_zero(numbers) {
            self.clear(reg);
        } else {
            self.kept.put(reg, numbers, true);
        }
    }

    /// Gives each byte of a register that isn't x0 the number of that of another one in its place.
    #[inline(always)]
    pub fn copy_register(&mut self, from: Reg, to: Reg)
        requires above { 0 < to }
        ensures copies { CopiesBytes from to self.old self.new }
        ensures zero { from ≡ 0 → ClearsBytes to self.old self.new }
    {
        if self.is_clear(from) {
            self.clear(to);
        } else {
            self.kept.copy_bytes(from, to);
        }
    }
}

/// Where a byte of a register stands.
#[inline(always)]
fn place(reg: Reg, byte: u8) -> usize
    requires { byte < 8 }
    ensures place { result ≡ 8 * reg + byte }
    ensures within { result < 256 }
{
    usize::from(reg.number()) * 8 + usize::from(byte)
}
