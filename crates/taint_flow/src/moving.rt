// Instructions that move sets as they are, between a register and memory or from one register to another.
ghost use Rattle.std.specs.Prelude.{ℕ, List, ◌↔◌, IsTrue};
ghost use Rattle.rv64_model.specs.Carries.{operands};
ghost use Rattle.rv64_model.specs.Operands.{stored_len};
ghost use Rattle.taint_spans.specs.Numbered.{Numbered};
ghost use Rattle.taint_flow.specs.Flow.{Moves};
ghost use Rattle.taint_flow.specs.Gathered.{AreNumbers, number_of};
ghost use Rattle.taint_flow.specs.Moving.{MovesLoaded, MovesRegister, MovesStored};
ghost use Rattle.taint_flow.specs.Names.{loaded_len};
ghost use Rattle.taint_flow.specs.Results.{AreResults};

use crate::flow::{Flow, of_immediate, of_load, of_store};
use rv64_isa::Instr;
use rv64_model::Linkage;
use taint_spans::SpanSets;

/// Whether an instruction moves the sets of the bytes that it loads to a register as they are. The sets are asked for what is
/// promised of the empty one alone.
#[inline(always)]
pub fn moves_loaded(sets: &SpanSets, linkage: Linkage, instr: &Instr) -> bool
    ensures moves { IsTrue result ↔ MovesLoaded linkage instr.now }
    ensures results { MovesLoaded linkage instr.now → (first second loaded numbers : List ℕ) →
        AreNumbers sets.now loaded → Moves loaded (loaded_len instr.now) numbers →
        AreResults sets.now sets.now (number_of first second loaded) (operands linkage instr.now) numbers }
{
    let _ = sets.empty();
    match *instr {
        Instr::Load { op, rd, .. } => {
            rd.number() > 0 && matches!(of_load(linkage, op), Flow::Memory(_))
        }
        _ => false,
    }
}

/// Whether an instruction moves the sets of a register's bytes to those that it stores as they are. The sets are asked for what is
/// promised of the empty one alone.
#[inline(always)]
pub fn moves_stored(sets: &SpanSets, linkage: Linkage, instr: &Instr) -> bool
    ensures moves { IsTrue result ↔ MovesStored linkage instr.now }
    ensures results { MovesStored linkage instr.now → (first second loaded numbers : List ℕ) →
        AreNumbers sets.now second → Moves second (stored_len instr.now) numbers →
        AreResults sets.now sets.now (number_of first second loaded) (operands linkage instr.now) numbers }
{
    let _ = sets.empty();
    match *instr {
        Instr::Store { op, .. } => matches!(of_store(linkage, op), Flow::Second(_)),
        _ => false,
    }
}

/// Whether an instruction moves the sets of a register's bytes to those of another one as they are.
#[inline(always)]
pub fn moves_register(linkage: Linkage, instr: &Instr) -> bool
    ensures moves { IsTrue result ↔ MovesRegister linkage instr.now }
    ensures results { MovesRegister linkage instr.now → (sets : Numbered) (first second loaded : List ℕ) →
        AreNumbers sets first →
        AreResults sets sets (number_of first second loaded) (operands linkage instr.now) first }
{
    match *instr {
        Instr::Imm { op, rd, imm, .. } => {
            rd.number() > 0 && matches!(of_immediate(linkage, op, imm), Flow::First)
        }
        _ => false,
    }
}
