//! An instruction with what its steps tell, and what it did in one of them.

ghost use Rattle.std.specs.Prelude.{◌≡◌, true, false};
ghost use Rattle.scale_base.specs.Class as classes;
ghost use Rattle.scale_base.specs.Step as steps;
ghost use Rattle.rv_machine.specs.Decoded.{decoded_end, TellsOf};

use flat_memory::Memory;
use rv_decode::class_of;
use scale_base::{Class, Instr, Move, StepEnd, Stepped, Trap};

/// An instruction, and what each of its steps tells: its class, by whether it is a branch that is taken, whether it calls or returns, and
/// whether it is fetched from the keyed segment.
#[derive(Clone, Copy)]
pub struct Decoded {
    pub instr: Instr,
    pub untaken: Class,
    pub taken: Class,
    pub moved: Move,
    pub keyed: bool,
}

/// What an instruction did, besides what the machine shows.
#[derive(Clone, Copy, PartialEq, Eq)]
pub enum Effect {
    /// It went on to the machine's `pc`.
    Went,
    /// A branch that was taken to the machine's `pc`.
    Branched,
    /// It stored a level at the speed port, and went on.
    Switched(u8),
    /// It ended the program with a status.
    Exited(u8),
    Trapped(Trap),
}

fn move_of(instr: &Instr) -> Move
    ensures { result ≡ steps.move_of instr.now }
{
    match *instr {
        Instr::Jal { rd: 1, .. } => Move::Call,
        Instr::Jalr {
            rd: 0,
            rs1: 1,
            offset: 0,
        } => Move::Return,
        _ => Move::Local,
    }
}

/// The instruction of the word at an address, with what its steps tell.
pub fn describe<M: Memory>(memory: &M, at: u32, instr: Instr) -> Decoded
    ensures instr { result.instr ≡ instr }
    ensures tells { TellsOf (M.layout memory.now) at result }
{
    Decoded {
        instr,
        untaken: class_of(&instr, false),
        taken: class_of(&instr, true),
        moved: move_of(&instr),
        keyed: memory.is_keyed(at),
    }
}

impl Decoded {
    ghost use Rattle.std.specs.Prelude.{◌≡◌};
    ghost use Rattle.rv_machine.specs.Decoded.{decoded_step, decoded_end};

    /// The completed step of the instruction at `pc`, to an address.
    #[inline(always)]
    fn stepped(&self, pc: u32, class: Class, port: Option<u8>, next: u32) -> Stepped
        ensures { result ≡ decoded_step self.now pc class port next }
    {
        Stepped {
            pc,
            next,
            class,
            moved: self.moved,
            keyed: self.keyed,
            port,
        }
    }

    /// How the step of the instruction at `pc` ended, by what it did and the address after it.
    #[inline(always)]
    pub fn end(&self, pc: u32, effect: Effect, next: u32) -> StepEnd
        ensures { result ≡ decoded_end self.now pc effect next }
    {
        match effect {
            Effect::Went => StepEnd::Went(self.stepped(pc, self.untaken, None, next)),
            Effect::Branched => StepEnd::Went(self.stepped(pc, self.taken, None, next)),
            Effect::Switched(level) => {
                StepEnd::Went(self.stepped(pc, self.untaken, Some(level), next))
            }
            Effect::Exited(status) => {
                StepEnd::Exited(self.stepped(pc, self.untaken, None, next), status)
            }
            Effect::Trapped(trap) => StepEnd::Trapped(trap),
        }
    }
}
