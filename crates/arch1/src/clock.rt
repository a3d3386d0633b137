ghost use Rattle.std.specs.Prelude.{◌≡◌};
ghost use Rattle.arch1.specs.Clock.{idle, address_of, dropped, answered, settled, clock_answer, clocked_core, tick_answer, ticked_core, ticked_words};
ghost use Rattle.arch1.specs.Refinement.{Keeps};
ghost use Rattle.arch1.specs.Transfers.{transfer};

use super::datapath::Core;
use super::phase::{CoreFault, Phase, Ticked};
use actions::action_of;
use memory::WriteMemory;
use processor::{Reply, perform};
use registers::RegisterFile;

impl Core {
    /// A core with these registers and this PC, no instruction open.
    pub fn new(registers: RegisterFile, pc: u32) -> Core
        ensures { result ≡ idle registers pc }
    {
        Core {
            registers,
            pc,
            tr: 0,
            ir: 0,
            action: action_of(0),
            dr: 0,
            ar: 0,
            flg: false,
            phase: Phase::T0,
        }
    }

    /// Sets the registers and PC, drops an open instruction and clears TR, IR, DR, AR and FLG.
    pub fn set(&mut self, registers: RegisterFile, pc: u32)
        ensures { self.new ≡ idle registers pc }
    {
        *self = Core::new(registers, pc);
    }

    // The address of the open instruction, or of the next one.
    fn address(&self) -> u32
        ensures { result ≡ address_of self.now }
    {
        match self.phase {
            Phase::T0 => self.pc,
            Phase::T1 | Phase::T2 | Phase::T3 => self.tr,
        }
    }

    /// Drops an open instruction: PC is at its address, the phase is T0, and TR, IR, DR, AR and FLG are cleared.
    pub fn drop_open(&mut self)
        ensures { self.new ≡ dropped self.old }
    {
        self.set(self.registers, self.address());
    }

    // One clock, with a reply to its access.
    fn settle(&mut self, reply: Reply) -> Result<Ticked, CoreFault>
        ensures answer { result ≡ answered self.old (transfer self.old reply) }
        ensures core { self.new ≡ settled self.old (transfer self.old reply) }
    {
        let phase = self.phase;
        let address = self.address();
        let answer = self.transfer(reply).map_err(|cause| CoreFault {
            phase,
            address,
            cause,
        });
        if answer.is_err() {
            self.drop_open();
        }
        answer
    }

    /// One clock, with the memory's reply to `access()`: the next phase, and whether an instruction retired.
    /// A refused clock keeps the registers, puts PC at the instruction's address and the phase at T0, and clears TR, IR, DR, AR and FLG.
    /// A reply that is none to the access changes nothing, and gives nothing.
    pub fn clock(&mut self, reply: Reply) -> Option<Result<Ticked, CoreFault>>
        ensures answer { result ≡ clock_answer self.old reply }
        ensures core { self.new ≡ clocked_core self.old reply }
    {
        // No `then`: of a closure that changes the core, a proof does not learn what it leaves.
        if reply.suits(self.access()) {
            Some(self.settle(reply))
        } else {
            None
        }
    }

    /// One clock over a memory: the next phase, and whether an instruction retired. It is refused as `clock` says, and the memory then stays as it is.
    /// Whatever instruction the core is in, the clock keeps it with RV32I by whole instructions.
    #[tactic(auto, using(crate::proofs::Clocks::clock_keeps))]
    pub fn tick<M: WriteMemory>(&mut self, memory: &mut M) -> Result<Ticked, CoreFault>
        ensures answer { result ≡ tick_answer (M.ReadMemory.kinds memory.old) (M.ReadMemory.words memory.old) self.old }
        ensures core { self.new ≡ ticked_core (M.ReadMemory.kinds memory.old) (M.ReadMemory.words memory.old) self.old }
        ensures words { M.ReadMemory.words memory.new ≡ ticked_words (M.ReadMemory.kinds memory.old) (M.ReadMemory.words memory.old) self.old }
        ensures kinds { M.ReadMemory.kinds memory.new ≡ M.ReadMemory.kinds memory.old }
        ensures rest { M.WriteMemory.rest memory.new ≡ M.WriteMemory.rest memory.old }
        ensures law { Keeps (M.ReadMemory.kinds memory.old) (M.ReadMemory.words memory.old) self.old result self.new (M.ReadMemory.words memory.new) }
    {
        let reply = perform(memory, self.access());
        self.settle(reply)
    }
}
