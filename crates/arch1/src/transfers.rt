ghost use Rattle.std.specs.Prelude.{◌≡◌, ◌+◌, ◌<◌, nat_eq, IfErr};
ghost use Rattle.machine.specs.Machine.{wrap, aligned, load_size, store_size};
ghost use Rattle.arch1.specs.Clock.{moved, told};
ghost use Rattle.arch1.specs.Phases.{phase_number};
ghost use Rattle.arch1.specs.Transfers.{transfer, refuses, access_of, in_phase, x};

use super::datapath::Core;
use super::phase::{Phase, Ticked};
use actions::{Action, action_of};
use alu::{Load, Store, compare, loaded, operate, store_lanes};
use machine::Cause;
use processor::{Access, Reply};

// How many bytes a load is about. Two functions, as loads and stores are two enums with a definition each.
fn load_size(load: Load) -> u32
    ensures { result ≡ load_size load }
{
    match load {
        Load::Byte | Load::ByteUnsigned => 1,
        Load::Half | Load::HalfUnsigned => 2,
        Load::Word => 4,
    }
}

// How many bytes a store is about.
fn store_size(store: Store) -> u32
    ensures { result ≡ store_size store }
{
    match store {
        Store::Byte => 1,
        Store::Half => 2,
        Store::Word => 4,
    }
}

// Whether an address is a multiple of a size.
fn aligned(address: u32, size: u32) -> bool
    requires { 0 < size }
    ensures { result ≡ aligned address size }
{
    address % size == 0
}

impl Core {
    // The number in a register plus an immediate.
    fn sum(&self, rs1: u8, immediate: u32) -> u32
        ensures { result ≡ wrap (x self.now rs1 + immediate) }
    {
        self.registers.get(rs1).wrapping_add(immediate)
    }

    // The next clock is in the phase `next`, which is T0 exactly if the instruction is done.
    fn enter(&mut self, next: Phase) -> Ticked
        ensures core { self.new ≡ in_phase next self.old }
        ensures answer { result ≡ record { next = next; retired = nat_eq (phase_number next) 0 } }
    {
        self.phase = next;
        Ticked {
            next,
            retired: next == Phase::T0,
        }
    }

    // The register-transfer table. The reply is one to the access of this clock.
    pub(super) fn transfer(&mut self, reply: Reply) -> Result<Ticked, Cause>
        ensures answer { result ≡ told (transfer self.old reply) }
        ensures core { self.new ≡ moved self.old (transfer self.old reply) }
        ensures refused { IfErr result (λ e. (transfer self.old reply ≡ refuses e) × (self.new ≡ self.old)) }
    {
        match (self.phase, self.action) {
            (Phase::T0, _) => {
                if !aligned(self.pc, 4) {
                    return Err(Cause::UnalignedPc);
                }
                self.dr = reply.word()?;
                self.tr = self.pc;
                self.pc = self.pc.wrapping_add(4);
                Ok(self.enter(Phase::T1))
            }
            (Phase::T1, _) => {
                self.ir = self.dr;
                self.action = action_of(self.dr);
                Ok(self.enter(Phase::T2))
            }
            (Phase::T2, None) => Err(Cause::NoInstruction),
            (
                Phase::T2,
                Some(
                    Action::Comp {
                        operation,
                        rd,
                        rs1,
                        rs2,
                    },
                ),
            ) => {
                let value = operate(operation, self.registers.get(rs1), self.registers.get(rs2));
                self.registers.put(rd, value);
                Ok(self.enter(Phase::T0))
            }
            (
                Phase::T2,
                Some(
                    Action::CompI {
                        operation,
                        rd,
                        rs1,
                        immediate,
                    },
                ),
            ) => {
                let value = operate(operation, self.registers.get(rs1), immediate);
                self.registers.put(rd, value);
                Ok(self.enter(Phase::T0))
            }
            (Phase::T2, Some(Action::Lui { rd, immediate })) => {
                self.registers.put(rd, immediate);
                Ok(self.enter(Phase::T0))
            }
            (Phase::T2, Some(Action::Auipc { rd, immediate })) => {
                self.registers.put(rd, self.tr.wrapping_add(immediate));
                Ok(self.enter(Phase::T0))
            }
            (
                Phase::T2,
                Some(
                    Action::Ld {
                        load,
                        rs1,
                        immediate,
                        ..
                    },
                ),
            ) => {
                let address = self.sum(rs1, immediate);
                if !aligned(address, load_size(load)) {
                    return Err(Cause::UnalignedAddress);
                }
                self.dr = reply.word()?;
                self.ar = address;
                Ok(self.enter(Phase::T3))
            }
            (
                Phase::T2,
                Some(
                    Action::St {
                        store,
                        rs1,
                        immediate,
                        ..
                    },
                ),
            ) => {
                let address = self.sum(rs1, immediate);
                if !aligned(address, store_size(store)) {
                    return Err(Cause::UnalignedAddress);
                }
                reply.written()?;
                self.ar = address;
                Ok(self.enter(Phase::T0))
            }
            (Phase::T2, Some(Action::Jal { rd, immediate })) => {
                self.registers.put(rd, self.pc);
                self.pc = self.tr.wrapping_add(immediate);
                Ok(self.enter(Phase::T0))
            }
            (Phase::T2, Some(Action::Jalr { rd, rs1, immediate })) => {
                let target = self.sum(rs1, immediate);
                self.registers.put(rd, self.pc);
                self.pc = target - target % 2;
                Ok(self.enter(Phase::T0))
            }
            (
                Phase::T2,
                Some(
                    Action::Br {
                        comparison,
                        rs1,
                        rs2,
                        ..
                    },
                ),
            ) => {
                self.flg = compare(comparison, self.registers.get(rs1), self.registers.get(rs2));
                Ok(self.enter(Phase::T3))
            }
            (Phase::T3, Some(Action::Ld { load, rd, .. })) => {
                self.registers.put(rd, loaded(load, self.dr, self.ar));
                Ok(self.enter(Phase::T0))
            }
            (
                Phase::T3,
                Some(
                    Action::Br {
                        immediate: offset,
                        ..
                    },
                ),
            ) => {
                if self.flg {
                    self.pc = self.tr.wrapping_add(offset);
                }
                Ok(self.enter(Phase::T0))
            }
            (Phase::T3, _) => Ok(self.enter(Phase::T0)),
        }
    }

    /// What the next clock asks of the memory: in T0 the word at PC, in T2 a load's word or a store's lanes.
    /// Nothing where the address is not aligned, since the clock is then refused.
    // Put into every caller, as `perform` is.
    #[inline(always)]
    pub fn access(&self) -> Access
        ensures { result ≡ access_of self.now }
    {
        match (self.phase, self.action) {
            (Phase::T0, _) if aligned(self.pc, 4) => Access::Read(self.pc / 4),
            (
                Phase::T2,
                Some(
                    Action::Ld {
                        load,
                        rs1,
                        immediate,
                        ..
                    },
                ),
            ) => {
                let address = self.sum(rs1, immediate);
                if !aligned(address, load_size(load)) {
                    return Access::Nothing;
                }
                Access::Read(address / 4)
            }
            (
                Phase::T2,
                Some(
                    Action::St {
                        store,
                        rs1,
                        rs2,
                        immediate,
                    },
                ),
            ) => {
                let address = self.sum(rs1, immediate);
                if !aligned(address, store_size(store)) {
                    return Access::Nothing;
                }
                let lanes = store_lanes(store, self.registers.get(rs2), address);
                Access::Write {
                    word: address / 4,
                    value: lanes.value,
                    mask: lanes.mask,
                }
            }
            _ => Access::Nothing,
        }
    }
}
