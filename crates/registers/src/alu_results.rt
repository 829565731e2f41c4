// What the arithmetic does to the registers: a result goes to a register, and its PSL with it. No result changes RS, so both banks stay
// where they are.
#![tactic(auto, using(alu::specs::RsLaws::rs_laws))]

ghost use Rattle.std.specs.Prelude.{◌≡◌};
ghost use Rattle.alu.specs.Alu.{decimal_adjust_of, load_result_of, operation_result_of, rotate_left_of, rotate_right_of, test_psl_of};
ghost use Rattle.alu.specs.Psl.{bit_rs};
ghost use Rattle.alu.specs.declared.alu.AluResult.{AluResult};
ghost use Rattle.registers.specs.AluResults.{with_alu_result};
ghost use Rattle.registers.specs.Cpu.{psl_of, register_of, with_psl};
ghost use Rattle.registers.specs.PackedCpu.{cpu_of};

use crate::packed_cpu::PackedCpu;
use alu::{AluResult, Operation};

impl PackedCpu {
    #[tactic(auto, unfolding(crate::specs::AluResults::with_alu_result, crate::specs::CpuDefinitions::cpu_definitions))]
    fn with_alu_result(self, r: u8, o: AluResult) -> PackedCpu
        requires { bit_rs o.psl ≡ bit_rs (psl_of (cpu_of self)) }
        ensures { cpu_of result ≡ with_alu_result (cpu_of self) r o }
    {
        let n = self.with_register(r, o.value);
        n.with_psl_same_bank(o.psl)
    }

    // A byte is loaded into register r.
    pub fn load(self, r: u8, v: u8) -> PackedCpu
        ensures { cpu_of result ≡ with_alu_result (cpu_of self) r (load_result_of (psl_of (cpu_of self)) v) }
    {
        let o = alu::load_result(self.psl(), v);
        self.with_alu_result(r, o)
    }

    // What `change` makes of PSL and register r goes to register r.
    fn changed<F: FnOnce(u8, u8) -> AluResult>(self, r: u8, change: F) -> PackedCpu
        requires callable { F.pre change (psl_of (cpu_of self)) (register_of (cpu_of self) r) }
        requires rs_kept { (o : AluResult) → F.post change (psl_of (cpu_of self)) (register_of (cpu_of self) r) o → bit_rs o.psl ≡ bit_rs (psl_of (cpu_of self)) }
        ensures { (o : AluResult) × F.post change (psl_of (cpu_of self)) (register_of (cpu_of self) r) o × (cpu_of result ≡ with_alu_result (cpu_of self) r o) }
    {
        let o = change(self.psl(), self.register(r));
        self.with_alu_result(r, o)
    }

    // An operation on register r and a byte.
    pub fn operate(self, f: Operation, r: u8, b: u8) -> PackedCpu
        ensures { cpu_of result ≡ with_alu_result (cpu_of self) r (operation_result_of f (psl_of (cpu_of self)) (register_of (cpu_of self) r) b) }
    {
        self.changed(r, |psl, v| alu::operation_result(f, psl, v, b))
    }

    // DAR of register r.
    pub fn adjust(self, r: u8) -> PackedCpu
        ensures { cpu_of result ≡ with_alu_result (cpu_of self) r (decimal_adjust_of (psl_of (cpu_of self)) (register_of (cpu_of self) r)) }
    {
        self.changed(r, |psl, v| alu::decimal_adjust(psl, v))
    }

    // RRR of register r.
    pub fn rotate_right(self, r: u8) -> PackedCpu
        ensures { cpu_of result ≡ with_alu_result (cpu_of self) r (rotate_right_of (psl_of (cpu_of self)) (register_of (cpu_of self) r)) }
    {
        self.changed(r, |psl, v| alu::rotate_right(psl, v))
    }

    // RRL of register r.
    pub fn rotate_left(self, r: u8) -> PackedCpu
        ensures { cpu_of result ≡ with_alu_result (cpu_of self) r (rotate_left_of (psl_of (cpu_of self)) (register_of (cpu_of self) r)) }
    {
        self.changed(r, |psl, v| alu::rotate_left(psl, v))
    }

    // CC by a test of v under the mask.
    pub fn test(self, v: u8, mask: u8) -> PackedCpu
        ensures { cpu_of result ≡ with_psl (cpu_of self) (test_psl_of (psl_of (cpu_of self)) v mask) }
    {
        let p = alu::test_psl(self.psl(), v, mask);
        self.with_psl_same_bank(p)
    }
}
