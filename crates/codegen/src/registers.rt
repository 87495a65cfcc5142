// `PARAM_REGS` and `PARAM_FREGS` of Krc's codegen/instructions.rs are the registers of parameters and arguments. `Taken` says which of these are in excess of
// the registers (M-112).
ghost use Rattle.std.specs.Prelude.{◌≡◌, false, ◌≤◌, ◌<◌, length, get_or};
ghost use Rattle.x86.specs.Registers.{RAX};
ghost use Rattle.codegen.specs.Frame.{registers_of};
ghost use Rattle.codegen.specs.Instructions.{register_of};
ghost use Rattle.codegen.specs.Excess.{is_beyond, behind_one};

use x86::register::Register;

const PARAM_REGS: [Register; 6] = [
    Register::RDI,
    Register::RSI,
    Register::RDX,
    Register::RCX,
    Register::R8,
    Register::R9,
];

// The parameter of rank `k` among those that are floats, or among those that are not, has this register.
pub fn param_register(float: bool, k: u64) -> Register
    requires { k < length (registers_of float) }
    ensures { result ≡ get_or (registers_of float) k RAX }
{
    if float {
        return Register::xmm(k);
    }
    PARAM_REGS[k as usize]
}

// So many registers there are for them.
pub fn registers(float: bool) -> u64
    ensures { result ≡ length (registers_of float) }
{
    if float { 8 } else { 6 }
}

// So many general registers, XMM registers and eightbytes of the stack are taken by the arguments or parameters before one.
#[derive(Clone, Copy)]
pub struct Taken {
    pub words: u64,
    pub floats: u64,
    pub stack: u64,
}

impl Taken {
    pub const NONE: Taken = Taken {
        words: 0,
        floats: 0,
        stack: 0,
    };

    // It says whether that one finds the registers of its kind taken.
    pub fn is_beyond(self, float: bool) -> bool
        ensures { result ≡ is_beyond float self }
    {
        if float {
            8 <= self.floats
        } else {
            6 <= self.words
        }
    }

    // This is the register that it finds.
    pub fn register(self, float: bool) -> Register
        requires { is_beyond float self ≡ false }
        ensures { result ≡ register_of float self.words self.floats }
    {
        if float {
            param_register(true, self.floats)
        } else {
            param_register(false, self.words)
        }
    }

    // It adds that one, which takes a register or an eightbyte of the stack.
    pub fn with(self, float: bool) -> Taken
        requires { self.stack ≤ 256 }
        ensures { result ≡ behind_one float self }
    {
        if self.is_beyond(float) {
            return Taken {
                stack: self.stack + 1,
                ..self
            };
        }
        if float {
            return Taken {
                floats: self.floats + 1,
                ..self
            };
        }
        Taken {
            words: self.words + 1,
            ..self
        }
    }
}
