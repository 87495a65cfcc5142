// This is Krc's `Context`, but for the number of labels and the return type, which stand beside it: the tables' cells, and each variable's offset under RBP.
ghost use Rattle.std.specs.Prelude.{◌≡◌};
ghost use Rattle.ir.specs.Answers.{says};
ghost use Rattle.codegen.specs.Context.{displacement, string_at, float_short};
ghost use Rattle.utils.specs.Answers.{held};

use crate::negated;
use cells::cell_at;
use cells::refusals::Refusal;

#[derive(Clone, Copy)]
pub struct Context<'a> {
    pub tables: &'a [u8],
    pub offsets: &'a [u64],
}

impl<'a> Context<'a> {
    // It is `-ctx.offsets[id]`, as a two's complement pattern.
    #[tactic(auto, unfolding(codegen::specs::Context::displacement))]
    pub fn displacement(&self, id: u64) -> Result<u64, Refusal>
        ensures { says result ≡ displacement (held self.now) id }
    {
        if self.offsets.len() as u64 <= id {
            return Err(Refusal::NoEntry);
        }
        Ok(negated(self.offsets[id as usize]))
    }

    // It is `ctx.data_names[id]`: a string that is in the tables has its number again.
    #[tactic(auto, unfolding(codegen::specs::Context::string_at, ir::specs::Function::tables_of))]
    pub fn string_at(&self, id: u64) -> Result<u64, Refusal>
        ensures { says result ≡ string_at (held self.now) id }
    {
        if 0 < self.tables.len() / 8 && id < cell_at(self.tables, 0) {
            Ok(id)
        } else {
            Err(Refusal::NoEntry)
        }
    }

    // It is `ctx.floats[id].1`: it says whether a float constant is short.
    #[tactic(auto, unfolding(codegen::specs::Context::float_short, ir::specs::Function::tables_of))]
    pub fn float_short(&self, id: u64) -> Result<bool, Refusal>
        ensures { says result ≡ float_short (held self.now) id }
    {
        let count = self.tables.len() / 8;
        if 0 < count && id < (count - 1) as u64 {
            Ok(cell_at(self.tables, id as usize + 1) == 1)
        } else {
            Err(Refusal::NoEntry)
        }
    }
}
