// Definitions as they are made, one after another.

ghost use Rattle.std.specs.Prelude.{◌≡◌, ℕ, [], ◌∷◌, ◌++◌, ◌+◌, ◌^◌, ◌<◌, ◌≤◌, length, slice_index_or, IfOk, OnOk, pos};
ghost use Rattle.qf_encode.specs.Coding.{with_param, param_number, with_atom, atom_number};
ghost use Rattle.qf_encode.specs.Making.{IsNoParam};

use qf_base::{List, NoMemory};
use qf_circuit::Def;
use qf_ir::Atom;
use std::alloc::Global;
use std::marker::Model;

/// Definitions as they are made, seen as their list. It knows the number of each parameter's definition.
#[derive(Drop)]
pub struct Maker {
    alloc: Global,
    defs: List<Def>,
    // at the place of a parameter's number the number of its definition, and 0 where it has none
    params: List<u32>,
}

impl Model for Maker {
    ghost use Rattle.std.specs.Prelude.{List as Items};
    ghost use Rattle.qf_circuit.specs.declared.circuit.Def.{Def as Definition};
    ghost use Rattle.qf_encode.specs.Making.{Knows};

    ghost Value = { Items Definition };

    ghost view = { λ m. m.defs };

    ghost invariant = { λ m. Knows m.params m.defs };
}

fn reach(numbers: &mut List<u32>, place: u32) -> Result<(), NoMemory>
    ensures same { (k : ℕ) → slice_index_or numbers.new k 0 ≡ slice_index_or numbers.old k 0 }
    ensures room { OnOk result (place < length numbers.new) }
{
    for _ in numbers.len()..u64::from(place) + 1 {
        numbers.push(0)?;
    }
    Ok(())
}

// The number at a place, and 0 where there is none.
pub fn number_at(numbers: &[u32], place: u32) -> u32
    ensures { result ≡ slice_index_or numbers.now place 0 }
{
    match numbers.get(place as usize) {
        Some(number) => *number,
        None => 0,
    }
}

impl Maker {
    pub fn new(alloc: Global) -> Maker
        ensures { result ≡ [] }
    {
        Maker {
            alloc,
            defs: List::new(alloc),
            params: List::new(alloc),
        }
    }

    pub fn alloc(&self) -> Global {
        self.alloc
    }

    pub fn into_defs(self) -> List<Def>
        ensures { result ≡ self }
    {
        let Maker { defs, .. } = self;
        defs
    }

    // Adds a definition that is no parameter, and gives its number.
    pub fn push(&mut self, def: Def) -> Result<u32, NoMemory>
        requires other { IsNoParam def }
        requires few { length self.old + 1 < 2 ^ 32 }
        ensures made { OnOk result (self.new ≡ self.old ++ def ∷ []) }
        ensures number { IfOk result (λ number. number ≡ length self.old + 1) }
    {
        self.defs.push(def)?;
        Ok(self.defs.len() as u32)
    }

    // The number of a parameter's definition, which is made where there is none yet.
    pub fn param(&mut self, param: u32) -> Result<u32, NoMemory>
        requires few { length (with_param self.old param) < 2 ^ 32 }
        ensures made { OnOk result (self.new ≡ with_param self.old param) }
        ensures number { IfOk result (λ number. number ≡ param_number self.new param) }
    {
        reach(&mut self.params, param)?;
        let known = number_at(self.params.as_slice(), param);
        if known != 0 {
            return Ok(known);
        }
        self.defs.push(Def::Param(param))?;
        let number = self.defs.len() as u32;
        self.params.set(u64::from(param), number);
        Ok(number)
    }

    // The number of the definition that a term names, where the columns have these.
    pub fn atom(&mut self, columns: &[u32], atom: Atom) -> Result<u32, NoMemory>
        requires few { length (with_atom self.old atom) < 2 ^ 32 }
        ensures made { OnOk result (self.new ≡ with_atom self.old atom) }
        ensures number { IfOk result (λ number. number ≡ atom_number self.new columns.now atom) }
    {
        match atom {
            Atom::Column(column) => Ok(number_at(columns, column)),
            Atom::Param(param) => self.param(param),
        }
    }
}
