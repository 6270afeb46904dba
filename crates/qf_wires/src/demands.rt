// What a row that does not add up demands of single parameters.

use crate::pulls::Place;
use crate::wired::{Way, Wired, truth};
use qf_base::NoMemory;
use qf_circuit::Def;
use qf_sums::{Span, Toggle, span_at, value_at};

const MOST_DEMANDS: u32 = 200;

// The costliest move that is demanded, and the definitions that have to lie in spans and were not looked at yet.
#[derive(Drop)]
struct Demands {
    toggle: Option<Toggle>,
    todo: Vec<(u32, Span)>,
}

impl Demands {
    // A parameter has to lie in a span.
    fn add(&mut self, place: &Place<'_>, slot: u32, wanted: Span) {
        let value = value_at(place.point, slot as usize);
        let (low, high) = span_at(place.spans, slot as usize);
        let (cost, cut, raises) = if value < wanted.0 {
            (wanted.0.abs_diff(value), wanted.0.saturating_sub(1), true)
        } else if wanted.1 < value {
            (value.abs_diff(wanted.1), wanted.1, false)
        } else {
            return;
        };
        let is_costlier = match &self.toggle {
            Some(toggle) => toggle.cost < cost,
            None => true,
        };
        if is_costlier && low <= cut && cut < high {
            self.toggle = Some(Toggle {
                cost,
                slot,
                cut,
                effect: 0,
                raises,
            });
        }
    }
}

impl Wired {
    // A sum has to lie in a span.
    fn demand_of_terms(
        &self,
        place: &Place<'_>,
        terms: &[(i64, u32)],
        constant: i64,
        wanted: Span,
        demands: &mut Demands,
    ) {
        for (factor, var) in terms {
            if let (Some(slot), true) = (self.slot_of(place, *var), *factor != 0) {
                let span = self.solved(terms, constant, *factor, *var, wanted);
                demands.add(place, slot, span);
            }
        }
    }

    // Each of some truths has to be what all of them are.
    fn demand_of_truths(
        &self,
        vars: &[u32],
        wanted: Span,
        demands: &mut Demands,
    ) -> Result<(), NoMemory> {
        for var in vars {
            if self.is_free(*var) {
                demands.todo.push((*var, wanted))?;
            }
        }
        Ok(())
    }

    // What one definition demands directly where it lies in a span.
    fn demand_at(
        &self,
        place: &Place<'_>,
        number: u32,
        wanted: Span,
        demands: &mut Demands,
    ) -> Result<(), NoMemory> {
        match self.def(number) {
            Some(Def::Param(_)) => {
                if let Some(slot) = self.slot_of(place, number) {
                    demands.add(place, slot, wanted);
                }
                Ok(())
            }
            Some(Def::Linear(terms, constant)) => {
                self.demand_of_terms(place, terms.as_slice(), *constant, wanted, demands);
                Ok(())
            }
            Some(Def::All(vars)) if 0 < wanted.0 => {
                self.demand_of_truths(vars.as_slice(), wanted, demands)
            }
            Some(Def::Any(vars)) if wanted.1 < 1 => {
                self.demand_of_truths(vars.as_slice(), wanted, demands)
            }
            _ => Ok(()),
        }
    }

    // What is demanded where a definition lies in a span, as far as there is one way only.
    fn demand_of(
        &self,
        place: &Place<'_>,
        number: u32,
        wanted: Span,
        demands: &mut Demands,
    ) -> Result<(), NoMemory> {
        let mut at = number;
        let mut wanted = wanted;
        for _ in self.defs() {
            if !self.is_free(at) {
                break;
            }
            self.demand_at(place, at, wanted, demands)?;
            match self.way(at, wanted) {
                Way::Through(var, span) => {
                    at = var;
                    wanted = span;
                }
                Way::If(test, is_set, var) => {
                    demands.todo.push((test, truth(is_set)))?;
                    at = var;
                }
                _ => break,
            }
        }
        Ok(())
    }

    /// The costliest move away from the box's cheapest point that each point at which the row meets its goal has to make.
    pub fn demanded(&self, place: &Place<'_>) -> Result<Option<Toggle>, NoMemory> {
        let mut demands = Demands {
            toggle: None,
            todo: Vec::new(place.alloc),
        };
        for (number, wanted) in self.targets() {
            demands.todo.push((*number, (*wanted, *wanted)))?;
        }
        for _ in 0..MOST_DEMANDS {
            let Some((number, wanted)) = demands.todo.pop() else {
                break;
            };
            self.demand_of(place, number, wanted, &mut demands)?;
        }
        Ok(demands.toggle)
    }
}
