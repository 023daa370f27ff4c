//! The value of each variable of a circuit, gate by gate.
ghost use Rattle.std.specs.Prelude.{◌≡◌, Bool, List, length, All, IfOk};
ghost use Rattle.std.specs.List.{list_all, list_any};
ghost use Rattle.dd_circuit.specs.Circuits.{IsSignal, IsGate, signal_value, gate_value};
ghost use Rattle.dd_circuit.specs.Valuations.{values_from, AreValues};
ghost use Rattle.dd_values.specs.Variables.{true_variables};

use crate::gates::{Circuit, Gate, Signal};
use std::alloc::{AllocError, Global};

impl Circuit {
    /// The values of all variables if the inputs have the values `inputs`, one for each input. The value of variable k is at
    /// index k - 1. Fails only if memory runs out.
    pub fn values(&self, alloc: Global, inputs: &[bool]) -> Result<Vec<bool>, AllocError>
        requires { length inputs.now ≡ self.now.inputs }
        ensures exact { IfOk result (λ values. values.items ≡ values_from inputs.now self.now.gates) }
        ensures are_values { IfOk result (λ values. AreValues self.now inputs.now values.items) }
        ensures only { IfOk result (λ values. (others : List Bool)
            → AreValues self.now inputs.now others → others ≡ values.items) }
    {
        let mut values = Vec::with_capacity(alloc, self.variables() as usize)?;
        values.extend_from_slice(inputs)?;
        for gate in self.gates() {
            let value = gate_value(gate, &values);
            values.push(value)?;
        }
        Ok(values)
    }
}

fn signal_value(signal: &Signal, values: &[bool]) -> bool
    requires { IsSignal (length values.now) signal.now }
    ensures { result ≡ signal_value (true_variables values.now) signal.now }
{
    let value = values[signal.variable as usize - 1];
    if signal.positive { value } else { !value }
}

fn are_all_true(members: &[Signal], values: &[bool]) -> bool
    requires { All (IsSignal (length values.now)) members.now }
    ensures { result ≡ list_all (signal_value (true_variables values.now)) members.now }
{
    members.iter().all(|member| signal_value(member, values))
}

fn is_some_true(members: &[Signal], values: &[bool]) -> bool
    requires { All (IsSignal (length values.now)) members.now }
    ensures { result ≡ list_any (signal_value (true_variables values.now)) members.now }
{
    members.iter().any(|member| signal_value(member, values))
}

fn gate_value(gate: &Gate, values: &[bool]) -> bool
    requires { IsGate (length values.now) gate.now }
    ensures { result ≡ gate_value (true_variables values.now) gate.now }
{
    match gate {
        Gate::And(members) => are_all_true(members.as_slice(), values),
        Gate::Or(members) => is_some_true(members.as_slice(), values),
        Gate::Iff(a, b) => signal_value(a, values) == signal_value(b, values),
    }
}
