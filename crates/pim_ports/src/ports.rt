ghost use Rattle.std.specs.Prelude.{◌≡◌, ◌++◌, length, IfOk, OnOk};

use pim_io::NoMemory;
use pim_isa::Ports;
use pim_net::Net;
use std::alloc::Global;

/// The labels of a netlist's inputs and outputs.
pub fn ports_of(alloc: Global, net: &Net) -> Result<Ports, NoMemory>
    ensures inputs { IfOk result (λ ports. ports.inputs ≡ net.now.input_labels) }
    ensures outputs { IfOk result (λ ports. ports.outputs ≡ net.now.output_labels) }
    ensures as_many_inputs { IfOk result (λ ports. length ports.inputs ≡ length net.now.inputs) }
    ensures as_many_outputs { IfOk result (λ ports. length ports.outputs ≡ length net.now.outputs) }
{
    let mut ports = Ports::new(alloc);
    add_inputs(&mut ports, net)?;
    add_outputs(&mut ports, net)?;
    Ok(ports)
}

/// Adds the labels of a netlist's inputs.
fn add_inputs(ports: &mut Ports, net: &Net) -> Result<(), NoMemory>
    ensures inputs { OnOk result (ports.new.inputs ≡ ports.old.inputs ++ net.now.input_labels) }
    ensures as_many { length net.now.input_labels ≡ length net.now.inputs }
    ensures outputs { OnOk result (ports.new.outputs ≡ ports.old.outputs) }
{
    for k in 0..net.inputs().len() {
        ports.add_input(net.input_label(k as u32))?;
    }
    Ok(())
}

/// Adds the labels of a netlist's outputs.
fn add_outputs(ports: &mut Ports, net: &Net) -> Result<(), NoMemory>
    ensures inputs { OnOk result (ports.new.inputs ≡ ports.old.inputs) }
    ensures outputs { OnOk result (ports.new.outputs ≡ ports.old.outputs ++ net.now.output_labels) }
    ensures as_many { length net.now.output_labels ≡ length net.now.outputs }
{
    for k in 0..net.outputs().len() {
        ports.add_output(net.output_label(k as u32))?;
    }
    Ok(())
}
