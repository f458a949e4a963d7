ghost use Rattle.std.specs.Prelude.{◌≡◌, ◌<◌, ◌≤◌, ◌⊎◌, length, All, IfOk, IsTrue};
ghost use Rattle.pim_net.specs.Netlist.{draft_of};
ghost use Rattle.pim_net.specs.Faults.{signals_of};
ghost use Rattle.pim_io.specs.Readings.{Gives};
ghost use Rattle.pim_aiger.specs.HeaderLine.{has_tag, is_aiger};
ghost use Rattle.pim_aiger.specs.Files.{labels_of, judged_net, closing, text_whole, binary_whole, text_net_of, binary_net_of, net_of};
ghost use Rattle.pim_aiger.specs.inner.Kept.{IsGates, IsWithin};
ghost use Rattle.pim_io.specs.declared.limits.TheConstants.{MAX_PROGRAM};
ghost use Rattle.pim_net.specs.declared.limits.TheConstants.{MAX_SIGNALS};
ghost use Rattle.pim_aiger.specs.inner.Views.{form_view, header_view};

use crate::fault::AigerFault;
use crate::header::{Form, Header};
use crate::labels::{add_inputs, add_outputs, labels};
use crate::names::names_at;
use crate::parts::{binary_gates, gates, inputs, outputs, variables};
use crate::reader::Reader;
use pim_net::{Draft, Net, NetFault, OutRef};
use std::alloc::Global;

/// The netlist of a file in the ASCII form, which begins with the four bytes `aag `, or the first fault. Expected
/// linear in the bytes alone: no number in them makes it take longer or take more memory.
#[tactic(auto, unfolding(crate::specs::Files::text_net_of))]
pub fn read_text(alloc: Global, bytes: &[u8]) -> Result<Net, AigerFault>
    requires { length bytes.now ≤ MAX_PROGRAM }
    ensures { Gives AigerFault.NoMemory draft_of result (text_net_of bytes.now) }
{
    let draft = text(alloc, bytes)?;
    judged(alloc, draft)
}

/// The netlist of a file in the binary form, which begins with the four bytes `aig `, or the first fault. Expected linear
/// in the bytes and in the number of inputs, which are not in the bytes and of which there are fewer than `MAX_SIGNALS`.
#[tactic(auto, unfolding(crate::specs::Files::binary_net_of))]
pub fn read_binary(alloc: Global, bytes: &[u8]) -> Result<Net, AigerFault>
    requires { length bytes.now ≤ MAX_PROGRAM }
    ensures { Gives AigerFault.NoMemory draft_of result (binary_net_of bytes.now) }
{
    let draft = binary(alloc, bytes)?;
    judged(alloc, draft)
}

/// The netlist of a file in either form, which its first four bytes tell, or the first fault.
pub fn read(alloc: Global, bytes: &[u8]) -> Result<Net, AigerFault>
    requires { length bytes.now ≤ MAX_PROGRAM }
    ensures { Gives AigerFault.NoMemory draft_of result (net_of bytes.now) }
{
    if has_tag(Form::Binary, bytes) {
        read_binary(alloc, bytes)
    } else {
        read_text(alloc, bytes)
    }
}

/// Whether bytes begin with the tag of one of the forms, `aag ` or `aig `. Constant time.
pub fn is_aiger(bytes: &[u8]) -> bool
    ensures { result ≡ is_aiger bytes.now }
{
    has_tag(Form::Text, bytes) || has_tag(Form::Binary, bytes)
}

/// Whether bytes begin with the tag of a form.
fn has_tag(form: Form, bytes: &[u8]) -> bool
    ensures tag { result ≡ has_tag (form_view form) bytes.now }
    ensures long { IsTrue result → 4 ≤ length bytes.now }
{
    match form {
        Form::Text => bytes.starts_with(b"aag "),
        Form::Binary => bytes.starts_with(b"aig "),
    }
}

/// The netlist of a file that was read whole, where it has no fault; in a fault variable 7 is called `v7`.
#[tactic(auto, unfolding(crate::specs::Files::judged_net))]
fn judged(alloc: Global, draft: Draft) -> Result<Net, AigerFault>
    ensures { Gives AigerFault.NoMemory draft_of result (judged_net draft) }
{
    match Net::check(alloc, draft) {
        Ok(net) => Ok(net),
        Err(fault) => Err(labelled(alloc, fault)),
    }
}

/// The fault of a netlist with the labels of the signals that it names, where there is memory for them.
fn labelled(alloc: Global, fault: NetFault) -> AigerFault
    ensures named { (result ≡ AigerFault.NoMemory) ⊎ (result ≡ AigerFault.Net fault (labels_of (signals_of fault))) }
    ensures memory { fault ≡ NetFault.NoMemory → result ≡ AigerFault.NoMemory }
{
    if let NetFault::NoMemory = fault {
        return AigerFault::NoMemory;
    }
    match labels(alloc, fault.signals()) {
        Ok(labels) => AigerFault::Net(fault, labels),
        Err(_) => AigerFault::NoMemory,
    }
}

/// The whole of a file in the ASCII form.
#[tactic(auto, unfolding(crate::specs::Files::text_whole, crate::specs::Files::text_parts))]
fn text(alloc: Global, bytes: &[u8]) -> Result<Draft, AigerFault>
    requires { length bytes.now ≤ MAX_PROGRAM }
    ensures { Gives AigerFault.NoMemory (λ draft. draft) result (text_whole bytes.now) }
{
    if !has_tag(Form::Text, bytes) {
        return Err(AigerFault::Header);
    }
    let mut reader = Reader::new(bytes, 4);
    let header = reader.header(Form::Text)?;
    let inputs = inputs(alloc, &mut reader, &header)?;
    let outputs = outputs(alloc, &mut reader, &header)?;
    let gates = gates(alloc, &mut reader, &header)?;
    closed(alloc, &reader, &header, &inputs, &outputs, gates)
}

/// The whole of a file in the binary form.
#[tactic(auto, unfolding(crate::specs::Files::binary_whole, crate::specs::Files::binary_parts))]
fn binary(alloc: Global, bytes: &[u8]) -> Result<Draft, AigerFault>
    requires { length bytes.now ≤ MAX_PROGRAM }
    ensures { Gives AigerFault.NoMemory (λ draft. draft) result (binary_whole bytes.now) }
{
    if !has_tag(Form::Binary, bytes) {
        return Err(AigerFault::Header);
    }
    let mut reader = Reader::new(bytes, 4);
    let header = reader.header(Form::Binary)?;
    let outputs = outputs(alloc, &mut reader, &header)?;
    let gates = binary_gates(alloc, &mut reader, &header)?;
    let inputs = variables(alloc, header.inputs)?;
    closed(alloc, &reader, &header, &inputs, &outputs, gates)
}

/// The whole of a file whose symbols come next, from its other parts.
#[tactic(auto, unfolding(crate::specs::Files::closing))]
fn closed(
    alloc: Global,
    reader: &Reader,
    header: &Header,
    inputs: &[u32],
    outputs: &[OutRef],
    mut draft: Draft,
) -> Result<Draft, AigerFault>
    requires within { IsWithin (header_view header.now) }
    requires inputs { length inputs.now ≡ header.now.inputs }
    requires inputs_below { All (λ v. v < MAX_SIGNALS) inputs.now }
    requires outputs { length outputs.now ≡ header.now.outputs }
    requires outputs_below { All (λ o. o.sig < MAX_SIGNALS) outputs.now }
    requires gates { IsGates draft }
    ensures { Gives AigerFault.NoMemory (λ draft. draft) result
        (closing (header_view header.now) inputs.now outputs.now draft.equations reader.now) }
{
    let names = names_at(alloc, header, reader.place(), reader.rest())?;
    add_inputs(alloc, &mut draft, inputs, names.inputs())?;
    add_outputs(alloc, &mut draft, outputs, names.outputs())?;
    Ok(draft)
}
