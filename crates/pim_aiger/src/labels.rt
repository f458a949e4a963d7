ghost use Rattle.std.specs.Prelude.{◌≡◌, ◌+◌, ◌<◌, ◌≤◌, ◌∷◌, ◌++◌, [], length, All, unwrap_or, IfOk, OnOk};
ghost use Rattle.std.specs.Fmt.{decimal};
ghost use Rattle.pim_io.specs.Names.{label};
ghost use Rattle.pim_aiger.specs.Files.{labels_of};
ghost use Rattle.pim_aiger.specs.SymbolTable.{all_labels};
ghost use Rattle.pim_net.specs.declared.limits.TheConstants.{MAX_OUTPUTS, MAX_SIGNALS};

use crate::names::GivenName;
use pim_io::NoMemory;
use pim_net::{Draft, Names, OutRef, numbered};
use std::alloc::Global;

/// Adds input k of a draft, by its name or else as `i` and k.
fn add_input(
    alloc: Global,
    draft: &mut Draft,
    variable: u32,
    k: u32,
    name: &Option<GivenName>,
) -> Result<(), NoMemory>
    requires below { variable < MAX_SIGNALS }
    requires room { length draft.old.inputs < MAX_SIGNALS }
    ensures { OnOk result (draft.new ≡ record draft.old {
      inputs = draft.old.inputs ++ variable ∷ [];
      input_labels = draft.old.input_labels ++ label (unwrap_or name.now (105 ∷ decimal k)) ∷ [];
    }) }
{
    match name {
        Some(name) => draft.add_input(variable, name.bytes()),
        None => {
            let name = numbered(alloc, b'i', k)?;
            draft.add_input(variable, &name)
        }
    }
}

/// Adds output k of a draft, by its name or else as `o` and k.
fn add_output(
    alloc: Global,
    draft: &mut Draft,
    output: OutRef,
    k: u32,
    name: &Option<GivenName>,
) -> Result<(), NoMemory>
    requires below { output.sig < MAX_SIGNALS }
    requires room { length draft.old.outputs < MAX_OUTPUTS }
    ensures { OnOk result (draft.new ≡ record draft.old {
      outputs = draft.old.outputs ++ output ∷ [];
      output_labels = draft.old.output_labels ++ label (unwrap_or name.now (111 ∷ decimal k)) ∷ [];
    }) }
{
    match name {
        Some(name) => draft.add_output(output, name.bytes()),
        None => {
            let name = numbered(alloc, b'o', k)?;
            draft.add_output(output, &name)
        }
    }
}

/// Adds the inputs of a draft that has none, each by its name or else as `i` and its position.
pub(crate) fn add_inputs(
    alloc: Global,
    draft: &mut Draft,
    inputs: &[u32],
    names: &[Option<GivenName>],
) -> Result<(), NoMemory>
    requires same { length names.now ≡ length inputs.now }
    requires below { All (λ v. v < MAX_SIGNALS) inputs.now }
    requires few { length inputs.now ≤ MAX_SIGNALS }
    requires none { draft.old.inputs ≡ [] }
    requires unlabelled { draft.old.input_labels ≡ [] }
    ensures { OnOk result (draft.new ≡ record draft.old {
      inputs = inputs.now;
      input_labels = all_labels 105 0 names.now;
    }) }
{
    for k in 0..inputs.len() {
        add_input(alloc, draft, inputs[k], k as u32, &names[k])?;
    }
    Ok(())
}

/// Adds the outputs of a draft that has none, each by its name or else as `o` and its position.
pub(crate) fn add_outputs(
    alloc: Global,
    draft: &mut Draft,
    outputs: &[OutRef],
    names: &[Option<GivenName>],
) -> Result<(), NoMemory>
    requires same { length names.now ≡ length outputs.now }
    requires below { All (λ o. o.sig < MAX_SIGNALS) outputs.now }
    requires few { length outputs.now ≤ MAX_OUTPUTS }
    requires none { draft.old.outputs ≡ [] }
    requires unlabelled { draft.old.output_labels ≡ [] }
    ensures { OnOk result (draft.new ≡ record draft.old {
      outputs = outputs.now;
      output_labels = all_labels 111 0 names.now;
    }) }
{
    for k in 0..outputs.len() {
        add_output(alloc, draft, outputs[k], k as u32, &names[k])?;
    }
    Ok(())
}

/// The labels of variables, each called by the letter `v` and its number.
pub(crate) fn labels(alloc: Global, variables: &[u32]) -> Result<Names, NoMemory>
    ensures { IfOk result (λ labels. labels ≡ labels_of variables.now) }
{
    let mut labels = Names::new(alloc);
    for variable in variables {
        let name = numbered(alloc, b'v', *variable)?;
        labels.push(&name)?;
    }
    Ok(labels)
}
