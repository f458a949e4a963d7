ghost use Rattle.std.specs.Prelude.{◌≡◌, option_map};
ghost use Rattle.pim_blif.specs.Directives.{is_passed_over, directive_named, directive_of};
ghost use Rattle.pim_blif.specs.inner.Found.{directive_view};

/// What a statement that begins with a dot is (BLIF 1992, "Models", "Logic Gates" and "Delay Constraints").
#[derive(Clone, Copy, Debug, PartialEq, Eq)]
pub(crate) enum Directive {
    /// `.model` begins the model.
    Model,
    /// `.inputs` names inputs.
    Inputs,
    /// `.outputs` names outputs.
    Outputs,
    /// `.names` begins a cover.
    Names,
    /// `.end` ends the model.
    End,
    /// A statement on area, delay or load, which tells nothing of what a netlist computes.
    PassedOver,
    /// Any other word that begins with a dot.
    Unsupported,
}

impl Directive {
    /// The directive that a statement's first word is, if it begins with a dot.
    pub(crate) fn of(word: &[u8]) -> Option<Directive>
        ensures { option_map directive_view result ≡ directive_of word.now }
    {
        let (first, name) = word.split_first()?;
        if *first != b'.' {
            return None;
        }
        Some(Directive::named(name))
    }

    /// The directive of a name, which stands behind the dot.
    #[tactic(auto, unfolding(crate::specs::Directives::directive_named))]
    fn named(name: &[u8]) -> Directive
        ensures { directive_view result ≡ directive_named name.now }
    {
        if name == b"names".as_slice() {
            Directive::Names
        } else if name == b"model".as_slice() {
            Directive::Model
        } else if name == b"inputs".as_slice() {
            Directive::Inputs
        } else if name == b"outputs".as_slice() {
            Directive::Outputs
        } else if name == b"end".as_slice() {
            Directive::End
        } else if is_passed_over(name) {
            Directive::PassedOver
        } else {
            Directive::Unsupported
        }
    }
}

/// Whether a directive of this name is passed over.
fn is_passed_over(name: &[u8]) -> bool
    ensures { result ≡ is_passed_over name.now }
{
    name == b"area".as_slice()
        || name == b"delay".as_slice()
        || name == b"wire_load_slope".as_slice()
        || name == b"wire".as_slice()
        || name == b"input_arrival".as_slice()
        || name == b"default_input_arrival".as_slice()
        || name == b"output_required".as_slice()
        || name == b"default_output_required".as_slice()
        || name == b"input_drive".as_slice()
        || name == b"default_input_drive".as_slice()
        || name == b"output_load".as_slice()
        || name == b"default_output_load".as_slice()
        || name == b"max_input_load".as_slice()
        || name == b"default_max_input_load".as_slice()
}
